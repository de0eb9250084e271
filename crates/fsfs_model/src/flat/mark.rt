//! What an accepted edit leaves behind, and what a transaction's marks say of a path.
ghost use Rattle.std.specs.Prelude.{◌≡◌, ◌&&◌, not, OnOk, OnErr, IfOk};
ghost use Rattle.std.specs.List.{filter, list_any};
ghost use Rattle.fsfs_base.specs.Paths.{covers};
ghost use Rattle.fsfs_model.specs.Flat.Marks.{any_covers, made_after, outer, touches, is_gone, is_rewritten, changes_props, effects_by};

use fsfs_base::{FsPath, Kind, RevNum};
use std::alloc::{AllocError, Global};

/// What an accepted edit did at its path.
#[derive(Drop)]
pub enum What {
    /// A node was put there: a new one, or a copy of the revision and path that are named.
    Make(Option<(RevNum, FsPath)>),
    /// What stood there was taken away, with all below it.
    Gone,
    /// The file's text was replaced.
    Text,
    /// A property was set or removed.
    Prop,
}

impl Clone for What {
    ghost is_clone = { λ s t. t ≡ s };

    fn clone(&self) -> Result<What, AllocError> {
        match self {
            What::Make(source) => Ok(What::Make(source.clone()?)),
            What::Gone => Ok(What::Gone),
            What::Text => Ok(What::Text),
            What::Prop => Ok(What::Prop),
        }
    }
}

/// One accepted edit of a transaction: its path, the kind of the node made, taken away or changed, and what was done.
#[derive(Drop)]
pub struct Mark {
    pub path: FsPath,
    pub kind: Kind,
    pub what: What,
}

impl Clone for Mark {
    ghost is_clone = { λ s t. t ≡ s };

    fn clone(&self) -> Result<Mark, AllocError> {
        Ok(Mark {
            path: self.path.clone()?,
            kind: self.kind,
            what: self.what.clone()?,
        })
    }
}

/// What a transaction's marks say of a path of its base.
#[derive(Clone, Copy)]
pub struct Effects {
    /// It, or something below it, was changed.
    pub touched: bool,
    /// It was taken away, by itself or with something above it.
    pub deleted: bool,
    /// Its text or its properties were set.
    pub rewritten: bool,
    /// Its properties were set.
    pub props_changed: bool,
}

impl Mark {
    fn touches(&self, path: &FsPath) -> bool
        ensures { result ≡ touches self.now.what self.now.path path.now }
    {
        match &self.what {
            What::Make(_) => self.path.is_below(path),
            What::Gone | What::Text | What::Prop => path.covers(&self.path),
        }
    }

    fn takes_away(&self, path: &FsPath) -> bool
        ensures { result ≡ is_gone self.now.what self.now.path path.now }
    {
        match &self.what {
            What::Gone => self.path.covers(path),
            What::Make(_) | What::Text | What::Prop => false,
        }
    }

    fn rewrites(&self, path: &FsPath) -> bool
        ensures { result ≡ is_rewritten self.now.what self.now.path path.now }
    {
        match &self.what {
            What::Text | What::Prop => self.path.covers(path) && path.covers(&self.path),
            What::Make(_) | What::Gone => false,
        }
    }

    fn sets_props(&self, path: &FsPath) -> bool
        ensures { result ≡ changes_props self.now.what self.now.path path.now }
    {
        match &self.what {
            What::Prop => self.path.covers(path) && path.covers(&self.path),
            What::Make(_) | What::Gone | What::Text => false,
        }
    }
}

fn any_covers(made: &[FsPath], path: &FsPath) -> bool
    ensures { result ≡ any_covers made.now path.now }
{
    made.iter().any(|above| above.covers(path))
}

fn forget_below(made: &mut Vec<FsPath>, path: &FsPath)
    ensures { made.new.items ≡ filter (λ q. not (covers path.now q)) made.old.items }
{
    made.retain(|below| !path.covers(below));
}

fn note_made(made: &mut Vec<FsPath>, mark: &Mark) -> Result<(), AllocError>
    ensures { OnOk result (made.new.items ≡ made_after made.old.items mark.now.what mark.now.path) }
{
    match &mark.what {
        What::Make(_) => made.push(mark.path.clone()?)?,
        What::Gone => forget_below(made, &mark.path),
        What::Text | What::Prop => {}
    }
    Ok(())
}

/// The marks at which the transaction had not yet made anything at or above their path.
pub fn outer_marks(alloc: Global, marks: &[Mark]) -> Result<Vec<Mark>, AllocError>
    ensures { IfOk result (λ v. v.items ≡ outer marks.now) }
{
    let mut made = Vec::new(alloc);
    let mut found = Vec::new(alloc);
    for mark in marks {
        if !any_covers(&made, &mark.path) {
            found.push(mark.clone()?)?;
        }
        note_made(&mut made, mark)?;
    }
    Ok(found)
}

/// What the outer marks say of a path.
pub fn effects_at(outer: &[Mark], path: &FsPath) -> Effects
    ensures { result ≡ effects_by outer.now path.now }
{
    let mut effects = Effects {
        touched: path.is_root(),
        deleted: false,
        rewritten: false,
        props_changed: false,
    };
    for mark in outer {
        effects = Effects {
            touched: effects.touched || mark.touches(path),
            deleted: effects.deleted || mark.takes_away(path),
            rewritten: effects.rewritten || mark.rewrites(path),
            props_changed: effects.props_changed || mark.sets_props(path),
        };
    }
    effects
}
