//! The changed paths that the marks of a transaction come to.
ghost use Rattle.std.specs.Prelude.{◌≡◌, IfOk};
ghost use Rattle.std.specs.List.{list_any};
ghost use Rattle.std.specs.BTreeSet as set;
ghost use Rattle.std.specs.Option.{option_copied};
ghost use Rattle.std.specs.FinMap as map;
ghost use Rattle.fsfs_base.specs.Paths.{Path, path_cmp, same_path};
ghost use Rattle.fsfs_model.specs.Flat.Folding.{change_of, begun, after_add, after_delete, after_modify, joined, fold_mark, fold};
ghost use Rattle.fsfs_model.specs.declared.flat.mark.What.TheVariants.{Make};

use crate::{Folded, Mark, What};
use fsfs_base::{Action, FsPath, Kind};
use fsfs_tree::{Change, ChangeMap};
use std::alloc::{AllocError, Global};
use std::collections::BTreeSet;

// A mark alone, as a change.
fn change_of(kind: Kind, what: &What) -> Result<Change, AllocError>
    ensures { IfOk result (λ change. change ≡ change_of kind what.now) }
{
    let (action, source) = match what {
        What::Make(source) => (Action::Add, source.clone()?),
        What::Gone => (Action::Delete, None),
        What::Text | What::Prop => (Action::Modify, None),
    };
    Ok(Change {
        action,
        kind,
        text_changed: match what {
            What::Text => true,
            What::Make(_) | What::Gone | What::Prop => false,
        },
        props_changed: match what {
            What::Prop => true,
            What::Make(_) | What::Gone | What::Text => false,
        },
        source,
    })
}

fn begun(kind: Kind, what: &What) -> Result<Folded, AllocError>
    ensures { IfOk result (λ folded. folded ≡ begun kind what.now) }
{
    Ok(Folded {
        change: change_of(kind, what)?,
        was: kind,
    })
}

// A modify after a change.
fn modified(so_far: Folded, kind: Kind, what: &What) -> Result<Folded, AllocError>
    ensures { IfOk result (λ folded. folded ≡ after_modify so_far.change.action kind what.now so_far) }
{
    if so_far.change.action == Action::Delete {
        return begun(kind, what);
    }
    let mut now = so_far;
    match what {
        What::Text => now.change.text_changed = true,
        What::Prop => now.change.props_changed = true,
        What::Make(_) | What::Gone => {}
    }
    Ok(now)
}

// An add after a change.
fn added(so_far: Folded, kind: Kind, what: &What) -> Result<Folded, AllocError>
    ensures { IfOk result (λ folded. (source : _) → what.now ≡ Make source → folded ≡ after_add so_far.change.action kind source so_far.was) }
{
    let mut now = begun(kind, what)?;
    if so_far.change.action == Action::Delete {
        now.change.action = Action::Replace;
        now.was = so_far.was;
    }
    Ok(now)
}

// A delete after a change.
fn deleted(so_far: Folded, kind: Kind) -> Result<Option<Folded>, AllocError>
    ensures { IfOk result (λ folded. folded ≡ after_delete so_far.change.action kind so_far.was) }
{
    match so_far.change.action {
        Action::Add => Ok(None),
        Action::Replace => Ok(Some(begun(so_far.was, &What::Gone)?)),
        Action::Delete | Action::Modify => Ok(Some(begun(kind, &What::Gone)?)),
    }
}

// What was said of a path, and one more mark at that path.
fn joined(so_far: Option<Folded>, kind: Kind, what: &What) -> Result<Option<Folded>, AllocError>
    ensures { IfOk result (λ folded. folded ≡ joined so_far kind what.now) }
{
    match so_far {
        None => Ok(Some(begun(kind, what)?)),
        Some(so_far) => match what {
            What::Make(_) => Ok(Some(added(so_far, kind, what)?)),
            What::Gone => deleted(so_far, kind),
            What::Text | What::Prop => Ok(Some(modified(so_far, kind, what)?)),
        },
    }
}

// What is said of a path after one more mark.
fn fold_mark(
    so_far: Option<Folded>,
    mark: &Mark,
    path: &FsPath,
) -> Result<Option<Folded>, AllocError>
    ensures { IfOk result (λ folded. folded ≡ fold_mark path.now so_far mark.now) }
{
    if mark.path == *path {
        return joined(so_far, mark.kind, &mark.what);
    }
    match &mark.what {
        What::Gone if mark.path.covers(path) => Ok(None),
        _ => Ok(so_far),
    }
}

// The change of a path that the marks come to.
fn fold_path(marks: &[Mark], path: &FsPath) -> Result<Option<Change>, AllocError>
    ensures { IfOk result (λ change. change ≡ fold marks.now path.now) }
{
    let mut so_far = None;
    for mark in marks {
        so_far = fold_mark(so_far, mark, path)?;
    }
    match so_far {
        None => Ok(None),
        Some(folded) => Ok(Some(folded.change)),
    }
}

// The paths of the marks.
fn marked_paths(alloc: Global, marks: &[Mark]) -> Result<BTreeSet<FsPath>, AllocError>
    ensures { IfOk result (λ all. (q : Path) → set.contains path_cmp all q ≡ list_any (λ m. same_path m.path q) marks.now) }
{
    let mut all = BTreeSet::new(alloc);
    for mark in marks {
        all.insert(mark.path.clone()?)?;
    }
    Ok(all)
}

/// The changed paths that these marks come to: add and delete of one path leave nothing, delete and add make a replace, and a
/// delete takes away what was said of the paths below it.
pub fn flat_fold(alloc: Global, marks: &[Mark]) -> Result<ChangeMap, AllocError>
    ensures { IfOk result (λ changes. (q : Path) → map.get changes q ≡ fold marks.now q) }
{
    let all = marked_paths(alloc, marks)?;
    let mut changes = ChangeMap::new(alloc);
    for path in &all {
        if let Some(change) = fold_path(marks, path)? {
            changes.insert(path.clone()?, change)?;
        }
    }
    Ok(changes)
}
