//! Where a transaction and a head clash.
ghost use Rattle.std.specs.Prelude.{◌≡◌, ◌&&◌, IfOk, MatchOption};
ghost use Rattle.std.specs.Option.{option_copied};
ghost use Rattle.std.specs.FinMap as map;
ghost use Rattle.fsfs_base.specs.Paths.{Path, path_cmp};
ghost use Rattle.fsfs_model.specs.Flat.Marks.{effects_by};
ghost use Rattle.fsfs_model.specs.Flat.Landing.{goes_on, touched_by_head, props_changed_by_head, clashes_at, reached, NoClash, IsFirstClash};

use crate::flat::mark::{effects_at, outer_marks};
use crate::land::all_paths;
use crate::{Effects, Mark};
use fsfs_base::{FsPath, Kind, RevNum};
use fsfs_tree::{Node, Tree};
use std::alloc::{AllocError, Global};

fn touched_by_head(b: RevNum, head: Option<&Node>) -> bool
    ensures { result ≡ touched_by_head b (option_copied head.entry) }
{
    match head {
        None => true,
        Some(node) => b < node.last_changed,
    }
}

fn props_changed_by_head(b: RevNum, head: Option<&Node>) -> bool
    ensures { result ≡ props_changed_by_head b (option_copied head.entry) }
{
    match head {
        None => false,
        Some(node) => b < node.props_changed,
    }
}

// Whether both sides hold the path, so that the walk goes on below it.
fn goes_on(b: RevNum, effects: Effects, base: Option<&Node>, head: Option<&Node>) -> bool
    ensures { result ≡ goes_on b effects (option_copied base.entry) (option_copied head.entry) }
{
    base.is_some()
        && !effects.deleted
        && match head {
            None => false,
            Some(node) => node.added <= b,
        }
}

fn clashes_at(
    b: RevNum,
    effects: Effects,
    base: Option<&Node>,
    head: Option<&Node>,
    own: Option<&Node>,
) -> bool
    ensures { result ≡ clashes_at b effects (option_copied base.entry) (option_copied head.entry) (option_copied own.entry) }
{
    match base {
        None => head.is_some() && own.is_some(),
        Some(node) => {
            let is_dir = match node.kind {
                Kind::File => false,
                Kind::Dir => true,
            };
            effects.touched
                && touched_by_head(b, head)
                && (!is_dir
                    || !goes_on(b, effects, base, head)
                    || effects.props_changed
                    || props_changed_by_head(b, head))
        }
    }
}

// Whether every path above this one goes on.
fn is_reached(
    alloc: Global,
    b: RevNum,
    base: &Tree,
    head: &Tree,
    outer: &[Mark],
    path: &FsPath,
) -> Result<bool, AllocError>
    ensures { IfOk result (λ answer. answer ≡ reached (λ q. goes_on b (effects_by outer.now q) (map.get base.now q) (map.get head.now q)) path.now) }
{
    for count in 0..path.depth() {
        let above = path.prefix(alloc, count)?;
        if !goes_on(
            b,
            effects_at(outer, &above),
            base.get(&above),
            head.get(&above),
        ) {
            return Ok(false);
        }
    }
    Ok(true)
}

fn is_clash(
    alloc: Global,
    b: RevNum,
    base: &Tree,
    head: &Tree,
    own: &Tree,
    outer: &[Mark],
    path: &FsPath,
) -> Result<bool, AllocError>
    ensures { IfOk result (λ answer. answer ≡ (reached (λ q. goes_on b (effects_by outer.now q) (map.get base.now q) (map.get head.now q)) path.now
        && clashes_at b (effects_by outer.now path.now) (map.get base.now path.now) (map.get head.now path.now) (map.get own.now path.now))) }
{
    let comes = is_reached(alloc, b, base, head, outer, path)?;
    let effects = effects_at(outer, path);
    Ok(comes && clashes_at(b, effects, base.get(path), head.get(path), own.get(path)))
}

/// The least path at which the transaction on revision `b` and the head clash.
pub fn flat_clash(
    alloc: Global,
    b: RevNum,
    base: &Tree,
    head: &Tree,
    own: &Tree,
    marks: &[Mark],
) -> Result<Option<FsPath>, AllocError>
    ensures { IfOk result (λ found. MatchOption found
        (NoClash b (map.get base.now) (map.get head.now) (map.get own.now) marks.now)
        (IsFirstClash b (map.get base.now) (map.get head.now) (map.get own.now) marks.now)) }
{
    let all = all_paths(alloc, base, head, own)?;
    let outer = outer_marks(alloc, marks)?;
    for path in &all {
        if is_clash(alloc, b, base, head, own, &outer, path)? {
            return Ok(Some(path.clone()?));
        }
    }
    Ok(None)
}
