//! What an edit makes of a transaction's tree.
ghost use Rattle.std.specs.Prelude.{◌≡◌, ◌&&◌, ◌++◌, nat_lt, true, false, is_some, IfOk, IfSome, OnOk};
ghost use Rattle.std.specs.BTreeSet as set;
ghost use Rattle.std.specs.FinMap as map;
ghost use Rattle.std.specs.Option.{option_copied};
ghost use Rattle.fsfs_model.specs.Flat.Edits.{accepts, applied, can_make, within_limits, is_dir_node, is_file_node, with_text, with_prop, changed_props, bytes_of, fits_value, copied_node, rest_after, parent, kind_of_node, mark_of};
ghost use Rattle.fsfs_tree.specs.Entries.{entry_count};
ghost use Rattle.fsfs_tree.specs.Nodes.{empty_node, TreeFunction};
ghost use Rattle.fsfs_base.specs.Paths.{Path, path_cmp, covers};
ghost use Rattle.fsfs_tree.specs.Revisions.{tree_of};
ghost use Rattle.fsfs_tree.specs.Dated.{last_of};

use crate::history::node_at;
use crate::{Edit, Mark, What};
use fsfs_base::{FsPath, Kind, Pairs, PropName, RevNum};
use fsfs_tree::{History, Node, Text, Tree};
use std::alloc::{AllocError, Global};
use std::collections::BTreeSet;

const MOST_ENTRIES: usize = 1048576;

const LONGEST_TEXT: usize = 1073741824;

const LONGEST_VALUE: usize = 1048576;

fn is_dir(node: Option<&Node>) -> bool
    ensures { result ≡ is_dir_node (option_copied node.entry) }
{
    match node {
        None => false,
        Some(node) => match node.kind {
            Kind::File => false,
            Kind::Dir => true,
        },
    }
}

fn is_file(node: Option<&Node>) -> bool
    ensures { result ≡ is_file_node (option_copied node.entry) }
{
    match node {
        None => false,
        Some(node) => match node.kind {
            Kind::File => true,
            Kind::Dir => false,
        },
    }
}

fn parent(alloc: Global, path: &FsPath) -> Result<FsPath, AllocError>
    ensures { IfOk result (λ p. p ≡ parent path.now) }
{
    path.prefix(alloc, path.depth().saturating_sub(1))
}

// Whether nothing stands at the path, and a directory above it.
fn can_make(alloc: Global, own: &Tree, path: &FsPath) -> Result<bool, AllocError>
    ensures { IfOk result (λ answer. answer ≡ can_make (map.get own.now) path.now) }
{
    if path.is_root() {
        return Ok(false);
    }
    let parent = parent(alloc, path)?;
    Ok(own.get(path).is_none() && is_dir(own.get(&parent)))
}

// Whether the edit is not refused, but for a limit.
fn accepts(alloc: Global, edit: &Edit, history: &History, own: &Tree) -> Result<bool, AllocError>
    ensures { IfOk result (λ answer. answer ≡ accepts edit.now (tree_of history.now) (last_of history.now) (map.get own.now)) }
{
    match edit {
        Edit::MakeDir { path } | Edit::MakeFile { path } => can_make(alloc, own, path),
        Edit::Delete { path } => Ok(!path.is_root() && own.get(path).is_some()),
        Edit::Copy { rev, from, to } => Ok(
            can_make(alloc, own, to)?
                && rev.get() as usize <= history.count().saturating_sub(1)
                && node_at(history, *rev, from).is_some(),
        ),
        Edit::PutText { path, .. } => Ok(is_file(own.get(path))),
        Edit::SetProp { path, .. } => Ok(own.get(path).is_some()),
    }
}

// Whether the directory above the path has room for one more entry.
fn has_room(alloc: Global, own: &Tree, path: &FsPath) -> Result<bool, AllocError>
    ensures { IfOk result (λ answer. answer ≡ nat_lt (entry_count own.now (parent path.now)) 1048576) }
{
    let parent = parent(alloc, path)?;
    Ok(own.entry_count(&parent) < MOST_ENTRIES)
}

fn within_limits(alloc: Global, edit: &Edit, own: &Tree) -> Result<bool, AllocError>
    ensures { IfOk result (λ answer. answer ≡ within_limits edit.now own.now) }
{
    match edit {
        Edit::MakeDir { path } | Edit::MakeFile { path } => has_room(alloc, own, path),
        Edit::Copy { to, .. } => has_room(alloc, own, to),
        Edit::Delete { .. } => Ok(true),
        Edit::PutText { text, .. } => Ok(text.len() <= LONGEST_TEXT),
        Edit::SetProp { value, .. } => match value {
            None => Ok(true),
            Some(value) => Ok(value.len() <= LONGEST_VALUE),
        },
    }
}

fn cloned(node: Option<&Node>) -> Result<Option<Node>, AllocError>
    ensures { IfOk result (λ copy. copy ≡ option_copied node.entry) }
{
    match node {
        None => Ok(None),
        Some(node) => Ok(Some(node.clone()?)),
    }
}

fn new_node(alloc: Global, kind: Kind) -> Node
    ensures { result ≡ empty_node kind }
{
    Node {
        kind,
        text: Text::Bytes(Vec::new(alloc)),
        properties: Pairs::new(alloc),
        source: None,
        added: RevNum::ZERO,
        props_changed: RevNum::ZERO,
        last_changed: RevNum::ZERO,
    }
}

// The node with another text.
fn with_text(node: Option<&Node>, text: &Vec<u8>) -> Result<Option<Node>, AllocError>
    ensures { IfOk result (λ changed. changed ≡ with_text text.now.items (option_copied node.entry)) }
{
    match node {
        None => Ok(None),
        Some(node) => {
            let mut changed = node.clone()?;
            changed.text = Text::Bytes(text.clone()?);
            Ok(Some(changed))
        }
    }
}

// The node with a property set or removed.
fn with_prop(
    alloc: Global,
    node: Option<&Node>,
    name: &PropName,
    value: &Option<Vec<u8>>,
) -> Result<Option<Node>, AllocError>
    ensures { IfOk result (λ changed. changed ≡ with_prop name.now (bytes_of value.now) (option_copied node.entry)) }
{
    match node {
        None => Ok(None),
        Some(node) => {
            let mut changed = node.clone()?;
            match value {
                None => changed.properties.remove(name.as_str().as_bytes()),
                Some(value) => {
                    let name = Vec::from_slice(alloc, name.as_str().as_bytes())?;
                    changed.properties.set(name, value.clone()?)?;
                }
            }
            Ok(Some(changed))
        }
    }
}

// A copy of what stands at a path of a revision.
fn copied(history: &History, rev: RevNum, from: FsPath) -> Result<Option<Node>, AllocError>
    ensures { IfOk result (λ node. node ≡ copied_node rev from (tree_of history.now rev from)) }
{
    match node_at(history, rev, &from) {
        None => Ok(None),
        Some(node) => {
            let mut node = node.clone()?;
            node.source = Some((rev, from));
            Ok(Some(node))
        }
    }
}

// What stands at a path after the edit.
fn node_after(
    alloc: Global,
    edit: &Edit,
    history: &History,
    own: &Tree,
    path: &FsPath,
) -> Result<Option<Node>, AllocError>
    ensures { IfOk result (λ node. node ≡ applied edit.now (tree_of history.now) (map.get own.now) path.now) }
{
    match edit {
        Edit::MakeDir { path: made } if path == made => Ok(Some(new_node(alloc, Kind::Dir))),
        Edit::MakeFile { path: made } if path == made => Ok(Some(new_node(alloc, Kind::File))),
        Edit::Delete { path: gone } if gone.covers(path) => Ok(None),
        Edit::Copy { rev, from, to } if to.covers(path) => {
            copied(history, *rev, path.moved(to.depth(), from)?)
        }
        Edit::PutText {
            path: changed,
            text,
        } if path == changed => { with_text(own.get(changed), text) }
        Edit::SetProp {
            path: changed,
            name,
            value,
        } if path == changed => with_prop(alloc, own.get(changed), name, value),
        _ => cloned(own.get(path)),
    }
}

// Adds to the set the paths at which a copy puts something.
fn add_copied(
    alloc: Global,
    history: &History,
    rev: RevNum,
    from: &FsPath,
    to: &FsPath,
    all: &mut BTreeSet<FsPath>,
) -> Result<(), AllocError>
    ensures keeps { OnOk result ((q : Path) → set.contains path_cmp all.old q ≡ true → set.contains path_cmp all.new q ≡ true) }
    ensures adds { OnOk result ((q : Path) → covers to.now q ≡ true → is_some (tree_of history.now rev (from.now ++ rest_after to.now q)) ≡ true → set.contains path_cmp all.new q ≡ true) }
{
    let mut sources = BTreeSet::new(alloc);
    if let Some(revision) = history.get(rev) {
        revision.tree.add_paths(&mut sources)?;
    }
    for source in &sources {
        if from.covers(source) {
            all.insert(source.moved(from.depth(), to)?)?;
        }
    }
    Ok(())
}

// Adds to the set the paths at which the edit puts something.
fn add_made(
    alloc: Global,
    edit: &Edit,
    history: &History,
    all: &mut BTreeSet<FsPath>,
) -> Result<(), AllocError>
    ensures keeps { OnOk result ((q : Path) → set.contains path_cmp all.old q ≡ true → set.contains path_cmp all.new q ≡ true) }
    ensures adds { OnOk result ((t : TreeFunction) (q : Path) → is_some (applied edit.now (tree_of history.now) t q) ≡ true → is_some (t q) ≡ false → set.contains path_cmp all.new q ≡ true) }
{
    match edit {
        Edit::MakeDir { path } | Edit::MakeFile { path } => {
            all.insert(path.clone()?)?;
            Ok(())
        }
        Edit::Copy { rev, from, to } => add_copied(alloc, history, *rev, from, to, all),
        Edit::Delete { .. } | Edit::PutText { .. } | Edit::SetProp { .. } => Ok(()),
    }
}

// Paths among which are those at which something stands after the edit.
fn paths_after(
    alloc: Global,
    edit: &Edit,
    history: &History,
    own: &Tree,
) -> Result<BTreeSet<FsPath>, AllocError>
    ensures { IfOk result (λ all. (q : Path) → is_some (applied edit.now (tree_of history.now) (map.get own.now) q) ≡ true → set.contains path_cmp all q ≡ true) }
{
    let mut all = BTreeSet::new(alloc);
    own.add_paths(&mut all)?;
    add_made(alloc, edit, history, &mut all)?;
    Ok(all)
}

// The tree after an edit that is not refused.
fn tree_after(alloc: Global, edit: &Edit, history: &History, own: &Tree) -> Result<Tree, AllocError>
    ensures { IfOk result (λ tree. (q : Path) → map.get tree q ≡ applied edit.now (tree_of history.now) (map.get own.now) q) }
{
    let all = paths_after(alloc, edit, history, own)?;
    let mut tree = Tree::new(alloc);
    for path in &all {
        if let Some(node) = node_after(alloc, edit, history, own, path)? {
            tree.insert(path.clone()?, node)?;
        }
    }
    Ok(tree)
}

/// The tree after an edit of a transaction with the tree `own`, or none where the edit is refused: where what it needs isn't
/// there or is of the wrong kind, where something stands in its place, at the root that can't be deleted, for a copy from a
/// revision that isn't there, and past a limit (2^20 entries of a directory, texts of 2^30 and property values of 2^20 bytes).
pub fn flat_apply(
    alloc: Global,
    edit: &Edit,
    history: &History,
    own: &Tree,
) -> Result<Option<Tree>, AllocError>
    ensures defined { IfOk result (λ tree. is_some tree ≡ (accepts edit.now (tree_of history.now) (last_of history.now) (map.get own.now) && within_limits edit.now own.now)) }
    ensures tree { IfOk result (λ tree. IfSome tree (λ tree. (q : Path) → map.get tree q ≡ applied edit.now (tree_of history.now) (map.get own.now) q)) }
{
    if !accepts(alloc, edit, history, own)? || !within_limits(alloc, edit, own)? {
        return Ok(None);
    }
    Ok(Some(tree_after(alloc, edit, history, own)?))
}

fn kind_of(node: Option<&Node>) -> Kind
    ensures { result ≡ kind_of_node (option_copied node.entry) }
{
    match node {
        None => Kind::Dir,
        Some(node) => node.kind,
    }
}

/// The mark that an edit of a transaction with the tree `own` adds, where it isn't refused.
pub fn flat_mark(edit: &Edit, history: &History, own: &Tree) -> Result<Mark, AllocError>
    ensures { IfOk result (λ mark. mark ≡ mark_of edit.now (tree_of history.now) (map.get own.now)) }
{
    let (path, kind, what) = match edit {
        Edit::MakeDir { path } => (path, Kind::Dir, What::Make(None)),
        Edit::MakeFile { path } => (path, Kind::File, What::Make(None)),
        Edit::Delete { path } => (path, kind_of(own.get(path)), What::Gone),
        Edit::Copy { rev, from, to } => {
            let kind = kind_of(node_at(history, *rev, from));
            (to, kind, What::Make(Some((*rev, from.clone()?))))
        }
        Edit::PutText { path, .. } => (path, kind_of(own.get(path)), What::Text),
        Edit::SetProp { path, .. } => (path, kind_of(own.get(path)), What::Prop),
    };
    Ok(Mark {
        path: path.clone()?,
        kind,
        what,
    })
}
