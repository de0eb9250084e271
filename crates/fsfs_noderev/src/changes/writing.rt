//! Writing changed-path data.
ghost use Rattle.std.specs.Prelude.{◌≡◌, ◌≤◌, [], All, OnOk, IfOk};
ghost use Rattle.fsfs_base.specs.Grammar.Relations.{Appends};
ghost use Rattle.fsfs_base.specs.PathTexts.{IsPath};
ghost use Rattle.fsfs_noderev.specs.Fields.{IsKindText, IsPathText};
ghost use Rattle.fsfs_noderev.specs.Writing.{FitsSource};
ghost use Rattle.fsfs_noderev.specs.Changes.Words.{IsFlagText, IsActionText, IsActionAndKind};
ghost use Rattle.fsfs_noderev.specs.Changes.Items.{IsFirstLine, IsSecondLine, IsItem, HasText};
ghost use Rattle.fsfs_noderev.specs.Changes.Texts.{AreChanges, AreRevisionChanges, HavePathsOnce};

use crate::changes::item::ChangeItem;
use crate::{CopySource, put_id};
use fsfs_base::{Action, FsPath, Kind};
use std::alloc::{AllocError, Global};

fn put_flag(out: &mut Vec<u8>, flag: bool) -> Result<(), AllocError>
    ensures { OnOk result (Appends IsFlagText out.old.items out.new.items flag) }
{
    match flag {
        true => out.extend_from_slice(b"true"),
        false => out.extend_from_slice(b"false"),
    }
}

fn put_action(out: &mut Vec<u8>, action: Action) -> Result<(), AllocError>
    ensures { OnOk result (Appends IsActionText out.old.items out.new.items action) }
{
    match action {
        Action::Add => out.extend_from_slice(b"add"),
        Action::Delete => out.extend_from_slice(b"delete"),
        Action::Replace => out.extend_from_slice(b"replace"),
        Action::Modify => out.extend_from_slice(b"modify"),
    }
}

fn put_kind(out: &mut Vec<u8>, kind: Kind) -> Result<(), AllocError>
    ensures { OnOk result (Appends IsKindText out.old.items out.new.items kind) }
{
    match kind {
        Kind::File => out.extend_from_slice(b"file"),
        Kind::Dir => out.extend_from_slice(b"dir"),
    }
}

fn put_action_and_kind(
    out: &mut Vec<u8>,
    action: Action,
    kind: Option<Kind>,
) -> Result<(), AllocError>
    ensures { OnOk result (Appends IsActionAndKind out.old.items out.new.items (action, kind)) }
{
    put_action(out, action)?;
    match kind {
        None => Ok(()),
        Some(kind) => {
            out.push(b'-')?;
            put_kind(out, kind)?;
            Ok(())
        }
    }
}

fn put_path(alloc: Global, out: &mut Vec<u8>, path: &FsPath) -> Result<(), AllocError>
    requires { IsPath path.now }
    ensures { OnOk result (Appends IsPathText out.old.items out.new.items path.now) }
{
    let text = path.text(alloc)?;
    out.extend_from_slice(text.as_str().as_bytes())?;
    Ok(())
}

fn put_first_line(alloc: Global, out: &mut Vec<u8>, item: &ChangeItem) -> Result<(), AllocError>
    requires { HasText item.now }
    ensures { OnOk result (Appends IsFirstLine out.old.items out.new.items item.now) }
{
    put_id(out, &item.id)?;
    out.push(b' ')?;
    put_action_and_kind(out, item.action, item.kind)?;
    out.push(b' ')?;
    put_flag(out, item.text_changed)?;
    out.push(b' ')?;
    put_flag(out, item.props_changed)?;
    out.push(b' ')?;
    put_path(alloc, out, &item.path)?;
    Ok(())
}

fn put_second_line(
    alloc: Global,
    out: &mut Vec<u8>,
    source: &Option<CopySource>,
) -> Result<(), AllocError>
    requires { FitsSource source.now }
    ensures { OnOk result (Appends IsSecondLine out.old.items out.new.items source.now) }
{
    match source {
        None => Ok(()),
        Some(source) => {
            source.rev.put(out)?;
            out.push(b' ')?;
            put_path(alloc, out, &source.path)?;
            Ok(())
        }
    }
}

/// Writes an item at the end, with its kind. Where memory runs out, a part of it may stand there.
pub fn put_item(alloc: Global, out: &mut Vec<u8>, item: &ChangeItem) -> Result<(), AllocError>
    requires { HasText item.now }
    ensures { OnOk result (Appends IsItem out.old.items out.new.items item.now) }
{
    put_first_line(alloc, out, item)?;
    out.push(b'\n')?;
    put_second_line(alloc, out, &item.source)?;
    out.push(b'\n')?;
    Ok(())
}

/// The changed-path data of these items, each with its kind, in the order in which they are given; a revision's stand in
/// byte order of their paths' texts (this project's profile).
pub fn write_changes(alloc: Global, items: &[ChangeItem]) -> Result<Vec<u8>, AllocError>
    requires { All HasText items.now }
    ensures in_order { IfOk result (λ v. AreChanges v.items items.now) }
    ensures revision { HavePathsOnce [] items.now → IfOk result (λ v. AreRevisionChanges v.items items.now) }
{
    let mut out = Vec::new(alloc);
    for item in items {
        put_item(alloc, &mut out, item)?;
    }
    Ok(out)
}
