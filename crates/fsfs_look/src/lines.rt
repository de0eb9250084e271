//! The line of a node in the text of a tree.
ghost use Rattle.std.specs.Prelude.{◌≡◌, ◌++◌, ℕ, List, replicate, OnOk, codes};
ghost use Rattle.fsfs_noderev.specs.Fields.{IsIdText};
ghost use Rattle.fsfs_tree.specs.Answers.{kind_mark};
ghost use Rattle.fsfs_stands.specs.TreeTexts.{IsLine};

use fsfs_base::Kind;
use fsfs_noderev::{NodeId, NodeRev, put_id};
use std::alloc::AllocError;

/// Puts so many spaces behind the lines.
pub fn put_spaces(lines: &mut Vec<u8>, count: usize) -> Result<(), AllocError>
    ensures { OnOk result (lines.new.items ≡ lines.old.items ++ replicate count 32) }
{
    for _ in 0..count {
        lines.push(b' ')?;
    }
    Ok(())
}

// The name, and `/` behind that of a directory.
fn put_name(lines: &mut Vec<u8>, name: &str, kind: Kind) -> Result<(), AllocError>
    ensures { OnOk result (lines.new.items ≡ lines.old.items ++ name.now ++ kind_mark kind) }
{
    lines.extend_from_slice(name.as_bytes())?;
    match kind {
        Kind::File => {}
        Kind::Dir => lines.push(b'/')?,
    }
    Ok(())
}

// An id in angle brackets behind a space.
fn put_shown_id(lines: &mut Vec<u8>, id: &NodeId) -> Result<(), AllocError>
    ensures { OnOk result ((id_text : List ℕ) × IsIdText id_text id.now × (lines.new.items ≡ lines.old.items ++ codes " <" ++ id_text ++ codes ">")) }
{
    lines.extend_from_slice(b" <")?;
    put_id(lines, id)?;
    lines.push(b'>')?;
    Ok(())
}

fn put_end(lines: &mut Vec<u8>) -> Result<(), AllocError>
    ensures { OnOk result (lines.new.items ≡ lines.old.items ++ codes "\n") }
{
    lines.push(b'\n')?;
    Ok(())
}

/// Puts the line of a node behind these lines: a space for each level, its name, `/` behind that of a directory, and its
/// id in angle brackets if ids are shown.
pub(crate) fn put_line(
    lines: &mut Vec<u8>,
    show_ids: bool,
    level: usize,
    name: &str,
    node: &NodeRev,
) -> Result<(), AllocError>
    ensures { OnOk result ((line : List ℕ) × IsLine show_ids level name.now node.now line × (lines.new.items ≡ lines.old.items ++ line)) }
{
    put_spaces(lines, level)?;
    put_name(lines, name, node.kind)?;
    if show_ids {
        put_shown_id(lines, &node.id)?;
    }
    put_end(lines)?;
    Ok(())
}
