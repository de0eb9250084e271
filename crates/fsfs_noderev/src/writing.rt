//! Node-revisions written in lines.
ghost use Rattle.std.specs.Prelude.{◌≡◌, ◌≤◌, ◌++◌, ◌∷◌, [], List, ℕ, Bool, length, take, OnOk, IfOk, codes};
ghost use Rattle.fsfs_base.specs.Grammar.Relations.{Appends};
ghost use Rattle.fsfs_base.specs.PathTexts.{IsPath};
ghost use Rattle.fsfs_noderev.specs.Ids.{IsNumber64};
ghost use Rattle.fsfs_noderev.specs.Fields.{IsIdText, IsKindText, AreContentsText, IsPathText, IsSourceText, IsRootText};
ghost use Rattle.fsfs_noderev.specs.NodeRevs.{IsNodeRev, IsRead};
ghost use Rattle.fsfs_noderev.specs.Writing.{IsLineOf, IsOptional, IsFlag, IsWritten, HasText, FitsSource, FitsRoot};

use crate::node_id::{NodeId, put_id};
use crate::node_rev::{CopyRoot, CopySource, NodeRev};
use crate::rep::{Contents, put_contents, put_rev_or_none};
use fsfs_base::{FsPath, Kind, put_dec};
use std::alloc::{AllocError, Global};

/// The name of a line and what stands before its value.
fn put_name(out: &mut Vec<u8>, name: &[u8]) -> Result<(), AllocError>
    ensures { OnOk result (out.new.items ≡ out.old.items ++ name.now ++ 58 ∷ 32 ∷ []) }
{
    out.extend_from_slice(name)?;
    out.extend_from_slice(b": ")?;
    Ok(())
}

fn id_line(out: &mut Vec<u8>, name: &[u8], id: &NodeId) -> Result<(), AllocError>
    ensures { OnOk result (Appends (IsLineOf name.now IsIdText) out.old.items out.new.items id.now) }
{
    put_name(out, name)?;
    put_id(out, id)?;
    out.push(b'\n')?;
    Ok(())
}

fn kind_line(out: &mut Vec<u8>, kind: Kind) -> Result<(), AllocError>
    ensures { OnOk result (Appends (IsLineOf (codes "type") IsKindText) out.old.items out.new.items kind) }
{
    match kind {
        Kind::File => {
            out.extend_from_slice(b"type: file\n")?;
            Ok(())
        }
        Kind::Dir => {
            out.extend_from_slice(b"type: dir\n")?;
            Ok(())
        }
    }
}

fn number_line(out: &mut Vec<u8>, name: &[u8], number: u64) -> Result<(), AllocError>
    ensures { OnOk result (Appends (IsLineOf name.now IsNumber64) out.old.items out.new.items number) }
{
    put_name(out, name)?;
    put_dec(out, number)?;
    out.push(b'\n')?;
    Ok(())
}

fn put_path(alloc: Global, out: &mut Vec<u8>, path: &FsPath) -> Result<(), AllocError>
    requires { IsPath path.now }
    ensures { OnOk result (Appends IsPathText out.old.items out.new.items path.now) }
{
    let text = path.text(alloc)?;
    out.extend_from_slice(text.as_str().as_bytes())?;
    Ok(())
}

fn path_line(alloc: Global, out: &mut Vec<u8>, name: &[u8], path: &FsPath) -> Result<(), AllocError>
    requires { IsPath path.now }
    ensures { OnOk result (Appends (IsLineOf name.now IsPathText) out.old.items out.new.items path.now) }
{
    put_name(out, name)?;
    put_path(alloc, out, path)?;
    out.push(b'\n')?;
    Ok(())
}

fn contents_line(
    alloc: Global,
    out: &mut Vec<u8>,
    name: &[u8],
    contents: &Contents,
) -> Result<(), AllocError>
    ensures { OnOk result (Appends (IsLineOf name.now AreContentsText) out.old.items out.new.items contents.now) }
{
    put_name(out, name)?;
    put_contents(alloc, out, contents)?;
    out.push(b'\n')?;
    Ok(())
}

fn source_line(alloc: Global, out: &mut Vec<u8>, source: &CopySource) -> Result<(), AllocError>
    requires { IsPath source.now.path }
    ensures { OnOk result (Appends (IsLineOf (codes "copyfrom") IsSourceText) out.old.items out.new.items source.now) }
{
    put_name(out, b"copyfrom")?;
    source.rev.put(out)?;
    out.push(b' ')?;
    put_path(alloc, out, &source.path)?;
    out.push(b'\n')?;
    Ok(())
}

fn root_line(alloc: Global, out: &mut Vec<u8>, root: &CopyRoot) -> Result<(), AllocError>
    requires { IsPath root.now.path }
    ensures { OnOk result (Appends (IsLineOf (codes "copyroot") IsRootText) out.old.items out.new.items root.now) }
{
    put_name(out, b"copyroot")?;
    put_rev_or_none(out, root.rev)?;
    out.push(b' ')?;
    put_path(alloc, out, &root.path)?;
    out.push(b'\n')?;
    Ok(())
}

fn flag_line(out: &mut Vec<u8>, name: &[u8], flag: bool) -> Result<(), AllocError>
    ensures { OnOk result (Appends (IsFlag name.now) out.old.items out.new.items flag) }
{
    if !flag {
        return Ok(());
    }
    put_name(out, name)?;
    out.extend_from_slice(b"y\n")?;
    Ok(())
}

fn optional_id(out: &mut Vec<u8>, name: &[u8], id: &Option<NodeId>) -> Result<(), AllocError>
    ensures { OnOk result (Appends (IsOptional name.now IsIdText) out.old.items out.new.items id.now) }
{
    match id {
        None => Ok(()),
        Some(id) => id_line(out, name, id),
    }
}

fn optional_number(out: &mut Vec<u8>, name: &[u8], number: Option<u64>) -> Result<(), AllocError>
    ensures { OnOk result (Appends (IsOptional name.now IsNumber64) out.old.items out.new.items number) }
{
    match number {
        None => Ok(()),
        Some(number) => number_line(out, name, number),
    }
}

fn optional_contents(
    alloc: Global,
    out: &mut Vec<u8>,
    name: &[u8],
    contents: &Option<Contents>,
) -> Result<(), AllocError>
    ensures { OnOk result (Appends (IsOptional name.now AreContentsText) out.old.items out.new.items contents.now) }
{
    match contents {
        None => Ok(()),
        Some(contents) => contents_line(alloc, out, name, contents),
    }
}

fn optional_source(
    alloc: Global,
    out: &mut Vec<u8>,
    source: &Option<CopySource>,
) -> Result<(), AllocError>
    requires { FitsSource source.now }
    ensures { OnOk result (Appends (IsOptional (codes "copyfrom") IsSourceText) out.old.items out.new.items source.now) }
{
    match source {
        None => Ok(()),
        Some(source) => source_line(alloc, out, source),
    }
}

fn optional_root(
    alloc: Global,
    out: &mut Vec<u8>,
    root: &Option<CopyRoot>,
) -> Result<(), AllocError>
    requires { FitsRoot root.now }
    ensures { OnOk result (Appends (IsOptional (codes "copyroot") IsRootText) out.old.items out.new.items root.now) }
{
    match root {
        None => Ok(()),
        Some(root) => root_line(alloc, out, root),
    }
}

/// The text of a node-revision: a line for each field that it has, in the order of `Field`, and an empty line.
/// It stays within the 65,536 bytes that are read of one.
pub fn write_noderev(alloc: Global, node: &NodeRev) -> Result<Vec<u8>, AllocError>
    requires { HasText node.now }
    ensures grammar { IfOk result (λ v. IsNodeRev v.items node.now) }
    ensures lines { IfOk result (λ v. IsWritten v.items node.now) }
    ensures short { IfOk result (λ v. length v.items ≤ 65536) }

    // It reads back as the same node-revision, whatever stands behind it.
    ensures reads_back { IfOk result (λ v. (rest : List ℕ) → IsRead (take 65536 (v.items ++ rest)) node.now) }
{
    let mut out = Vec::new(alloc);
    id_line(&mut out, b"id", &node.id)?;
    kind_line(&mut out, node.kind)?;
    optional_id(&mut out, b"pred", &node.predecessor)?;
    number_line(&mut out, b"count", node.count)?;
    optional_contents(alloc, &mut out, b"text", &node.text)?;
    optional_contents(alloc, &mut out, b"props", &node.props)?;
    path_line(alloc, &mut out, b"cpath", &node.created_path)?;
    optional_source(alloc, &mut out, &node.copy_from)?;
    optional_root(alloc, &mut out, &node.copy_root)?;
    flag_line(&mut out, b"is-fresh-txn-root", node.is_fresh_txn_root)?;
    optional_number(&mut out, b"minfo-cnt", node.mergeinfo_count)?;
    flag_line(&mut out, b"minfo-here", node.has_mergeinfo)?;
    out.push(b'\n')?;
    Ok(out)
}
