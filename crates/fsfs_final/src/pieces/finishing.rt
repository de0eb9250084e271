//! A transaction's node-revision as it stands in the revision.
ghost use Rattle.std.specs.Prelude.{◌≡◌, IfOk};
ghost use Rattle.fsfs_final.specs.Final.{final_part};
ghost use Rattle.fsfs_final.specs.Finishing.{final_root, finish};

use fsfs_base::RevNum;
use fsfs_noderev::{Contents, CopyRoot, NodeId, NodeRev, Part, Place, same_source};
use std::alloc::AllocError;

fn final_part(rev: RevNum, part: Part) -> Part
    ensures { result ≡ final_part rev part }
{
    match part {
        Part::New(number) => Part::Made(number, rev),
        Part::Old(number) => Part::Old(number),
        Part::Made(number, made) => Part::Made(number, made),
    }
}

fn final_root(rev: RevNum, root: &Option<CopyRoot>) -> Result<Option<CopyRoot>, AllocError>
    ensures { IfOk result (λ done. done ≡ final_root rev root.now) }
{
    match root {
        None => Ok(None),
        Some(root) => Ok(Some(CopyRoot {
            rev: Some(root.rev.unwrap_or(rev)),
            path: root.path.clone()?,
        })),
    }
}

/// The node-revision with final parts and its place in the revision, with this text and these properties.
pub(crate) fn finish(
    rev: RevNum,
    offset: u64,
    text: Option<Contents>,
    props: Option<Contents>,
    node: &NodeRev,
) -> Result<NodeRev, AllocError>
    ensures { IfOk result (λ done. done ≡ finish rev offset text props node.now) }
{
    let id = NodeId {
        node: final_part(rev, node.id.node),
        copy: final_part(rev, node.id.copy),
        place: Place::At(rev, offset),
    };
    Ok(NodeRev {
        id,
        kind: node.kind,
        predecessor: node.predecessor,
        count: node.count,
        text,
        props,
        created_path: node.created_path.clone()?,
        copy_from: same_source(&node.copy_from)?,
        copy_root: final_root(rev, &node.copy_root)?,
        is_fresh_txn_root: false,
        mergeinfo_count: node.mergeinfo_count,
        has_mergeinfo: node.has_mergeinfo,
    })
}
