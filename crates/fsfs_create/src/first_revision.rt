// The bytes of a new repository's revision 0.
ghost use Rattle.std.specs.Prelude.{◌≡◌, IfOk};
ghost use Rattle.fsfs_base.specs.FirstRevision.{first_bytes};
ghost use Rattle.fsfs_create.specs.FirstRoot.{IsFirstRoot};

use fsfs_base::{B36, FsPath, HexDigest, Kind, Pairs, RevNum};
use fsfs_layout::write_hash;
use fsfs_noderev::{Contents, NodeId, NodeRev, Part, Place, Rep, write_noderev};
use fsfs_revision::{Trailer, put_trailer};
use std::alloc::{AllocError, Global};

// The MD5 of a directory's text that has no entries.
const MD5_OF_NO_ENTRIES: [u8; 16] = [
    0x2d, 0x29, 0x77, 0xd1, 0xc9, 0x6f, 0x48, 0x7a, 0xbe, 0x4a, 0x1e, 0x20, 0x2d, 0xd0, 0x3b, 0x4e,
];

// The root, an empty directory: its text of this length has its representation at 0, and its node-revision begins at
// this offset.
fn first_root(alloc: Global, length: u64, offset: u64) -> NodeRev
    ensures { IsFirstRoot length offset result }
{
    let entries = Rep {
        rev: Some(RevNum::ZERO),
        offset: 0,
        length,
        size: length,
        md5: HexDigest {
            bytes: MD5_OF_NO_ENTRIES,
        },
        unique: None,
    };
    NodeRev {
        id: NodeId {
            node: Part::Old(B36 { number: 0 }),
            copy: Part::Old(B36 { number: 0 }),
            place: Place::At(RevNum::ZERO, offset),
        },
        kind: Kind::Dir,
        predecessor: None,
        count: 0,
        text: Some(Contents::At(entries)),
        props: None,
        created_path: FsPath::root(alloc),
        copy_from: None,
        copy_root: None,
        is_fresh_txn_root: false,
        mergeinfo_count: None,
        has_mergeinfo: false,
    }
}

/// The representation of the root's entries, which are none, the root's node-revision, no changed paths, and the trailer.
pub fn write_first_revision(alloc: Global) -> Result<Vec<u8>, AllocError>
    ensures { IfOk result (λ v. v.items ≡ first_bytes) }
{
    let entries = write_hash(alloc, &Pairs::new(alloc))?;
    let mut out = Vec::from_slice(alloc, b"PLAIN\n")?;
    out.extend_from_slice(&entries)?;
    out.extend_from_slice(b"ENDREP\n")?;
    let root = out.len() as u64;
    let node = first_root(alloc, entries.len() as u64, root);
    let text = write_noderev(alloc, &node)?;
    out.extend_from_slice(&text)?;
    let changes = out.len() as u64;
    put_trailer(&mut out, Trailer { root, changes })?;
    Ok(out)
}
