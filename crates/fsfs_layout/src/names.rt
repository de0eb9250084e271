// The texts of names of files and folders that have a number, a revision or a transaction in them.
ghost use Rattle.std.specs.Prelude.{◌≡◌, ◌≤◌, ◌+◌, ◌++◌, codes, length};
ghost use Rattle.std.specs.Fmt.{decimal};
ghost use Rattle.fsfs_base.specs.Fields.TxnNames.{txn_text};
ghost use Rattle.fsfs_layout.specs.Names.{in_folder, in_pack, with_txn};

use crate::folders::Folders;
use crate::layout::Layout;
use crate::part_name::PartName;
use fsfs_base::{Name, RevNum, TxnName, push_base36};
use itoa::Buffer;

// The folder of a shard's revision files.
pub(crate) fn shard(shard: u32) -> Name
    ensures text { result ≡ codes "db/revs/" ++ decimal shard }
    ensures short { length result ≤ 18 }
{
    let mut name = Name::new("db/revs/");
    name.push_str(Buffer::new().format(shard));
    name
}

// The folder of a shard's revision property files.
pub(crate) fn props_shard(shard: u32) -> Name
    ensures text { result ≡ codes "db/revprops/" ++ decimal shard }
    ensures short { length result ≤ 22 }
{
    let mut name = Name::new("db/revprops/");
    name.push_str(Buffer::new().format(shard));
    name
}

// A revision's file, before it is packed.
pub(crate) fn revision(layout: Layout, rev: RevNum) -> Name
    ensures { result ≡ in_folder (codes "db/revs") layout rev }
{
    let mut name = match layout.folders() {
        Folders::Shards(_) => shard(layout.shard_of(rev)),
        Folders::OneFolder => Name::new("db/revs"),
    };
    name.push('/');
    name.push_str(Buffer::new().format(rev.get()));
    name
}

// The file of a revision's properties.
pub(crate) fn props(layout: Layout, rev: RevNum) -> Name
    ensures { result ≡ in_folder (codes "db/revprops") layout rev }
{
    let mut name = match layout.folders() {
        Folders::Shards(_) => props_shard(layout.shard_of(rev)),
        Folders::OneFolder => Name::new("db/revprops"),
    };
    name.push('/');
    name.push_str(Buffer::new().format(rev.get()));
    name
}

// The folder of a packed shard.
pub(crate) fn pack_folder(packed: u32) -> Name
    ensures text { result ≡ codes "db/revs/" ++ decimal packed ++ codes ".pack" }
    ensures short { length result ≤ 23 }
{
    let mut name = shard(packed);
    name.push_str(".pack");
    name
}

// The revision files of a packed shard, one after another.
pub(crate) fn pack(shard: u32) -> Name
    ensures { result ≡ in_pack shard (codes "/pack") }
{
    let mut name = pack_folder(shard);
    name.push_str("/pack");
    name
}

// Where each revision begins in the pack of its shard.
pub(crate) fn manifest(shard: u32) -> Name
    ensures { result ≡ in_pack shard (codes "/manifest") }
{
    let mut name = pack_folder(shard);
    name.push_str("/manifest");
    name
}

fn push_txn(name: &mut Name, txn: &TxnName)
    requires { length name.old ≤ 100 }
    ensures text { name.new ≡ name.old ++ txn_text txn.now.base txn.now.number.number }
    ensures short { length name.new ≤ length name.old + 24 }
{
    name.push_str(Buffer::new().format(txn.base.get()));
    name.push('-');
    push_base36(name, 13, txn.number.number);
}

// A transaction's folder.
pub(crate) fn txn_folder(txn: &TxnName) -> Name
    ensures text { result ≡ with_txn (codes "db/transactions/") txn.now (codes ".txn") }
    ensures short { length result ≤ 44 }
{
    let mut name = Name::new("db/transactions/");
    push_txn(&mut name, txn);
    name.push_str(".txn");
    name
}

/// The last part of the name of a transaction's folder.
pub fn txn_entry(txn: &TxnName) -> Name
    ensures { result ≡ txn_text txn.now.base txn.now.number.number ++ codes ".txn" }
{
    let mut name = Name::new("");
    push_txn(&mut name, txn);
    name.push_str(".txn");
    name
}

// A file in a transaction's folder.
pub(crate) fn in_txn(txn: &TxnName, part: &PartName) -> Name
    ensures { result ≡ with_txn (codes "db/transactions/") txn.now (codes ".txn/" ++ part.now) }
{
    let mut name = txn_folder(txn);
    name.push('/');
    name.push_str(part.as_str());
    name
}

// The prototype revision file of a transaction.
pub(crate) fn proto_revision(txn: &TxnName) -> Name
    ensures { result ≡ with_txn (codes "db/txn-protorevs/") txn.now (codes ".rev") }
{
    let mut name = Name::new("db/txn-protorevs/");
    push_txn(&mut name, txn);
    name.push_str(".rev");
    name
}

// The lock file beside a transaction's prototype revision file.
pub(crate) fn proto_revision_lock(txn: &TxnName) -> Name
    ensures { result ≡ with_txn (codes "db/txn-protorevs/") txn.now (codes ".rev-lock") }
{
    let mut name = Name::new("db/txn-protorevs/");
    push_txn(&mut name, txn);
    name.push_str(".rev-lock");
    name
}
