// Where the benches stand.
ghost use Rattle.std.specs.Prelude.{◌≡◌, ◌++◌, codes, IfOk, IfSome};
ghost use Rattle.fsfs_disk.specs.Labels.{label_of};
ghost use Rattle.fsfs_layout.specs.FileNames.{txn_file_name};
ghost use Rattle.fsfs_folders.specs.LabelPaths.{bench_folder, IsFitting};

use crate::{CallError, Path};
use fsfs_base::{Name, TxnName};
use fsfs_disk::Label;
use fsfs_layout::TxnFile;
use itoa::Buffer;

/// The folder of a label's bench.
pub fn bench_path(label: &Label) -> Path
    ensures path { result ≡ bench_folder (label_of label.now) }
    ensures fits { IsFitting (label_of label.now) }
{
    match label {
        Label::Txn(txn) => {
            let _ = txn.base.get();
            Path::of(&TxnFile::Folder.name(txn))
        }
        Label::Pack(shard) => {
            let mut path = Path::new("db/pack-");
            path.push_str(Buffer::new().format(*shard));
            path.push_str(".bench");
            path
        }
        Label::HotCopy => Path::new("db/copy.bench"),
    }
}

// What stands behind the folder of prototype revision files in a name.
fn in_protos(name: &Name) -> Option<Name>
    ensures { IfSome result (λ entry. name.now ≡ codes "db/txn-protorevs/" ++ entry) }
{
    match name.as_str().strip_prefix("db/txn-protorevs/") {
        Some(entry) => Some(Name::new(entry)),
        None => None,
    }
}

/// The name that a file of a transaction has in the folder of prototype revision files. Of one that doesn't stand there it fails.
pub fn proto_entry(txn: &TxnName, file: &TxnFile) -> Result<Name, CallError>
    ensures { IfOk result (λ entry. txn_file_name txn.now file.now ≡ codes "db/txn-protorevs/" ++ entry) }
{
    match in_protos(&file.name(txn)) {
        Some(entry) => Ok(entry),
        None => Err(CallError::Failed),
    }
}
