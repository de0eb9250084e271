// The calls that were made, as text.
use crate::made::{MemCall, MemChange};
use fsfs_folders::Path;
use std::alloc::{AllocError, Global};

// A line of what was done and where.
fn tell_at(text: &mut String, done: &str, path: &Path) -> Result<(), AllocError> {
    let path = path.as_str();
    write!(text, "{done} {path}\n")
}

fn tell_change(text: &mut String, change: &MemChange) -> Result<(), AllocError> {
    match change {
        MemChange::MakeFolder(path) => tell_at(text, "make folder", path),
        MemChange::DropFolder(path) => tell_at(text, "drop folder", path),
        MemChange::Create(path) => tell_at(text, "create", path),
        MemChange::Take(path, _) => tell_at(text, "take", path),
        MemChange::Rename(from, to) => {
            let (from, to) = (from.as_str(), to.as_str());
            write!(text, "rename {from} {to}\n")
        }
        MemChange::Remove(path) => tell_at(text, "remove", path),
    }
}

fn tell_call(text: &mut String, call: &MemCall) -> Result<(), AllocError> {
    match call {
        MemCall::Named(change) => tell_change(text, change),
        MemCall::Append(number, bytes) => {
            let count = bytes.len();
            write!(text, "append {count} to {number}\n")
        }
        MemCall::SyncFile(number) => write!(text, "sync file {number}\n"),
        MemCall::FailSync(number) => write!(text, "fail to sync file {number}\n"),
        MemCall::SyncFolder(path) => tell_at(text, "sync folder", path),
        MemCall::Firmed => text.push_str("firmed\n"),
    }
}

/// A line for each of some calls, the last of them first.
pub fn tell(alloc: Global, calls: &[MemCall]) -> Result<String, AllocError> {
    let mut text = String::new(alloc);
    for call in calls.iter().rev() {
        tell_call(&mut text, call)?;
    }
    Ok(text)
}
