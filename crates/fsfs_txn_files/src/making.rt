//! Changes made in a bench. They take no memory.
ghost use Rattle.std.specs.Prelude.{◌≡◌, option_map, IfErr, OnOk, OnErr};
ghost use Rattle.fsfs_base.specs.Failures.{HasCause};
ghost use Rattle.fsfs_disk.specs.Benches.{Spoils};
ghost use Rattle.fsfs_txn_files.specs.Changes.{with_text, changed, changed_all, IsStopped, IsStoppedAt};

use crate::change::{FileChange, How};
use crate::write_error::FileFault;
use fsfs_base::{Failed, Name};
use fsfs_disk::Bench;

// Puts a text in place of what the file has, or behind it.
fn put<B: Bench>(bench: &mut B, how: How, name: &Name, text: &[u8]) -> Result<(), Failed>
    ensures done { OnOk result (B.contents bench.new ≡ option_map (with_text how name.now text.now) (B.contents bench.old)) }
    ensures failed { OnErr result (Spoils name.now (B.contents bench.old) (B.contents bench.new)) }
    ensures cause { HasCause (B.faults bench.old) (B.faults bench.new) result }
{
    match how {
        How::Whole => bench.write(name, text),
        How::AtEnd => bench.append(name, text),
    }
}

impl FileChange {
    /// Makes the change. The bench has all other files as before; where it fails, nothing is known of this one.
    pub fn make<B: Bench>(&self, bench: &mut B) -> Result<(), FileFault>
        ensures done { OnOk result (B.contents bench.new ≡ option_map (changed self.now) (B.contents bench.old)) }
        ensures failed { IfErr result (IsStoppedAt self.now.file (B.contents bench.old) (B.contents bench.new)) }
        ensures cause { HasCause (B.faults bench.old) (B.faults bench.new) result }
    {
        match put(bench, self.how, &self.file.name(), self.text.as_slice()) {
            Ok(()) => Ok(()),
            Err(_) => Err(FileFault { file: self.file }),
        }
    }
}

/// Makes changes one after another. The first that fails is the last that is tried.
pub fn make_all<B: Bench>(bench: &mut B, changes: &[FileChange]) -> Result<(), FileFault>
    ensures done { OnOk result (B.contents bench.new ≡ option_map (changed_all changes.now) (B.contents bench.old)) }
    ensures failed { IfErr result (IsStopped changes.now (B.contents bench.old) (B.contents bench.new)) }
    ensures cause { HasCause (B.faults bench.old) (B.faults bench.new) result }
{
    for change in changes {
        change.make(bench)?;
    }
    Ok(())
}
