// A file that is written in a bench and then adopted.
ghost use Rattle.std.specs.Prelude.{◌≡◌, ◌≤◌, ◌++◌, ℕ, List, Some, None, false, length, IfSome, IfOk, IsTrue, OnOk, IsOk, IsErr, Err, IfErr, ◌⊎◌, option_map};
ghost use Rattle.std.specs.FinMap.{get, insert};
ghost use Rattle.fsfs_base.specs.Files.{Files};
ghost use Rattle.fsfs_base.specs.Failures.{Rose, HasCause};
ghost use Rattle.fsfs_disk.specs.Labels.{label_of, has_label};
ghost use Rattle.fsfs_disk.specs.Benches.{appended, bytes_on};
ghost use Rattle.fsfs_disk.specs.Trace.{Trace, files_now, file_at, labels_now};
ghost use Rattle.fsfs_disk.specs.Crash.{AllImages, Leaves, LeavesBoth, AreAll};
ghost use Rattle.fsfs_disk.specs.Published.{IsOldOrNew, IsOldOrThis, after_naming, EndsNaming, FailedBy};

use crate::{Bench, Disk, Label};
use fsfs_base::{Failed, Name};
use thiserror::Error;

/// Why a file wasn't published.
#[derive(Clone, Copy, Debug, Error)]
pub enum PublishFault {
    #[error("the disk failed")]
    Disk,
    #[error("the bench failed")]
    Bench,
}

// Adds two pieces to a file, and makes it firm.
fn fill<B: Bench>(bench: &mut B, file: &Name, first: &[u8], second: &[u8]) -> Result<(), Failed>
    ensures files { OnOk result (B.contents bench.new ≡ option_map (appended file.now (first.now ++ second.now)) (B.contents bench.old)) }
    ensures firm { OnOk result (B.firm_to bench.new file.now ≡ length (bytes_on (B.contents bench.new) file.now)) }
    ensures cause { HasCause (B.faults bench.old) (B.faults bench.new) result }
{
    bench.append(file, first)?;
    bench.append(file, second)?;
    bench.firm(file)
}

// Writes a file in a new bench, gives it its name on the disk, and makes that firm.
fn write_and_name<D: Disk>(
    disk: &mut D,
    bench: &mut D::Bench,
    file: &Name,
    to: &Name,
    first: &[u8],
    second: &[u8],
) -> Result<(), PublishFault>
    requires right { IsTrue (D.may_write disk.old) }
    requires new { IfSome (D.Bench.contents bench.old) (λ m. get m file.now ≡ None) }
    ensures right { D.may_write disk.new ≡ D.may_write disk.old }
    ensures mounted { D.mount_path disk.new ≡ D.mount_path disk.old }
    ensures named { OnOk result (D.trace disk.new ≡ option_map (after_naming to.now (first.now ++ second.now)) (D.trace disk.old)) }
    ensures ended { EndsNaming to.now (first.now ++ second.now) (D.trace disk.old) (D.trace disk.new) }
    ensures later { D.faults disk.old ≤ D.faults disk.new }
    ensures benches { D.bench_faults disk.new ≡ D.bench_faults disk.old }
    ensures failed { IfErr result (FailedBy (Rose (D.faults disk.old) (D.faults disk.new)) (Rose (D.Bench.faults bench.old) (D.Bench.faults bench.new))) }
{
    let Ok(()) = fill(bench, file, first, second) else {
        return Err(PublishFault::Bench);
    };
    let Ok(()) = disk.adopt(bench, file, to) else {
        return Err(PublishFault::Disk);
    };
    match disk.firm_names() {
        Ok(()) => Ok(()),
        Err(_) => Err(PublishFault::Disk),
    }
}

// The first fault of the two.
fn both(named: Result<(), PublishFault>, dropped: Result<bool, Failed>) -> Result<(), PublishFault>
    ensures ok { OnOk result (IsOk named × IsOk dropped) }
    ensures err { IfErr result (λ e. (named ≡ Err e) ⊎ (IsErr dropped × (e ≡ PublishFault.Disk))) }
{
    named?;
    match dropped {
        Ok(_) => Ok(()),
        Err(_) => Err(PublishFault::Disk),
    }
}

/// Puts a file of two pieces on the disk, through a bench of this label, under the name `file` there.
pub fn publish<D: Disk>(
    disk: &mut D,
    label: &Label,
    file: &Name,
    to: &Name,
    first: &[u8],
    second: &[u8],
) -> Result<(), PublishFault>
    requires { IsTrue (D.may_write disk.old) }
    ensures there { OnOk result (option_map files_now (D.trace disk.new) ≡ option_map (λ t. insert (files_now t) to.now (first.now ++ second.now)) (D.trace disk.old)) }
    // Every image from then on has it.
    ensures firm { OnOk result (AllImages (D.trace disk.new) (λ m. get m to.now ≡ Some (first.now ++ second.now))) }
    ensures dropped { OnOk result (IfSome (D.trace disk.new) (λ t. has_label (label_of label.now) (labels_now t) ≡ false)) }
    // Whatever is answered, and in the middle of each call: an image from before, as it was or with the file.
    ensures any_moment { Leaves (D.trace disk.old) (D.trace disk.new) (IsOldOrNew to.now (first.now ++ second.now) (D.trace disk.old)) }
    // And each label that is left then was kept before, or is this one.
    ensures labels { LeavesBoth (D.trace disk.old) (D.trace disk.new) (λ m ls. AreAll (IsOldOrThis (label_of label.now) (D.trace disk.old)) ls) }
    ensures failed { IfErr result (FailedBy (Rose (D.faults disk.old) (D.faults disk.new)) (Rose (D.bench_faults disk.old) (D.bench_faults disk.new))) }
    ensures later { D.faults disk.old ≤ D.faults disk.new }
    ensures right { D.may_write disk.new ≡ D.may_write disk.old }
    ensures mounted { D.mount_path disk.new ≡ D.mount_path disk.old }
{
    match disk.bench(label) {
        Err(_) => {
            let _ = disk.drop_bench(label, None);
            Err(PublishFault::Disk)
        }
        Ok(mut bench) => {
            let named = write_and_name(disk, &mut bench, file, to, first, second);
            let dropped = disk.drop_bench(label, Some(bench));
            both(named, dropped)
        }
    }
}
