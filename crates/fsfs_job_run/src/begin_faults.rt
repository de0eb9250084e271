//! Why no transaction was begun, as the fault of a job.
ghost use Rattle.std.specs.Prelude.{◌≡◌};
ghost use Rattle.fsfs_job_run.specs.Faults.{fault_of_begin};

use fsfs_cli::{Fault, LimitFault, OutsideFault, RepositoryFault, RequestFault};
use fsfs_repo::BeginFault;

/// The fault of a job whose transaction was not begun.
pub fn of_begin(fault: BeginFault) -> Fault
    ensures { result ≡ fault_of_begin fault }
{
    match fault {
        BeginFault::NoRev { asked, youngest } => Fault::Request(RequestFault::NoRev {
            asked: asked.get() as u64,
            youngest,
        }),
        BeginFault::Stuck(place) => Fault::Outside(OutsideFault::Stuck(place)),
        BeginFault::Small(small) => Fault::Repository(RepositoryFault::Small(small)),
        BeginFault::NamesFull => Fault::Limit(LimitFault::NamesFull),
        BeginFault::Wrong(wrong) => Fault::from(wrong),
        BeginFault::DiskFault(place) => Fault::Outside(OutsideFault::Disk(place)),
        BeginFault::BenchFault => Fault::Outside(OutsideFault::Bench),
        BeginFault::Memory => Fault::Memory,
    }
}
