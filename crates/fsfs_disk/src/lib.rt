//! What the store asks of the outside where files are kept: a disk, its benches, and the host that has disks; and what a crash
//! may leave.
//! A disk that tells nothing of its files, over any disk.
//! One caller of the whole outside: a file that is written in a bench, adopted, and made firm.
//! The disk that goes from pass to pass.
//! Files read as a whole, through anything that gives parts of files.
//! The transactions of a repository: which there are, and their removal.
#![tactic(auto)]

mod access;
mod bench;
mod disk;
mod host;
mod label;
mod publishing;
mod quiet;
mod shared_disk;
mod transactions;
mod whole_files;

pub use access::Access;
pub use bench::Bench;
pub use disk::{Disk, ListFault};
pub use host::{Host, MountFault};
pub use label::Label;
pub use publishing::{PublishFault, publish};
pub use quiet::bench::QuietBench;
pub use quiet::disk::QuietDisk;
pub use shared_disk::SharedDisk;
pub use transactions::listing::{txns, txns_among};
pub use transactions::removing::{RemovalFault, rmtxn, rmtxns};
pub use whole_files::disk_parts::read_disk_file;
pub use whole_files::file_fault::FileFault;
pub use whole_files::parts::Parts;
pub use whole_files::whole_file::read_file;
