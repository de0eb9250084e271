//! Laws on real disks: each image that a crash may leave of one is read as an image of the pure machine's disk, and the labels
//! that it keeps or a crash leaves as labels of the machine.
#![tactic(auto)]

mod laws;

pub use laws::{images_are_shown, labels_are_shown, machine_files_have_names};
