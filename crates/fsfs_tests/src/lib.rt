//! Tests of the disk in memory, of the quiet disk, and of reading over a disk.
//! Tests of the gates that hold threads.
//! Tests of the bare calls of the system, over a folder of the machine and in memory: each call once, and each refusal.
#![tactic(auto)]

#[cfg(test)]
mod each_call;
#[cfg(test)]
mod fetch;
#[cfg(test)]
mod hold_gate;
#[cfg(test)]
mod hostcalls;
#[cfg(test)]
mod memcalls;
#[cfg(test)]
mod memdisk;
#[cfg(test)]
mod quiet_disk;
