// Files that a line of an example puts on a disk in memory.
use crate::escapes::bytes_of;
use crate::memdisk::disk::MemDisk;
use crate::transcript::Transcript;
use crate::words::cut;
use fsfs_base::{Failed, Name};
use fsfs_disk::Disk;
use std::alloc::Global;

/// The name of a file that a word is.
pub fn file_of(word: &str) -> Option<Name> {
    if word.len() > 128 {
        return None;
    }
    Some(Name::new(word))
}

fn put_firm(disk: &mut MemDisk, name: &Name, bytes: &[u8]) -> Result<(), Failed> {
    disk.put(name, bytes)?;
    disk.firm_names()
}

/// `NAME BYTES`: puts the file, and makes its name firm. Whether that was done; else why not is told.
pub fn put_file(alloc: Global, disk: &mut MemDisk, rest: &str, out: &mut Transcript) -> bool {
    let (name, text) = cut(rest);
    let (Some(name), Ok(bytes)) = (file_of(name), bytes_of(alloc, text)) else {
        out.say("? no file");
        return false;
    };
    let done = put_firm(disk, &name, &bytes).is_ok();
    if !done {
        out.say("failed");
    }
    done
}
