// The words of a line.
use anyhow::{Result, bail};
use fsfs_base::{FsPath, RevNum};
use fsfs_core::{BeginPlace, CommitPlace, Contents, DiskPlace, PackPlace, Went};
use fsfs_memory::cut;
use std::alloc::{AllocError, Global};

/// The words that are left of a line, with a space between each two. Where one is not what it is read as, something stands in
/// its place, and the end says so.
#[derive(Clone, Copy)]
pub struct Words<'a> {
    rest: &'a str,
    is_right: bool,
}

// Which are picked, a digit for each: `1` if it is.
fn picks_of(alloc: Global, digits: &str) -> Result<Vec<bool>, AllocError> {
    let mut picks = Vec::new(alloc);
    for digit in digits.as_bytes() {
        picks.push(*digit == b'1')?;
    }
    Ok(picks)
}

impl<'a> Words<'a> {
    pub fn new(line: &'a str) -> Words<'a> {
        Words {
            rest: line,
            is_right: true,
        }
    }

    /// The next word; an empty one where none is left.
    pub fn word(&mut self) -> &'a str {
        let (word, rest) = cut(self.rest);
        self.rest = rest;
        word
    }

    /// The last word is none that is known.
    pub fn refuse(&mut self) {
        self.is_right = false;
    }

    pub fn number(&mut self) -> u64 {
        match self.word().parse::<u64>() {
            Ok(number) => number,
            Err(_) => {
                self.is_right = false;
                0
            }
        }
    }

    /// A revision; the word `youngest` means this one.
    pub fn revision(&mut self, youngest: u64) -> RevNum {
        let number = match self.word() {
            "youngest" => youngest,
            word => word.parse::<u64>().unwrap_or(u64::MAX),
        };
        match RevNum::new(number) {
            Some(rev) => rev,
            None => {
                self.is_right = false;
                RevNum::ZERO
            }
        }
    }

    pub fn path(&mut self, alloc: Global) -> FsPath {
        match FsPath::parse(alloc, self.word()) {
            Ok(path) => path,
            Err(_) => {
                self.is_right = false;
                FsPath::root(alloc)
            }
        }
    }

    pub fn bytes(&mut self, alloc: Global) -> Vec<u8> {
        match Vec::from_slice(alloc, self.word().as_bytes()) {
            Ok(bytes) => bytes,
            Err(_) => {
                self.is_right = false;
                Vec::new(alloc)
            }
        }
    }

    pub fn place(&mut self) -> DiskPlace {
        match self.word() {
            "TxnPut" => DiskPlace::Begin(BeginPlace::Put),
            "TxnRename" => DiskPlace::Begin(BeginPlace::Rename),
            "TxnFirm" => DiskPlace::Begin(BeginPlace::Firm),
            "PutProps" => DiskPlace::Commit(CommitPlace::PutProps),
            "FirmRev" => DiskPlace::Commit(CommitPlace::FirmRev),
            "PutCurrent" => DiskPlace::Commit(CommitPlace::PutCurrent),
            "RenameCurrent" => DiskPlace::Commit(CommitPlace::RenameCurrent),
            "FirmCurrent" => DiskPlace::Commit(CommitPlace::FirmCurrent),
            "AdoptPack" => DiskPlace::Pack(PackPlace::AdoptPack),
            "AdoptManifest" => DiskPlace::Pack(PackPlace::AdoptManifest),
            "FirmPack" => DiskPlace::Pack(PackPlace::FirmPack),
            "PutFloor" => DiskPlace::Pack(PackPlace::PutFloor),
            "RenameFloor" => DiskPlace::Pack(PackPlace::RenameFloor),
            "FirmFloor" => DiskPlace::Pack(PackPlace::FirmFloor),
            _ => {
                self.is_right = false;
                DiskPlace::Begin(BeginPlace::Put)
            }
        }
    }

    /// How a call of the disk goes: well, if the line ends here; else it fails before it did anything, after it did all, or
    /// when it had written something else.
    pub fn went(&mut self) -> Went {
        match self.word() {
            "" => Went::Fine,
            "before" => Went::Before,
            "after" => Went::After,
            "torn" => Went::Torn(Contents::Junk),
            _ => {
                self.is_right = false;
                Went::Fine
            }
        }
    }

    /// Which are picked, a digit for each: `1` if it is.
    pub fn picks(&mut self, alloc: Global) -> Vec<bool> {
        match picks_of(alloc, self.word()) {
            Ok(picks) => picks,
            Err(_) => {
                self.is_right = false;
                Vec::new(alloc)
            }
        }
    }

    /// The line ends here, and each of its words is what it was read as.
    pub fn end(self) -> Result<()> {
        if !self.is_right || !self.rest.is_empty() {
            bail!("no line that can be understood");
        }
        Ok(())
    }
}
