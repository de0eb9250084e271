//! What a disk holds, in the words of the machine.
ghost use Rattle.std.specs.Prelude.{◌≡◌, take, drop, length, IfOk};

use fsfs_base::Pairs;
use fsfs_tree::{ChangeMap, Tree};
use std::alloc::{AllocError, Global};
use std::marker::Model;

/// The bytes of a revision file.
#[derive(Drop)]
pub struct Bytes {
    bytes: Vec<u8>,
}

impl Model for Bytes {
    ghost use Rattle.std.specs.Prelude.{List, ℕ};

    ghost Value = { List ℕ };

    ghost view = { λ a. a.bytes.items };
}

impl Bytes {
    pub fn new(bytes: Vec<u8>) -> Bytes
        ensures { result ≡ bytes.items }
    {
        Bytes { bytes }
    }

    pub fn as_slice(&self) -> &[u8]
        ensures { result.now ≡ self.now }
    {
        &self.bytes
    }

    /// So many bytes from an offset on, as far as there are any.
    pub fn range(&self, alloc: Global, offset: u64, length: u64) -> Result<Bytes, AllocError>
        ensures { IfOk result (λ b. b ≡ take length (drop offset self.now)) }
    {
        let rest = from_offset(&self.bytes, offset as usize);
        let some = up_to(rest, length as usize);
        Ok(Bytes {
            bytes: Vec::from_slice(alloc, some)?,
        })
    }

    /// How many there are.
    pub fn count(&self) -> usize
        ensures { result ≡ length self.now }
    {
        self.bytes.len()
    }

    pub fn copy(&self, alloc: Global) -> Result<Bytes, AllocError>
        ensures { IfOk result (λ b. b ≡ self.now) }
    {
        Ok(Bytes {
            bytes: Vec::from_slice(alloc, &self.bytes)?,
        })
    }
}

fn from_offset(bytes: &[u8], offset: usize) -> &[u8]
    ensures { result.now ≡ drop offset bytes.now }
{
    &bytes[offset.min(bytes.len())..]
}

fn up_to(bytes: &[u8], length: usize) -> &[u8]
    ensures { result.now ≡ take length bytes.now }
{
    &bytes[..length.min(bytes.len())]
}

/// The names of files that the machine speaks of.
#[derive(Clone, Copy, Drop)]
pub enum FileName {
    /// `current`.
    Current,
    /// The file that is renamed to `current`.
    CurrentNext,
    /// `txn-current`, the number of the next transaction's name.
    Counter,
    /// The file that is renamed to `txn-current`.
    CounterNext,
    /// `min-unpacked-rev`: revisions below this number are in packs.
    Floor,
    /// The file that is renamed to `min-unpacked-rev`.
    FloorNext,
    /// A revision file.
    Rev(u64),
    /// A revision's property file.
    Props(u64),
    /// The pack of a shard.
    Pack(u128),
    /// Where each revision begins in the pack of its shard.
    Manifest(u128),
}

/// One revision in a pack, by what its bytes show; and these bytes.
pub struct Part {
    pub tree: Tree,
    pub changes: ChangeMap,
    pub bytes: Bytes,
}

impl Drop for Part {
    fn drop(self) {
        let Part {
            tree: _tree,
            changes: _changes,
            bytes: _bytes,
        } = self;
    }
}

impl Part {
    pub fn copy(&self, alloc: Global) -> Result<Part, AllocError>
        ensures { IfOk result (λ x. x ≡ self.now) }
    {
        Ok(Part {
            tree: self.tree.clone()?,
            changes: self.changes.clone()?,
            bytes: self.bytes.copy(alloc)?,
        })
    }
}

/// The revisions in a pack.
#[derive(Drop)]
pub struct Parts {
    pub parts: Vec<Part>,
}

impl Model for Parts {
    ghost use Rattle.std.specs.Prelude.{List};
    ghost use Rattle.fsfs_machine.specs.declared.contents.Part.{Part};
    ghost use Rattle.fsfs_machine.specs.Codes.{coded_parts};

    ghost Value = { List Part };

    ghost coded = { coded_parts };

    ghost view = { λ a. a.parts.items };
}

impl Parts {
    pub fn copy(&self, alloc: Global) -> Result<Parts, AllocError>
        ensures { IfOk result (λ xs. xs ≡ self.now) }
    {
        let mut parts = Vec::new(alloc);
        for part in &self.parts {
            parts.push(part.copy(alloc)?)?;
        }
        Ok(Parts { parts })
    }
}

/// Where the revisions of a shard begin in its pack.
#[derive(Drop)]
pub struct Offsets {
    pub offsets: Vec<u128>,
}

impl Model for Offsets {
    ghost use Rattle.std.specs.Prelude.{List, ℕ};

    ghost Value = { List ℕ };

    ghost view = { λ a. a.offsets.items };
}

impl Offsets {
    pub fn copy(&self, alloc: Global) -> Result<Offsets, AllocError>
        ensures { IfOk result (λ os. os ≡ self.now) }
    {
        Ok(Offsets {
            offsets: Vec::from_slice(alloc, &self.offsets)?,
        })
    }
}

/// What a file holds.
pub enum Contents {
    /// A revision file, by what it shows: the revision's tree and its changed paths; and its bytes.
    RevFile(Tree, ChangeMap, Bytes),
    /// A revision's properties.
    PropsFile(Pairs),
    /// A number: of a revision, or of the name of a transaction.
    Number(u128),
    /// A pack that is read by these offsets: the revisions in it.
    PackFile(Offsets, Parts),
    ManifestFile(Offsets),
    /// Anything else; nothing is claimed of it.
    Junk,
}

impl Drop for Contents {
    fn drop(self) {
        match self {
            Contents::RevFile(_tree, _changes, _bytes) => {}
            Contents::PropsFile(_properties) => {}
            Contents::PackFile(_offsets, _parts) => {}
            Contents::ManifestFile(_offsets) => {}
            Contents::Number(_) | Contents::Junk => {}
        }
    }
}

impl Contents {
    pub fn copy(&self, alloc: Global) -> Result<Contents, AllocError>
        ensures { IfOk result (λ c. c ≡ self.now) }
    {
        match self {
            Contents::RevFile(tree, changes, bytes) => Ok(Contents::RevFile(
                tree.clone()?,
                changes.clone()?,
                bytes.copy(alloc)?,
            )),
            Contents::PropsFile(properties) => Ok(Contents::PropsFile(properties.clone()?)),
            Contents::PackFile(offsets, parts) => {
                Ok(Contents::PackFile(offsets.copy(alloc)?, parts.copy(alloc)?))
            }
            Contents::ManifestFile(offsets) => Ok(Contents::ManifestFile(offsets.copy(alloc)?)),
            Contents::Number(n) => Ok(Contents::Number(*n)),
            Contents::Junk => Ok(Contents::Junk),
        }
    }
}

/// A change of names. A rename carries the file that it moves; `Firm` makes every change before it firm.
#[derive(Drop)]
pub enum NameChange {
    Put(FileName, Contents),
    Rename(FileName, FileName, Contents),
    Remove(FileName),
    Firm,
}
