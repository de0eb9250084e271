// The files of one transaction or pack, which no other has.
ghost use Rattle.std.specs.Prelude.{◌≡◌, ◌≢◌, ◌≤◌, ℕ, List, Option, length, option_map, IfOk, IfSome, OnOk, OnErr};
ghost use Rattle.std.specs.FinMap.{get};
ghost use Rattle.fsfs_base.specs.Files.{Files};
ghost use Rattle.fsfs_base.specs.Failures.{HasCause};
ghost use Rattle.fsfs_disk.specs.Benches.{appended, written, removed, bytes_on, Spoils, HasShortFiles};
ghost use Rattle.fsfs_disk.specs.Trace.{IsRead, IsSize, IsThere};

use fsfs_base::{Failed, Name};

/// The files of one transaction, pack or copy, by name, made by a disk under a label. It is owned by one, so its calls
/// take no turn. What it holds is in no claim after a crash.
///
/// A failed call that changes a file leaves that file with any bytes, or without, and all others as they were.
/// No file grows longer than 2^62 bytes: a call that would pass that fails.
pub trait Bench {
    /// Its files; none where it doesn't tell.
    ghost contents: { Self → Option Files };

    /// The length up to which a file is firm. It is 0 where there is no such file.
    ghost firm_to: { Self → List ℕ → ℕ };

    /// How often it has failed. The count stops at the last number of a u64.
    ghost faults: { Self → ℕ };

    /// Adds bytes at the end of a file. One that isn't there begins with them.
    fn append(&mut self, file: &Name, bytes: &[u8]) -> Result<(), Failed>
        ensures ok { OnOk result (contents self.new ≡ option_map (appended file.now bytes.now) (contents self.old)) }
        ensures err { OnErr result (Spoils file.now (contents self.old) (contents self.new)) }
        ensures firm { OnOk result (firm_to self.new file.now ≡ firm_to self.old file.now) }
        ensures others { (q : List ℕ) → q ≢ file.now → firm_to self.new q ≡ firm_to self.old q }
        ensures cause { HasCause (faults self.old) (faults self.new) result };

    /// Makes a new file of these bytes, in place of the one that has the name.
    fn write(&mut self, file: &Name, bytes: &[u8]) -> Result<(), Failed>
        ensures ok { OnOk result (contents self.new ≡ option_map (written file.now bytes.now) (contents self.old)) }
        ensures err { OnErr result (Spoils file.now (contents self.old) (contents self.new)) }
        ensures firm { OnOk result (firm_to self.new file.now ≡ 0) }
        ensures others { (q : List ℕ) → q ≢ file.now → firm_to self.new q ≡ firm_to self.old q }
        ensures cause { HasCause (faults self.old) (faults self.new) result };

    /// Fills the buffer from an offset on, as far as the file goes, and answers how many bytes that is: fewer than the
    /// buffer's length only at the file's end, none past it. `None`: there is no such file.
    fn read(&mut self, file: &Name, offset: u64, buffer: &mut [u8]) -> Result<Option<usize>, Failed>
        ensures bound { IfOk result (λ found. IfSome found (λ n. n ≤ length buffer.new)) }
        ensures bytes { IfSome (contents self.old) (λ m. IfOk result (IsRead (get m file.now) offset buffer.old buffer.new)) }
        ensures same { contents self.new ≡ contents self.old }
        ensures firm { firm_to self.new ≡ firm_to self.old }
        ensures cause { HasCause (faults self.old) (faults self.new) result };

    /// The length of a file in bytes. `None`: there is no such file.
    fn len(&mut self, file: &Name) -> Result<Option<u64>, Failed>
        ensures length { IfSome (contents self.old) (λ m. IfOk result (IsSize (get m file.now))) }
        ensures same { contents self.new ≡ contents self.old }
        ensures firm { firm_to self.new ≡ firm_to self.old }
        ensures cause { HasCause (faults self.old) (faults self.new) result };

    /// Makes the bytes of a file firm, so that a disk can adopt it.
    fn firm(&mut self, file: &Name) -> Result<(), Failed>
        ensures ok { OnOk result (contents self.new ≡ contents self.old) }
        ensures err { OnErr result (Spoils file.now (contents self.old) (contents self.new)) }
        ensures firm { OnOk result (firm_to self.new file.now ≡ length (bytes_on (contents self.old) file.now)) }
        ensures others { (q : List ℕ) → q ≢ file.now → firm_to self.new q ≡ firm_to self.old q }
        ensures cause { HasCause (faults self.old) (faults self.new) result };

    /// Takes a file away. `false`: there is no such file.
    fn remove(&mut self, file: &Name) -> Result<bool, Failed>
        ensures there { IfSome (contents self.old) (λ m. IfOk result (IsThere (get m file.now))) }
        ensures ok { OnOk result (contents self.new ≡ option_map (removed file.now) (contents self.old)) }
        ensures err { OnErr result (Spoils file.now (contents self.old) (contents self.new)) }
        ensures firm { OnOk result (firm_to self.new file.now ≡ 0) }
        ensures others { (q : List ℕ) → q ≢ file.now → firm_to self.new q ≡ firm_to self.old q }
        ensures cause { HasCause (faults self.old) (faults self.new) result };

    /// No file is longer than 2^62 bytes.
    ghost short: { (bench : Self) → IfSome (contents bench) HasShortFiles };
}
