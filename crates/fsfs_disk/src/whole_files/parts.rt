//! What a file is read through, a part at a time.
ghost use Rattle.std.specs.Prelude.{◌≡◌, ◌≤◌, ℕ, List, Option, length, IfOk, IfSome};
ghost use Rattle.fsfs_base.specs.Failures.{HasCause};
ghost use Rattle.fsfs_disk.specs.Trace.{IsRead};

use fsfs_base::{Failed, Name};

/// What gives parts of files. It may tell of a file what it is, and what it tells stays true.
pub trait Parts {
    /// That the file with this name is this one, or with `None` that there is none.
    ghost tells: { Self → List ℕ → Option (List ℕ) → Type 0 };

    /// What may have become of it after some calls.
    ghost later: { Self → Self → Type 0 };

    /// How often it has failed. The count stops at the last number of a u64.
    ghost faults: { Self → ℕ };

    /// Fills the buffer from an offset on, as far as the file goes, and answers how many bytes that is: fewer than the
    /// buffer's length only at the file's end, none past it. `None`: there is no such file.
    fn read_part(
        &mut self,
        name: &Name,
        offset: u64,
        buffer: &mut [u8],
    ) -> Result<Option<usize>, Failed>
        ensures bound { IfOk result (λ found. IfSome found (λ n. n ≤ length buffer.new)) }
        ensures bytes { (file : Option (List ℕ)) → tells self.old name.now file → IfOk result (IsRead file offset buffer.old buffer.new) }
        ensures later { later self.old self.new }
        ensures cause { HasCause (faults self.old) (faults self.new) result };

    /// Calls follow one another, and what was told is told after them.
    ghost same: { (a : Self) → later a a };

    ghost more: { (a b c : Self) → later a b → later b c → later a c };

    ghost stays: { (a b : Self) (name : List ℕ) (file : Option (List ℕ)) → later a b → tells a name file → tells b name file };
}
