//! What a store of revisions is read through.
ghost use Rattle.std.specs.Prelude.{◌≡◌, ◌≤◌, ◌<◌, ℕ, List, Option, length, IfOk, IfSome};
ghost use Rattle.std.specs.FinMap.{get};
ghost use Rattle.fsfs_base.specs.Failures.{HasCause};
ghost use Rattle.fsfs_disk.specs.Benches.{HasShortFiles};
ghost use Rattle.fsfs_disk.specs.Trace.{IsRead, IsSize};
ghost use Rattle.fsfs_fetch.specs.Views.{View, Later, IsYoungest};
ghost use Rattle.fsfs_fetch.specs.Props.{MeetsNoMore, Met};

use fsfs_base::{Failed, Name, RevNum};
use fsfs_layout::Layout;

/// A store of revisions that is read: the files of a repository, of which others may make more, and pack some, between
/// two calls. Each call meets the files of one moment.
pub trait Reads {
    /// What can be said of what is below it, as a disk.
    ghost Below: { Type 0 };

    /// What it tells: its layout, which revisions there are, its files as the last call met them, and what is below it, which no call
    /// changes.
    ghost view: { Self → View Below };

    /// What the property file of a revision may be when it is looked at: a text, or absent. Others may set its properties
    /// between two looks, so this may be one text or several.
    ghost may_meet: { Self → ℕ → Option (List ℕ) → Type 0 };

    /// How often it has failed. The count stops at the last number of a u64.
    ghost faults: { Self → ℕ };

    /// How its files are laid out.
    fn layout(&self) -> Layout
        ensures { result ≡ (view self.now).layout };

    /// The youngest revision.
    fn youngest(&mut self) -> RevNum
        ensures youngest { IsYoungest (view self.new).reach result }
        ensures fewer { MeetsNoMore (may_meet self.old) (may_meet self.new) }
        ensures later { Later (view self.old) (view self.new) }
        ensures faults { faults self.old ≤ faults self.new };

    /// Fills the buffer from an offset on, as far as the file goes, and answers how many bytes that is: fewer than the
    /// buffer's length only at the file's end, none past it. `None`: there is no such file.
    fn read(&mut self, name: &Name, offset: u64, buffer: &mut [u8]) -> Result<Option<usize>, Failed>
        ensures bound { IfOk result (λ found. IfSome found (λ n. n ≤ length buffer.new)) }
        ensures bytes { IfSome (view self.new).files (λ m. IfOk result (IsRead (get m name.now) offset buffer.old buffer.new)) }
        ensures later { Later (view self.old) (view self.new) }
        ensures cause { HasCause (faults self.old) (faults self.new) result };

    /// Fills the buffer from the beginning of the property file of a revision, as far as the file goes, in one look at it, and
    /// answers how many bytes that is: fewer than the buffer's length only where that is the whole file. `None`: there is no
    /// such file.
    fn read_props(&mut self, rev: RevNum, buffer: &mut [u8]) -> Result<Option<usize>, Failed>
        ensures bound { IfOk result (λ found. IfSome found (λ n. n ≤ length buffer.new)) }
        ensures met { IfOk result (Met (may_meet self.old rev) buffer.old buffer.new) }
        ensures fewer { MeetsNoMore (may_meet self.old) (may_meet self.new) }
        ensures later { Later (view self.old) (view self.new) }
        ensures cause { HasCause (faults self.old) (faults self.new) result };

    /// The length of a file in bytes. `None`: there is no such file.
    fn size(&mut self, name: &Name) -> Result<Option<u64>, Failed>
        ensures length { IfSome (view self.new).files (λ m. IfOk result (IsSize (get m name.now))) }
        ensures later { Later (view self.old) (view self.new) }
        ensures cause { HasCause (faults self.old) (faults self.new) result };

    /// No file is longer than 2^62 bytes.
    ghost short: { (reads : Self) → IfSome (view reads).files HasShortFiles };
}
