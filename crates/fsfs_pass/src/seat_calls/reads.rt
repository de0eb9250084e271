//! Reads.
ghost use Rattle.std.specs.Prelude.{◌≡◌, ◌≤◌, ◌^◌, ◌<◌, [], List, ℕ, true, length, is_err, Some, IfOk, IfSome, slice_get};
ghost use Rattle.std.specs.FinMap.{get};
ghost use Rattle.fsfs_base.specs.Failures.{HasCause};
ghost use Rattle.fsfs_layout.specs.FileNames.{only_name};
ghost use Rattle.fsfs_layout.specs.Small.{IsRevLine};
ghost use Rattle.fsfs_layout.specs.declared.only_file.OnlyFile.TheVariants.{MinUnpackedRev};
ghost use Rattle.fsfs_layout.specs.Hash.Dump.{IsDump};
ghost use Rattle.fsfs_fetch.specs.Views.{Later};
ghost use Rattle.fsfs_disk.specs.Trace.{IsRead, IsSize};
ghost use Rattle.fsfs_machine.specs.declared.machine.Recorded.{Recorded};
ghost use Rattle.fsfs_machine.specs.declared.machine.Went.{Went};
ghost use Rattle.fsfs_turn.specs.Past.{IsWhole};
ghost use Rattle.fsfs_turn.specs.Views.{props_name, Answers};
ghost use Rattle.fsfs_turn.specs.Courses.{ReadOnly};
ghost use Rattle.fsfs_turn.specs.Learning.{PropsRead, FloorRead};
ghost use Rattle.fsfs_pass.specs.Seats.{view_of, IsSitting};
ghost use Rattle.fsfs_pass.specs.Met.{seat_store};
ghost use Rattle.fsfs_pass.specs.Tells.{TellsIt};
ghost use Rattle.fsfs_pass.specs.SeatCalls.Tells.{IsBack};

use crate::seat_calls::gives::give_read;
use crate::{Board, SharedSeat, take};
use fsfs_base::{Failed, Name};
use fsfs_disk::Disk;
use std::marker::Brand;
use std::sync::Wait;

/// Fills the buffer from an offset on, as far as the file goes. It gives the properties of a revision that the pass has seen, and the
/// floor, which is that of whole shards. `None`: there is no such file.
pub fn read<D: Disk + Drop, R: Wait>(
    rt: &R,
    board: &Board<D>,
    seat: &mut SharedSeat<D>,
    name: &Name,
    offset: u64,
    buffer: &mut [u8],
) -> Result<Option<usize>, Failed>
    requires table { (seat.old.table_id ≡ board.now.shared.table_id) × (board.now.shared.table_id.words ≡ 3) × (board.now.shared.table_id.slots ≡ 1) × (seat.old.me.1 ≡ []) }
    requires sits { IsSitting seat.old.me.0 }
    ensures same { (seat.new.table_id ≡ seat.old.table_id) × (seat.new.id ≡ seat.old.id) × (seat.new.me.1 ≡ []) }
    ensures back { IsBack (is_err result) seat.old.me.0 seat.new.me.0 }
    ensures tells { TellsIt seat.new.me.0 }
    ensures later { Later (seat_store seat.old.me.0) (seat_store seat.new.me.0) }
    ensures within { IfOk result (λ found. IfSome found (λ n. n ≤ length buffer.new)) }
    ensures bytes { IfSome (seat_store seat.new.me.0).files (λ m. IfOk result (IsRead (get m name.now) offset buffer.old buffer.new)) }
    ensures onward { seat.old.me.0.told ≡ true → ReadOnly (view_of seat.old.me.0) (view_of seat.new.me.0) }
    ensures properties { seat.old.me.0.told ≡ true → (r : ℕ) (x : Recorded) → slice_get seat.old.me.0.seen r ≡ Some x → r < 2 ^ 32 → name.now ≡ props_name (view_of seat.old.me.0) r
        → (went : Went) × (text : List ℕ) × Answers result went × PropsRead r x went (view_of seat.old.me.0) (view_of seat.new.me.0) × IsDump text x.revision.properties × IfOk result (IsRead (Some text) offset buffer.old buffer.new) }
    ensures floor { seat.old.me.0.told ≡ true → name.now ≡ only_name MinUnpackedRev
        → (went : Went) × (floor : ℕ) × (text : List ℕ) × Answers result went × FloorRead floor went (view_of seat.old.me.0) (view_of seat.new.me.0) × IsWhole seat.old.me.0.layout floor × IsRevLine text floor × IfOk result (IsRead (Some text) offset buffer.old buffer.new) }
    ensures cause { HasCause seat.old.me.0.failures seat.new.me.0.failures result }
{
    let mut disk = take(rt, board, seat);
    let answer = disk.read(name, offset, buffer);
    give_read::<Brand, D>(board, seat, disk, name);
    answer
}

/// The length of a file.
pub fn size<D: Disk + Drop, R: Wait>(
    rt: &R,
    board: &Board<D>,
    seat: &mut SharedSeat<D>,
    name: &Name,
) -> Result<Option<u64>, Failed>
    requires table { (seat.old.table_id ≡ board.now.shared.table_id) × (board.now.shared.table_id.words ≡ 3) × (board.now.shared.table_id.slots ≡ 1) × (seat.old.me.1 ≡ []) }
    requires sits { IsSitting seat.old.me.0 }
    ensures same { (seat.new.table_id ≡ seat.old.table_id) × (seat.new.id ≡ seat.old.id) × (seat.new.me.1 ≡ []) }
    ensures back { IsBack (is_err result) seat.old.me.0 seat.new.me.0 }
    ensures tells { TellsIt seat.new.me.0 }
    ensures later { Later (seat_store seat.old.me.0) (seat_store seat.new.me.0) }
    ensures length { IfSome (seat_store seat.new.me.0).files (λ m. IfOk result (IsSize (get m name.now))) }
    ensures onward { seat.old.me.0.told ≡ true → ReadOnly (view_of seat.old.me.0) (view_of seat.new.me.0) }
    ensures cause { HasCause seat.old.me.0.failures seat.new.me.0.failures result }
{
    let mut disk = take(rt, board, seat);
    let answer = disk.size(name);
    give_read::<Brand, D>(board, seat, disk, name);
    answer
}
