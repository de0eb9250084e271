//! The calls of a section.
ghost use Rattle.std.specs.Prelude.{◌≡◌, ◌≢◌, ◌⊎◌, ℕ, List, [], true, is_err, option_map, OnOk, OnErr};
ghost use Rattle.fsfs_base.specs.Failures.{HasCause};
ghost use Rattle.fsfs_fetch.specs.Views.{Later};
ghost use Rattle.fsfs_disk.specs.Benches.{removed, bytes_on, IsFirmFile};
ghost use Rattle.fsfs_disk.specs.Trace.{Put, Adopt, Rename, FirmNames};
ghost use Rattle.fsfs_base.specs.declared.places.place.DiskPlace.{DiskPlace};
ghost use Rattle.fsfs_machine.specs.declared.machine.Went.{Went};
ghost use Rattle.fsfs_turn.specs.Views.{IsDue, Answers, Called};
ghost use Rattle.fsfs_turn.specs.Adoptions.{NeedsFolder};
ghost use Rattle.fsfs_pass.specs.declared.seats.seat_view.Hand.TheVariants.{Empty};
ghost use Rattle.fsfs_pass.specs.Seats.{view_of, IsSitting};
ghost use Rattle.fsfs_pass.specs.Met.{seat_store};
ghost use Rattle.fsfs_pass.specs.Tells.{TellsIt};
ghost use Rattle.fsfs_pass.specs.SeatCalls.Tells.{IsBack, Unmade};

use crate::seat_calls::gives::{give_called, give_unmade};
use crate::seats::table::give_back;
use crate::{Board, SharedSeat, take};
use fsfs_base::{Failed, Name};
use fsfs_disk::{Bench, Disk};
use std::sync::Wait;

/// Makes a new file, firm, and gives it the name: it is due.
pub fn put<D: Disk + Drop, R: Wait>(
    rt: &R,
    board: &Board<D>,
    seat: &mut SharedSeat<D>,
    name: &Name,
    bytes: &[u8],
) -> Result<(), Failed>
    requires table { (seat.old.table_id ≡ board.now.shared.table_id) × (board.now.shared.table_id.words ≡ 3) × (board.now.shared.table_id.slots ≡ 1) × (seat.old.me.1 ≡ []) }
    requires sits { IsSitting seat.old.me.0 }
    requires due { seat.old.me.0.told ≡ true → (place : DiskPlace) × IsDue (view_of seat.old.me.0) place (Put name.now bytes.now) }
    ensures same { (seat.new.table_id ≡ seat.old.table_id) × (seat.new.id ≡ seat.old.id) × (seat.new.me.1 ≡ []) }
    ensures back { IsBack (is_err result) seat.old.me.0 seat.new.me.0 }
    ensures tells { TellsIt seat.new.me.0 }
    ensures later { Later (seat_store seat.old.me.0) (seat_store seat.new.me.0) }
    ensures called { seat.old.me.0.told ≡ true → (place : DiskPlace) → IsDue (view_of seat.old.me.0) place (Put name.now bytes.now) → (went : Went) × Answers result went × Called place went (view_of seat.old.me.0) (view_of seat.new.me.0) }
    ensures cause { HasCause seat.old.me.0.failures seat.new.me.0.failures result }
{
    let mut disk = take(rt, board, seat);
    let answer = disk.put(name, bytes);
    give_called(board, seat, disk);
    answer
}

/// Gives a file another name: it is due.
pub fn rename<D: Disk + Drop, R: Wait>(
    rt: &R,
    board: &Board<D>,
    seat: &mut SharedSeat<D>,
    from: &Name,
    to: &Name,
) -> Result<(), Failed>
    requires table { (seat.old.table_id ≡ board.now.shared.table_id) × (board.now.shared.table_id.words ≡ 3) × (board.now.shared.table_id.slots ≡ 1) × (seat.old.me.1 ≡ []) }
    requires sits { IsSitting seat.old.me.0 }
    requires due { seat.old.me.0.told ≡ true → (place : DiskPlace) × IsDue (view_of seat.old.me.0) place (Rename from.now to.now) }
    ensures same { (seat.new.table_id ≡ seat.old.table_id) × (seat.new.id ≡ seat.old.id) × (seat.new.me.1 ≡ []) }
    ensures back { IsBack (is_err result) seat.old.me.0 seat.new.me.0 }
    ensures tells { TellsIt seat.new.me.0 }
    ensures later { Later (seat_store seat.old.me.0) (seat_store seat.new.me.0) }
    ensures called { seat.old.me.0.told ≡ true → (place : DiskPlace) → IsDue (view_of seat.old.me.0) place (Rename from.now to.now) → (went : Went) × Answers result went × Called place went (view_of seat.old.me.0) (view_of seat.new.me.0) }
    ensures cause { HasCause seat.old.me.0.failures seat.new.me.0.failures result }
{
    let mut disk = take(rt, board, seat);
    let answer = disk.rename(from, to);
    give_called(board, seat, disk);
    answer
}

/// Makes all changes of names firm: it is due.
pub fn firm_names<D: Disk + Drop, R: Wait>(
    rt: &R,
    board: &Board<D>,
    seat: &mut SharedSeat<D>,
) -> Result<(), Failed>
    requires table { (seat.old.table_id ≡ board.now.shared.table_id) × (board.now.shared.table_id.words ≡ 3) × (board.now.shared.table_id.slots ≡ 1) × (seat.old.me.1 ≡ []) }
    requires sits { IsSitting seat.old.me.0 }
    requires due { seat.old.me.0.told ≡ true → (place : DiskPlace) × IsDue (view_of seat.old.me.0) place FirmNames }
    ensures same { (seat.new.table_id ≡ seat.old.table_id) × (seat.new.id ≡ seat.old.id) × (seat.new.me.1 ≡ []) }
    ensures back { IsBack (is_err result) seat.old.me.0 seat.new.me.0 }
    ensures tells { TellsIt seat.new.me.0 }
    ensures later { Later (seat_store seat.old.me.0) (seat_store seat.new.me.0) }
    ensures called { seat.old.me.0.told ≡ true → (place : DiskPlace) → IsDue (view_of seat.old.me.0) place FirmNames → (went : Went) × Answers result went × Called place went (view_of seat.old.me.0) (view_of seat.new.me.0) }
    ensures cause { HasCause seat.old.me.0.failures seat.new.me.0.failures result }
{
    let mut disk = take(rt, board, seat);
    let answer = disk.firm_names();
    give_called(board, seat, disk);
    answer
}

/// A pack's call: a firm file of its bench gets the name of a pack, or of a manifest, by one change, and the bench has it no more.
pub fn adopt_part<D: Disk + Drop, R: Wait>(
    rt: &R,
    board: &Board<D>,
    seat: &mut SharedSeat<D>,
    bench: &mut D::Bench,
    file: &Name,
    to: &Name,
) -> Result<(), Failed>
    requires table { (seat.old.table_id ≡ board.now.shared.table_id) × (board.now.shared.table_id.words ≡ 3) × (board.now.shared.table_id.slots ≡ 1) × (seat.old.me.1 ≡ []) }
    requires sits { IsSitting seat.old.me.0 }
    requires firm { IsFirmFile (D.Bench.contents bench.old) (D.Bench.firm_to bench.old file.now) file.now }
    requires due { seat.old.me.0.told ≡ true → (place : DiskPlace) × IsDue (view_of seat.old.me.0) place (Adopt to.now (bytes_on (D.Bench.contents bench.old) file.now)) }
    ensures same { (seat.new.table_id ≡ seat.old.table_id) × (seat.new.id ≡ seat.old.id) × (seat.new.me.1 ≡ []) }
    ensures back { IsBack (is_err result) seat.old.me.0 seat.new.me.0 }
    ensures tells { TellsIt seat.new.me.0 }
    ensures later { Later (seat_store seat.old.me.0) (seat_store seat.new.me.0) }
    ensures called { seat.old.me.0.told ≡ true → (place : DiskPlace) → IsDue (view_of seat.old.me.0) place (Adopt to.now (bytes_on (D.Bench.contents bench.old) file.now)) → (went : Went) × Answers result went × Called place went (view_of seat.old.me.0) (view_of seat.new.me.0) }
    ensures gone { OnOk result (D.Bench.contents bench.new ≡ option_map (removed file.now) (D.Bench.contents bench.old)) }
    ensures left { OnErr result ((D.Bench.contents bench.new ≡ D.Bench.contents bench.old) ⊎ (D.Bench.contents bench.new ≡ option_map (removed file.now) (D.Bench.contents bench.old))) }
    ensures others { (q : List ℕ) → q ≢ file.now → D.Bench.firm_to bench.new q ≡ D.Bench.firm_to bench.old q }
    ensures bench_same { D.Bench.faults bench.new ≡ D.Bench.faults bench.old }
    ensures cause { HasCause seat.old.me.0.failures seat.new.me.0.failures result }
{
    let mut disk = take(rt, board, seat);
    let answer = disk.adopt(bench, file, to);
    give_called(board, seat, disk);
    answer
}

/// Makes a folder and those above it, for a file that is to be put. That is no step; its fault is one of the call that is due.
pub fn make_folder<D: Disk + Drop, R: Wait>(
    rt: &R,
    board: &Board<D>,
    seat: &mut SharedSeat<D>,
    name: &Name,
) -> Result<(), Failed>
    requires table { (seat.old.table_id ≡ board.now.shared.table_id) × (board.now.shared.table_id.words ≡ 3) × (board.now.shared.table_id.slots ≡ 1) × (seat.old.me.1 ≡ []) }
    requires sits { IsSitting seat.old.me.0 }
    requires due { seat.old.me.0.told ≡ true → NeedsFolder (view_of seat.old.me.0) }
    ensures same { (seat.new.table_id ≡ seat.old.table_id) × (seat.new.id ≡ seat.old.id) × (seat.new.me.1 ≡ []) }
    ensures done { OnOk result (seat.new.me.0 ≡ record seat.old.me.0 { hand = Empty }) }
    ensures back { OnErr result (IsBack true seat.old.me.0 seat.new.me.0 × TellsIt seat.new.me.0 × Later (seat_store seat.old.me.0) (seat_store seat.new.me.0)) }
    ensures unmade { seat.old.me.0.told ≡ true → OnErr result (Unmade (view_of seat.old.me.0) (view_of seat.new.me.0)) }
    ensures cause { HasCause seat.old.me.0.failures seat.new.me.0.failures result }
{
    let mut disk = take(rt, board, seat);
    match disk.make_folder(name) {
        Ok(()) => {
            give_back(board, seat, disk);
            Ok(())
        }
        Err(failed) => {
            give_unmade(board, seat, disk);
            Err(failed)
        }
    }
}
