//! What a pack does beside the calls of its section: the folder of the pack is made; own files of packed revisions go, and their folder.
ghost use Rattle.std.specs.Prelude.{◌≡◌, ℕ, List, [], true, is_err, Some, OnOk, OnErr};
ghost use Rattle.fsfs_base.specs.Failures.{HasCause};
ghost use Rattle.fsfs_fetch.specs.Views.{Later};
ghost use Rattle.fsfs_disk.specs.Trace.{Adopt};
ghost use Rattle.fsfs_base.specs.declared.places.place.DiskPlace.{DiskPlace};
ghost use Rattle.fsfs_base.specs.declared.places.place.DiskPlace.TheVariants.{Remove};
ghost use Rattle.fsfs_machine.specs.declared.machine.Section.TheVariants.{Packed};
ghost use Rattle.fsfs_machine.specs.declared.machine.Went.{Went};
ghost use Rattle.fsfs_turn.specs.Packing.{MayRemove, Removal, DoneBeside};
ghost use Rattle.fsfs_turn.specs.Views.{Answers, IsDue, rev_name};
ghost use Rattle.fsfs_pass.specs.declared.seats.seat_view.Hand.TheVariants.{Empty};
ghost use Rattle.fsfs_pass.specs.Seats.{view_of, IsSitting};
ghost use Rattle.fsfs_pass.specs.Met.{seat_store};
ghost use Rattle.fsfs_pass.specs.Tells.{TellsIt};
ghost use Rattle.fsfs_pass.specs.SeatCalls.Tells.{IsBack, PackUnmade};

use crate::seat_calls::gives::{give_beside, give_pack_unmade, give_removed};
use crate::seats::table::give_back;
use crate::{Board, SharedSeat, take};
use fsfs_base::{Failed, Name};
use fsfs_disk::Disk;
use std::marker::Brand;
use std::sync::Wait;

/// Makes the folder of a pack, and those above it. That is no step; its fault is one of the call that is due.
pub fn make_pack_folder<D: Disk + Drop, R: Wait>(
    rt: &R,
    board: &Board<D>,
    seat: &mut SharedSeat<D>,
    name: &Name,
) -> Result<(), Failed>
    requires table { (seat.old.table_id ≡ board.now.shared.table_id) × (board.now.shared.table_id.words ≡ 3) × (board.now.shared.table_id.slots ≡ 1) × (seat.old.me.1 ≡ []) }
    requires sits { IsSitting seat.old.me.0 }
    requires due { seat.old.me.0.told ≡ true → (place : DiskPlace) × (file : List ℕ) × (bytes : List ℕ) × IsDue (view_of seat.old.me.0) place (Adopt file bytes) }
    ensures same { (seat.new.table_id ≡ seat.old.table_id) × (seat.new.id ≡ seat.old.id) × (seat.new.me.1 ≡ []) }
    ensures done { OnOk result (seat.new.me.0 ≡ record seat.old.me.0 { hand = Empty }) }
    ensures back { OnErr result (IsBack true seat.old.me.0 seat.new.me.0 × TellsIt seat.new.me.0 × Later (seat_store seat.old.me.0) (seat_store seat.new.me.0)) }
    ensures unmade { seat.old.me.0.told ≡ true → OnErr result (PackUnmade (view_of seat.old.me.0) (view_of seat.new.me.0)) }
    ensures cause { HasCause seat.old.me.0.failures seat.new.me.0.failures result }
{
    let mut disk = take(rt, board, seat);
    match disk.make_folder(name) {
        Ok(()) => {
            give_back(board, seat, disk);
            Ok(())
        }
        Err(failed) => {
            give_pack_unmade(board, seat, disk);
            Err(failed)
        }
    }
}

/// Takes away the own file of a revision that is packed: the floor above it is firm. `false`: there was none.
pub fn remove<D: Disk + Drop, R: Wait>(
    rt: &R,
    board: &Board<D>,
    seat: &mut SharedSeat<D>,
    name: &Name,
) -> Result<bool, Failed>
    requires table { (seat.old.table_id ≡ board.now.shared.table_id) × (board.now.shared.table_id.words ≡ 3) × (board.now.shared.table_id.slots ≡ 1) × (seat.old.me.1 ≡ []) }
    requires sits { IsSitting seat.old.me.0 }
    requires may { seat.old.me.0.told ≡ true → (r : ℕ) × MayRemove (view_of seat.old.me.0) r × (name.now ≡ rev_name (view_of seat.old.me.0) r) }
    ensures same { (seat.new.table_id ≡ seat.old.table_id) × (seat.new.id ≡ seat.old.id) × (seat.new.me.1 ≡ []) }
    ensures back { IsBack (is_err result) seat.old.me.0 seat.new.me.0 }
    ensures tells { TellsIt seat.new.me.0 }
    ensures later { Later (seat_store seat.old.me.0) (seat_store seat.new.me.0) }
    ensures removed { seat.old.me.0.told ≡ true → (r : ℕ) → MayRemove (view_of seat.old.me.0) r → name.now ≡ rev_name (view_of seat.old.me.0) r → (went : Went) × Answers result went × Removal result r went (view_of seat.old.me.0) (view_of seat.new.me.0) }
    ensures cause { HasCause seat.old.me.0.failures seat.new.me.0.failures result }
{
    let mut disk = take(rt, board, seat);
    match disk.remove(name) {
        Ok(true) => {
            give_removed::<Brand, D>(board, seat, disk, name);
            Ok(true)
        }
        Ok(false) => {
            give_beside(board, seat, disk);
            Ok(false)
        }
        Err(failed) => {
            give_removed::<Brand, D>(board, seat, disk, name);
            Err(failed)
        }
    }
}

/// Drops a folder that is empty, where the shard that it was of is packed.
pub fn drop_folder<D: Disk + Drop, R: Wait>(
    rt: &R,
    board: &Board<D>,
    seat: &mut SharedSeat<D>,
    name: &Name,
) -> Result<(), Failed>
    requires table { (seat.old.table_id ≡ board.now.shared.table_id) × (board.now.shared.table_id.words ≡ 3) × (board.now.shared.table_id.slots ≡ 1) × (seat.old.me.1 ≡ []) }
    requires sits { IsSitting seat.old.me.0 }
    requires may { seat.old.me.0.told ≡ true → seat.old.me.0.section ≡ Some Packed }
    ensures same { (seat.new.table_id ≡ seat.old.table_id) × (seat.new.id ≡ seat.old.id) × (seat.new.me.1 ≡ []) }
    ensures back { IsBack (is_err result) seat.old.me.0 seat.new.me.0 }
    ensures tells { TellsIt seat.new.me.0 }
    ensures later { Later (seat_store seat.old.me.0) (seat_store seat.new.me.0) }
    ensures beside { seat.old.me.0.told ≡ true → (went : Went) × Answers result went × DoneBeside Remove went (view_of seat.old.me.0) (view_of seat.new.me.0) }
    ensures cause { HasCause seat.old.me.0.failures seat.new.me.0.failures result }
{
    let mut disk = take(rt, board, seat);
    let answer = disk.drop_folder(name);
    give_beside(board, seat, disk);
    answer
}
