//! A pass is split off from another.
ghost use Rattle.std.specs.Prelude.{◌≡◌, ◌<◌, ℕ, [], true};
ghost use Rattle.fsfs_fetch.specs.Views.{Later};
ghost use Rattle.fsfs_pass.specs.Met.{seat_store};
ghost use Rattle.fsfs_pass.specs.Tells.{TellsIt};
ghost use Rattle.fsfs_pass.specs.Seats.{IsSitting, halved_view, split_pass, numbered_view};

use crate::seats::law::{Board, Parting, SharedSeat, TellNumber};
use fsfs_disk::Disk;

/// A seat for a new pass, which knows what this one knows, but of no revisions, faults or section of its own: these are only to come.
/// Its number is above this one's. Of the parts of this seat it has half. It waits for nobody.
pub fn split<D: Disk>(board: &Board<D>, seat: &mut SharedSeat<D>) -> SharedSeat<D>
    requires table { (seat.old.table_id ≡ board.now.shared.table_id) × (board.now.shared.table_id.words ≡ 3) }
    requires sits { IsSitting seat.old.me.0 }
    requires parts { 1 < seat.old.me.0.kin.parts }
    ensures same { (seat.new.table_id ≡ seat.old.table_id) × (seat.new.id ≡ seat.old.id) × (seat.new.me ≡ (halved_view seat.old.me.0, seat.old.me.1)) }
    ensures new { (result.table_id ≡ seat.old.table_id) × (result.me.1 ≡ []) }
    ensures split { (n : ℕ) × (result.me.0 ≡ numbered_view n result.me.0.met (split_pass seat.old.me.0)) × (seat.old.me.0.told ≡ true → seat.old.me.0.number < n) }
    ensures later { Later (seat_store seat.old.me.0) (seat_store result.me.0) }
    ensures tells { TellsIt result.me.0 }
{
    let mut other = board.shared.split_seat::<Parting>(seat);
    board.shared.load::<TellNumber>(&mut other, 0);
    other
}
