//! A pass is joined into another.
ghost use Rattle.std.specs.Prelude.{◌≡◌, [], true, None};
ghost use Rattle.fsfs_fetch.specs.Views.{Later};
ghost use Rattle.fsfs_turn.specs.Views.{Begins};
ghost use Rattle.fsfs_pass.specs.Met.{seat_store};
ghost use Rattle.fsfs_pass.specs.Tells.{TellsIt};
ghost use Rattle.fsfs_pass.specs.Seats.{IsSitting, joined_view};

use crate::seats::law::{Board, Parting, Settle, SharedSeat};
use fsfs_disk::Disk;

/// Joins the pass of the other seat into this one's, which knows from then on what both knew: the longer of the two lines that they
/// saw, the faults of both, the names given that either knew, and of the other that its own revisions are these. The other seat is
/// used up. It waits for nobody.
pub fn join<D: Disk>(board: &Board<D>, seat: &mut SharedSeat<D>, other: SharedSeat<D>)
    requires table { (seat.old.table_id ≡ board.now.shared.table_id) × (other.table_id ≡ board.now.shared.table_id) × (board.now.shared.table_id.words ≡ 3) }
    requires sits { IsSitting seat.old.me.0 × IsSitting other.me.0 }
    requires rests { other.me.1 ≡ [] }
    requires outside { other.me.0.told ≡ true → other.me.0.section ≡ None }
    ensures same { (seat.new.table_id ≡ seat.old.table_id) × (seat.new.id ≡ seat.old.id) }
    ensures joined { seat.new.me ≡ (joined_view seat.new.me.0.met seat.old.me.0 other.me.0, seat.old.me.1) }
    ensures seen { seat.old.me.0.told ≡ true → Begins seat.new.me.0.seen seat.old.me.0.seen × Begins seat.new.me.0.seen other.me.0.seen }
    ensures later { seat.old.me.0.told ≡ true → Later (seat_store seat.old.me.0) (seat_store seat.new.me.0) × Later (seat_store other.me.0) (seat_store seat.new.me.0) }
    ensures tells { TellsIt seat.new.me.0 }
{
    board.shared.join_seat::<Parting>(seat, other);
    board.shared.load::<Settle>(seat, 0);
}
