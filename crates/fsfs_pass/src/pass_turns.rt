// A pass at the table.
ghost use Rattle.std.specs.Prelude.{◌≡◌, ◌≤◌, [], true, is_some, IfSome, option_map};
ghost use Rattle.fsfs_disk.specs.Trace.{files_now};
ghost use Rattle.fsfs_disk.specs.Benches.{HasShortFiles};
ghost use Rattle.fsfs_pass.specs.Met.{ground_of, known_last};
ghost use Rattle.fsfs_pass.specs.Passes.{is_sitting};
ghost use Rattle.fsfs_pass.specs.Short.{short_prop};

use crate::notes::said_again;
use crate::{Board, SharedSeat};
use fsfs_base::{Note, RevNum};
use fsfs_disk::Disk;
use fsfs_layout::Layout;

/// A pass of a store that is shared: its seat, and the table at which it sits. It is lent the bare table, so that each thread makes its own.
#[derive(Drop)]
pub struct PassTurns<'a, D: Disk> {
    pub(crate) board: &'a Board<D>,
    pub(crate) seat: SharedSeat<D>,
    pub(crate) layout: Layout,
    // The floor that the opening read.
    pub(crate) floor: RevNum,
    // The greatest number that a look told.
    pub(crate) last: RevNum,
    // The disk as it was first, which clauses alone read: its path, and that it tells.
    pub(crate) first: Note<D>,
    ghost sits: { (seat.table_id ≡ board.now.shared.table_id) × (board.now.shared.table_id.words ≡ 3) × (board.now.shared.table_id.slots ≡ 1) × (seat.me.1 ≡ []) },
    ghost sitting: { is_sitting seat.me.0.kin.stage ≡ true },
    ghost layout_is: { ground_of seat.me.0 ≡ record { layout = layout; low = floor } },
    ghost met_told: { is_some seat.me.0.met ≡ seat.me.0.told },
    ghost last_low: { seat.me.0.told ≡ true → last ≤ known_last seat.me.0 },
    ghost short: { IfSome (option_map files_now seat.me.0.met) HasShortFiles } by { short_prop (option_map files_now seat.me.0.met) },
}

impl<'a, D: Disk> PassTurns<'a, D> {
    ghost use Rattle.std.specs.Prelude.{◌+◌, ◌<◌, ℕ, None};
    ghost use Rattle.fsfs_fetch.specs.Views.{Later};
    ghost use Rattle.fsfs_turn.specs.Views.{View};
    ghost use Rattle.fsfs_turn.specs.Telling.{TellsSeen};
    ghost use Rattle.fsfs_pass.specs.Met.{seat_store};
    ghost use Rattle.fsfs_pass.specs.Seats.{view_of, IsSitting, halved_view, split_pass, numbered_view, joined_view};
    ghost use Rattle.fsfs_pass.specs.Passes.{pass_store, KnowsIt, split_off, Joins};

    /// The turns of the pass in this seat. The disk of the store, as it was first, is laid out so, and the revisions below this floor are in
    /// packs there.
    pub fn new(
        board: &'a Board<D>,
        seat: SharedSeat<D>,
        layout: Layout,
        floor: RevNum,
        first: Note<D>,
    ) -> PassTurns<'a, D>
        requires sits { (seat.table_id ≡ board.now.shared.table_id) × (board.now.shared.table_id.words ≡ 3) × (board.now.shared.table_id.slots ≡ 1) × (seat.me.1 ≡ []) }
        requires sitting { IsSitting seat.me.0 }
        requires layout { ground_of seat.me.0 ≡ record { layout = layout; low = floor } }
        requires met { is_some seat.me.0.met ≡ seat.me.0.told }
        requires short { IfSome (option_map files_now seat.me.0.met) HasShortFiles }
        ensures seat { result.seat ≡ seat }
        ensures first { result.first ≡ first }
        // Where the disk tells, what the seat's view says is known.
        ensures known { is_some (D.trace first.value) ≡ true → seat.me.0.told ≡ true → TellsSeen seat.me.0.low (seat_store seat.me.0) (view_of seat.me.0)
            → KnowsIt (D.trace result.first.value) result.last result.seat.me.0 (view_of seat.me.0) }
    {
        PassTurns {
            board,
            seat,
            layout,
            floor,
            last: RevNum::ZERO,
            first,
        }
    }

    /// The turns of a new pass, which knows what this one knows, but of no revisions, faults or section of its own: these are only to
    /// come. Its number is above this one's. It waits for nobody.
    pub fn split(&mut self) -> PassTurns<'a, D>
        // Of the parts of this one's seat the new one's has half.
        requires parts { 1 < self.old.seat.me.0.kin.parts }
        ensures halved { self.new.seat.me.0 ≡ halved_view self.old.seat.me.0 }
        ensures split { (n : ℕ) × (result.seat.me.0 ≡ numbered_view n result.seat.me.0.met (split_pass self.old.seat.me.0)) }
        ensures table { (self.new.seat.table_id ≡ self.old.seat.table_id) × (result.seat.table_id ≡ self.old.seat.table_id) }
        ensures known { (v : View) → KnowsIt (D.trace self.old.first.value) self.old.last self.old.seat.me.0 v
            → (n : ℕ) × (v.number < n) × KnowsIt (D.trace result.first.value) result.last result.seat.me.0 (split_off n v) }
        ensures keeps { (v : View) → KnowsIt (D.trace self.old.first.value) self.old.last self.old.seat.me.0 v → KnowsIt (D.trace self.new.first.value) self.new.last self.new.seat.me.0 v }
        // What the new one tells is later than what this one told, and this one tells that still.
        ensures later { Later (pass_store self.old.last self.old.seat.me.0) (pass_store result.last result.seat.me.0) }
        ensures same { pass_store self.new.last self.new.seat.me.0 ≡ pass_store self.old.last self.old.seat.me.0 }
        ensures duty { (self.new.seat.me.0.told ≡ self.old.seat.me.0.told) × (result.seat.me.0.told ≡ self.old.seat.me.0.told) }
        ensures mounted { (D.mount_path self.new.first.value ≡ D.mount_path self.old.first.value) × (D.mount_path result.first.value ≡ D.mount_path self.old.first.value) }
        ensures faults { (self.new.seat.me.0.failures ≡ self.old.seat.me.0.failures) × (result.seat.me.0.failures ≡ 0) }
        ensures benches { (self.new.seat.me.0.bench_failures ≡ self.old.seat.me.0.bench_failures) × (result.seat.me.0.bench_failures ≡ 0) }
    {
        let board = self.board;
        let first = said_again(&self.first);
        let seat = crate::split(board, &mut self.seat);
        PassTurns {
            board,
            seat,
            layout: self.layout,
            floor: self.floor,
            last: self.last,
            first,
        }
    }

    /// Joins the other pass into this one, which knows from then on what both knew; and of the other that its own revisions are these. The
    /// other is used up. It waits for nobody.
    pub fn join(&mut self, other: PassTurns<'a, D>)
        requires table { other.seat.table_id ≡ self.old.seat.table_id }
        requires outside { other.seat.me.0.told ≡ true → other.seat.me.0.section ≡ None }
        ensures joined { self.new.seat.me.0 ≡ joined_view self.new.seat.me.0.met self.old.seat.me.0 other.entry.seat.me.0 }
        ensures table { self.new.seat.table_id ≡ self.old.seat.table_id }
        ensures known { (v u : View) → KnowsIt (D.trace self.old.first.value) self.old.last self.old.seat.me.0 v → KnowsIt (D.trace other.entry.first.value) other.entry.last other.entry.seat.me.0 u
            → (z : View) × KnowsIt (D.trace self.new.first.value) self.new.last self.new.seat.me.0 z × Joins v u z }
        // What it tells is later than what it told; and where the disk tells, than what the other told.
        ensures later { Later (pass_store self.old.last self.old.seat.me.0) (pass_store self.new.last self.new.seat.me.0) }
        ensures later_too { (v u : View) → KnowsIt (D.trace self.old.first.value) self.old.last self.old.seat.me.0 v → KnowsIt (D.trace other.entry.first.value) other.entry.last other.entry.seat.me.0 u
            → Later (pass_store other.entry.last other.entry.seat.me.0) (pass_store self.new.last self.new.seat.me.0) }
        ensures duty { self.new.seat.me.0.told ≡ self.old.seat.me.0.told }
        ensures mounted { D.mount_path self.new.first.value ≡ D.mount_path self.old.first.value }
        ensures faults { self.new.seat.me.0.failures ≡ self.old.seat.me.0.failures + other.entry.seat.me.0.failures }
        ensures benches { self.new.seat.me.0.bench_failures ≡ self.old.seat.me.0.bench_failures + other.entry.seat.me.0.bench_failures }
    {
        let PassTurns { seat, .. } = other;
        let board = self.board;
        crate::join(board, &mut self.seat, seat);
    }

    /// The seat again, and what `new` asks of it.
    pub fn into_seat(self) -> SharedSeat<D>
        ensures seat { result ≡ self.entry.seat }
        ensures sits { (result.table_id ≡ self.entry.board.now.shared.table_id) × (result.me.1 ≡ []) }
        ensures sitting { IsSitting result.me.0 }
        ensures layout { ground_of result.me.0 ≡ record { layout = self.entry.layout; low = self.entry.floor } }
        ensures met { is_some result.me.0.met ≡ result.me.0.told }
        ensures short { IfSome (option_map files_now result.me.0.met) HasShortFiles }
    {
        let PassTurns { seat, .. } = self;
        seat
    }
}
