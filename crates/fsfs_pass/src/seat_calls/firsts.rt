//! The first calls of a begin's section and of a commit's.
ghost use Rattle.std.specs.Prelude.{◌≡◌, ◌⊎◌, ◌≤◌, [], true, length, is_err, Some, unwrap_or, option_map, IfOk, IfSome, OnOk, OnErr};
ghost use Rattle.std.specs.FinMap.{get};
ghost use Rattle.fsfs_base.specs.Failures.{HasCause};
ghost use Rattle.fsfs_layout.specs.FileNames.{only_name};
ghost use Rattle.fsfs_layout.specs.declared.only_file.OnlyFile.TheVariants.{TxnCurrent};
ghost use Rattle.fsfs_fetch.specs.Views.{Later};
ghost use Rattle.fsfs_disk.specs.Benches.{removed, bytes_on, IsFirmFile};
ghost use Rattle.fsfs_disk.specs.Trace.{IsRead};
ghost use Rattle.fsfs_machine.specs.declared.machine.Section.TheVariants.{Begun};
ghost use Rattle.fsfs_turn.specs.Views.{rev_name};
ghost use Rattle.fsfs_turn.specs.Learning.{ReadsCounter};
ghost use Rattle.fsfs_pass.specs.Seats.{view_of, IsSitting};
ghost use Rattle.fsfs_pass.specs.Met.{seat_store};
ghost use Rattle.fsfs_pass.specs.Tells.{TellsIt};
ghost use Rattle.fsfs_pass.specs.SeatCalls.Tells.{IsBack, MayAdoptIt, no_adoption, AdoptedAs};

use crate::seat_calls::gives::{give_adopted, give_drawn};
use crate::{Board, SharedSeat, take};
use fsfs_base::{Failed, Name, Note, RevNum, Says};
use fsfs_disk::{Bench, Disk};
use fsfs_layout::OnlyFile;
use fsfs_machine::Bytes;
use fsfs_turn::Adoption;
use std::marker::Brand;
use std::sync::Wait;

// The bytes of a slice.
#[derive(Drop)]
struct SliceBytes<'a> {
    bytes: &'a [u8],
}

impl<'a> Says<Bytes> for SliceBytes<'a> {
    ghost says = { λ o. o.bytes.now };
}

// The bytes of a file of a bench, where its files are told.
#[derive(Drop)]
struct FileBytes<'a, B: Bench> {
    bench: &'a B,
    file: &'a Name,
}

impl<'a, B: Bench> Says<Bytes> for FileBytes<'a, B> {
    ghost use Rattle.fsfs_disk.specs.Benches.{bytes_on};

    ghost says = { λ o. bytes_on (B.contents o.bench.now) o.file.now };
}

/// As a begin's first call, reads the number in `txn-current`, for this base.
pub fn draw<D: Disk + Drop, R: Wait>(
    rt: &R,
    board: &Board<D>,
    seat: &mut SharedSeat<D>,
    base: RevNum,
    buffer: &mut [u8],
) -> Result<Option<usize>, Failed>
    requires table { (seat.old.table_id ≡ board.now.shared.table_id) × (board.now.shared.table_id.words ≡ 3) × (board.now.shared.table_id.slots ≡ 1) × (seat.old.me.1 ≡ []) }
    requires sits { IsSitting seat.old.me.0 }
    requires may { seat.old.me.0.told ≡ true → (seat.old.me.0.section ≡ Some Begun) × (base ≤ seat.old.me.0.pass.least) }
    ensures same { (seat.new.table_id ≡ seat.old.table_id) × (seat.new.id ≡ seat.old.id) × (seat.new.me.1 ≡ []) }
    ensures back { IsBack (is_err result) seat.old.me.0 seat.new.me.0 }
    ensures tells { TellsIt seat.new.me.0 }
    ensures later { Later (seat_store seat.old.me.0) (seat_store seat.new.me.0) }
    ensures within { IfOk result (λ found. IfSome found (λ n. n ≤ length buffer.new)) }
    ensures bytes { IfSome (seat_store seat.new.me.0).files (λ m. IfOk result (IsRead (get m (only_name TxnCurrent)) 0 buffer.old buffer.new)) }
    ensures drawn { seat.old.me.0.told ≡ true → ReadsCounter (λ u. u ≡ view_of seat.new.me.0) (seat_store seat.new.me.0).files base result buffer.old buffer.new (view_of seat.old.me.0) }
    ensures cause { HasCause seat.old.me.0.failures seat.new.me.0.failures result }
{
    let current = OnlyFile::TxnCurrent.name();
    let mut disk = take(rt, board, seat);
    let answer = disk.read(&current, 0, buffer);
    give_drawn::<Brand, D>(board, seat, disk, base);
    answer
}

/// As a commit's first call, makes a new file of these bytes for the revision that is to come: that which `about` says.
pub fn adopt<D: Disk + Drop, R: Wait>(
    rt: &R,
    board: &Board<D>,
    seat: &mut SharedSeat<D>,
    name: &Name,
    bytes: &[u8],
    about: &Note<Option<Adoption>>,
) -> Result<(), Failed>
    requires table { (seat.old.table_id ≡ board.now.shared.table_id) × (board.now.shared.table_id.words ≡ 3) × (board.now.shared.table_id.slots ≡ 1) × (seat.old.me.1 ≡ []) }
    requires sits { IsSitting seat.old.me.0 }
    requires may { seat.old.me.0.told ≡ true → MayAdoptIt (view_of seat.old.me.0) (unwrap_or about.now.value no_adoption) bytes.now × (name.now ≡ rev_name (view_of seat.old.me.0) (length seat.old.me.0.seen)) }
    ensures same { (seat.new.table_id ≡ seat.old.table_id) × (seat.new.id ≡ seat.old.id) × (seat.new.me.1 ≡ []) }
    ensures back { IsBack (is_err result) seat.old.me.0 seat.new.me.0 }
    ensures tells { TellsIt seat.new.me.0 }
    ensures later { Later (seat_store seat.old.me.0) (seat_store seat.new.me.0) }
    ensures adopted { seat.old.me.0.told ≡ true → AdoptedAs (unwrap_or about.now.value no_adoption) bytes.now result (view_of seat.old.me.0) (view_of seat.new.me.0) }
    ensures cause { HasCause seat.old.me.0.failures seat.new.me.0.failures result }
{
    let all = Note::of(&SliceBytes { bytes });
    let mut disk = take(rt, board, seat);
    let answer = disk.put(name, bytes);
    give_adopted::<Brand, D>(board, seat, disk, name, &all, about);
    answer
}

/// The same with the bytes in a firm file of a bench: it gets the name by one change, and the bench has it no more.
pub fn adopt_file<D: Disk + Drop, R: Wait>(
    rt: &R,
    board: &Board<D>,
    seat: &mut SharedSeat<D>,
    bench: &mut D::Bench,
    file: &Name,
    to: &Name,
    about: &Note<Option<Adoption>>,
) -> Result<(), Failed>
    requires table { (seat.old.table_id ≡ board.now.shared.table_id) × (board.now.shared.table_id.words ≡ 3) × (board.now.shared.table_id.slots ≡ 1) × (seat.old.me.1 ≡ []) }
    requires sits { IsSitting seat.old.me.0 }
    requires firm { IsFirmFile (D.Bench.contents bench.old) (D.Bench.firm_to bench.old file.now) file.now }
    requires may { seat.old.me.0.told ≡ true → MayAdoptIt (view_of seat.old.me.0) (unwrap_or about.now.value no_adoption) (bytes_on (D.Bench.contents bench.old) file.now) × (to.now ≡ rev_name (view_of seat.old.me.0) (length seat.old.me.0.seen)) }
    ensures same { (seat.new.table_id ≡ seat.old.table_id) × (seat.new.id ≡ seat.old.id) × (seat.new.me.1 ≡ []) }
    ensures back { IsBack (is_err result) seat.old.me.0 seat.new.me.0 }
    ensures tells { TellsIt seat.new.me.0 }
    ensures later { Later (seat_store seat.old.me.0) (seat_store seat.new.me.0) }
    ensures adopted { seat.old.me.0.told ≡ true → AdoptedAs (unwrap_or about.now.value no_adoption) (bytes_on (D.Bench.contents bench.old) file.now) result (view_of seat.old.me.0) (view_of seat.new.me.0) }
    ensures gone { OnOk result (D.Bench.contents bench.new ≡ option_map (removed file.now) (D.Bench.contents bench.old)) }
    ensures left { OnErr result ((D.Bench.contents bench.new ≡ D.Bench.contents bench.old) ⊎ (D.Bench.contents bench.new ≡ option_map (removed file.now) (D.Bench.contents bench.old))) }
    ensures bench_same { D.Bench.faults bench.new ≡ D.Bench.faults bench.old }
    ensures cause { HasCause seat.old.me.0.failures seat.new.me.0.failures result }
{
    let all = Note::of(&FileBytes {
        bench: &*bench,
        file,
    });
    let mut disk = take(rt, board, seat);
    let answer = disk.adopt(bench, file, to);
    give_adopted::<Brand, D>(board, seat, disk, to, &all, about);
    answer
}
