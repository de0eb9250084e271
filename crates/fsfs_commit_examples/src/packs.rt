// A shard is packed while another pass looks and reads.
ghost use Rattle.std.specs.Prelude.{◌≡◌, ◌<◌, [], false};
ghost use Rattle.fsfs_pass.specs.Met.{ground_of};
ghost use Rattle.fsfs_pass.specs.Seats.{IsSitting};
ghost use Rattle.fsfs_pass.specs.Tells.{TellsIt};

use crate::untold::UntoldDisk;
use fsfs_base::{Gate, GatePlace, Note, RevNum};
use fsfs_example_calls::{say_disk_fault, say_open_fault, say_stuck};
use fsfs_layout::Layout;
use fsfs_memory::{HoldGate, MemDisk, Transcript};
use fsfs_pass::{Board, PassTurns, SharedSeat, split};
use fsfs_repo::{OpenedShared, PackDone, PackEnd, PackFault, SharedRepo, pack};
use fsfs_revision::Book;
use fsfs_turn::{Turns, over_pass};
use std::alloc::Global;
use std::sync::Wait;
use std::thread;
use std::thread::Threads;

fn say_fault(fault: PackFault, out: &mut Transcript) {
    match fault {
        PackFault::Stuck(place) => say_stuck(place, out),
        PackFault::DiskFault(place) => say_disk_fault(place, out),
        PackFault::BenchFault => out.say("BenchFault"),
        PackFault::Missing(rev) => out.tell("Missing r", &rev),
        PackFault::Small(fault) => out.name(&fault.file),
        PackFault::Memory => out.lose(),
    }
}

// Of how many shards the floor above them was renamed, and how it ended.
fn say_done(done: &PackDone, out: &mut Transcript) {
    out.tell("packed ", &done.renamed);
    match done.end {
        Ok(PackEnd::Nothing) => {}
        Ok(PackEnd::Packed { left: 0, .. }) => {}
        Ok(PackEnd::Packed { left, .. }) => out.tell(", left ", &left),
        Err(fault) => {
            out.say(", ");
            say_fault(fault, out);
        }
    }
}

// Who reads, as gates know it. Who packs is 0.
const READER: u64 = 1;

// The reader waits for the written bench of a shard, and the packer, behind that, for the reader.
#[derive(Drop)]
struct Meanwhile {
    reader: HoldGate,
    packer: HoldGate,
}

impl Meanwhile {
    fn new() -> Meanwhile {
        Meanwhile {
            reader: HoldGate::new(
                GatePlace::BeforeLock,
                READER,
                GatePlace::AfterPackWritten,
                0,
            ),
            packer: HoldGate::new(GatePlace::AfterPackWritten, 0, GatePlace::AfterJob, READER),
        }
    }

    fn gave_up(&self) -> bool {
        self.reader.gave_up() || self.packer.gave_up()
    }
}

impl Gate for Meanwhile {
    fn at(&self, place: GatePlace, who: u64) {
        self.reader.at(place, who);
        self.packer.at(place, who);
    }
}

// What another pass was told meanwhile: the youngest revision, and of one how many bytes it has.
#[derive(Clone, Copy)]
struct Seen {
    youngest: RevNum,
    size: Option<usize>,
}

fn look_and_read<T: Wait>(
    rt: &T,
    alloc: Global,
    pass: PassTurns<'_, UntoldDisk>,
    rev: RevNum,
    gate: &Meanwhile,
) -> Seen {
    gate.at(GatePlace::BeforeLock, READER);
    let mut pass = pass;
    let youngest = <PassTurns<'_, UntoldDisk> as Turns<T>>::look(&mut pass);
    let mut book = over_pass(alloc, rt, pass, youngest);
    let mut bytes = [0; 512];
    let size = match book.read_rev(rev, 0, &mut bytes) {
        Ok(size) => Some(size),
        Err(_) => None,
    };
    gate.at(GatePlace::AfterJob, READER);
    Seen { youngest, size }
}

// The pass in this seat packs, and the seat comes back. It is lent the bare table, as a thread is.
fn pack_held<T: Wait>(
    rt: &T,
    alloc: Global,
    board: &Board<UntoldDisk>,
    seat: SharedSeat<UntoldDisk>,
    layout: Layout,
    floor: RevNum,
    first: Note<UntoldDisk>,
    gate: &Meanwhile,
) -> (SharedSeat<UntoldDisk>, PackDone)
    requires sits { (seat.table_id ≡ board.now.shared.table_id) × (board.now.shared.table_id.words ≡ 3) × (board.now.shared.table_id.slots ≡ 1) × (seat.me.1 ≡ []) × IsSitting seat.me.0 }
    requires layout { ground_of seat.me.0 ≡ record { layout = layout; low = floor } }
    requires tells { TellsIt seat.me.0 }
    requires quiet { seat.me.0.told ≡ false }
    ensures sits { (result.0.table_id ≡ seat.table_id) × (result.0.me.1 ≡ []) × IsSitting result.0.me.0 }
{
    let pass = PassTurns::new(board, seat, layout, floor, first);
    let (pass, done) = pack(rt, alloc, pass, gate);
    (pass.into_seat(), done)
}

// The pass in this seat packs, and one that is split from it looks and reads meanwhile.
fn pack_beside<T: Threads + Wait + Sync>(
    rt: &T,
    alloc: Global,
    repo: &SharedRepo<UntoldDisk>,
    seat: SharedSeat<UntoldDisk>,
    rev: RevNum,
    gate: &Meanwhile,
) -> (SharedSeat<UntoldDisk>, PackDone, Seen)
    requires sits { (seat.table_id ≡ repo.now.board.shared.table_id) × (seat.me.1 ≡ []) × IsSitting seat.me.0 }
    requires layout { ground_of seat.me.0 ≡ record { layout = repo.now.layout; low = repo.now.floor } }
    requires tells { TellsIt seat.me.0 }
    requires quiet { seat.me.0.told ≡ false }
    requires parts { 1 < seat.me.0.kin.parts }
    ensures sits { (result.0.table_id ≡ repo.now.board.shared.table_id) × (result.0.me.1 ≡ []) × IsSitting result.0.me.0 }
{
    let board = repo.board();
    let layout = repo.layout();
    let floor = repo.floor();
    let first = repo.first();
    let mut seat = seat;
    let other = split(board, &mut seat);
    let reader = repo.pass(other);
    let ((seat, done), seen) = thread::join(
        rt,
        move || -> (SharedSeat<UntoldDisk>, PackDone)
            requires sits { (seat.table_id ≡ board.now.shared.table_id) × (board.now.shared.table_id.words ≡ 3) × (board.now.shared.table_id.slots ≡ 1) × (seat.me.1 ≡ []) × IsSitting seat.me.0 }
            requires layout { ground_of seat.me.0 ≡ record { layout = layout; low = floor } }
            requires tells { TellsIt seat.me.0 }
            requires quiet { seat.me.0.told ≡ false }
            ensures sits { (result.0.table_id ≡ seat.table_id) × (result.0.me.1 ≡ []) × IsSitting result.0.me.0 }
        { pack_held(rt, alloc, board, seat, layout, floor, first, gate) },
        move || -> Seen { look_and_read(rt, alloc, reader, rev, gate) },
    );
    (seat, done, seen)
}

// What the pack came to, and what the other pass was told meanwhile.
fn say_both(done: &PackDone, seen: Seen, out: &mut Transcript) {
    say_done(done, out);
    out.tell("; meanwhile r", &seen.youngest);
    match seen.size {
        Some(size) => out.tell(" is the youngest, bytes read: ", &size),
        None => out.say(" is the youngest, and nothing was read"),
    }
}

/// `REV`: packs what is full. With a shard's bench written the pack is held until another pass has looked, and read the revision.
pub fn pack_meanwhile<T: Threads + Wait + Sync>(
    rt: &T,
    alloc: Global,
    disk: MemDisk,
    rest: &str,
    out: &mut Transcript,
) -> MemDisk {
    let Some(rev) = RevNum::plain(rest.as_bytes()) else {
        out.say("? no revision");
        return disk;
    };
    let opened = match SharedRepo::open_to_pack(alloc, UntoldDisk::new(disk)) {
        Ok(opened) => opened,
        Err(unopened) => {
            say_open_fault(&unopened.why, out);
            return unopened.disk.into_disk();
        }
    };
    let OpenedShared { repo, seat, .. } = opened;
    let gate = Meanwhile::new();
    let (seat, done, seen) = pack_beside(rt, alloc, &repo, seat, rev, &gate);
    if gate.gave_up() {
        out.say("? it went on by itself; ");
    }
    say_both(&done, seen, out);
    let disk = repo.close(rt, seat);
    if disk.has_lost() {
        out.say("; ? a file was gone");
    }
    disk.into_disk()
}
