//! Two workers beside each other.
ghost use Rattle.std.specs.Prelude.{◌≡◌, ◌<◌, ◌≤◌, [], length, true, None, is_some, IfOk, OnErr};
ghost use Rattle.std.specs.Vec.{vec_capacity};
ghost use Rattle.fsfs_job_run.specs.Workers.Lines.{dealt};
ghost use Rattle.fsfs_workers.specs.Beside.{HaveWorked};
ghost use Rattle.fsfs_workers.specs.Crews.{IsRoom};
ghost use Rattle.fsfs_workers.specs.Ready.{IsAtRest, IsReady};
ghost use Rattle.fsfs_workers.specs.OneWorker.{HasWorked};

use crate::answers::{Rooms, in_order};
use crate::share::Share;
use crate::worker::work;
use fsfs_base::{Gate, Note, RevNum};
use fsfs_disk::Disk;
use fsfs_jobs::JobAnswer;
use fsfs_layout::Layout;
use fsfs_pass::{Board, SharedSeat, join, said_again, split};
use fsfs_script::Job;
use std::alloc::{AllocError, Global};
use std::sync::Wait;
use std::thread;
use std::thread::Threads;

// The first of two workers has the jobs 1, 3 and so on.
const FIRST: Share = Share {
    workers: 2,
    before: 0,
};

// The second has the jobs 2, 4 and so on.
const SECOND: Share = Share {
    workers: 2,
    before: 1,
};

/// Does jobs by two workers beside each other, one in a thread of its own; where none can be made, one after the other. The pass in this
/// seat has the jobs 1, 3 and so on. A pass that is split from it, and joined into it again behind the last, has the others. The answers
/// are in the order of the jobs. The room for them is taken first: an `Err` is for want of it, and then no job was done.
pub fn do_beside<R: Threads + Wait + Sync, D: Disk + Drop + Send, G: Gate + Sync>(
    rt: &R,
    alloc: Global,
    board: &Board<D>,
    seat: SharedSeat<D>,
    layout: Layout,
    floor: RevNum,
    first: &Note<D>,
    jobs: &[Job],
    micros: u64,
    gate: &G,
) -> (SharedSeat<D>, Result<Vec<JobAnswer>, AllocError>)
where
    D::Bench: Send,
    requires moment { micros ≤ 4102444799999999 }
    requires sits { (seat.table_id ≡ board.now.shared.table_id) × (board.now.shared.table_id.words ≡ 3) × (board.now.shared.table_id.slots ≡ 1) × (seat.me.1 ≡ []) }
    requires parts { 1 < seat.me.0.kin.parts }
    requires ready { IsReady layout floor (is_some (D.trace first.now.value)) seat.me.0 }
    ensures done { IfOk result.1 (λ answers. HaveWorked micros 2 None jobs.now answers.items seat.me.0 result.0.me.0) }
    ensures none { OnErr result.1 (result.0 ≡ seat) }
    ensures sits { (result.0.table_id ≡ seat.table_id) × (result.0.me.1 ≡ []) }
    ensures rests { IsAtRest result.0.me.0 }
{
    let rooms = match Rooms::new(alloc, jobs.len()) {
        Ok(rooms) => rooms,
        Err(error) => return (seat, Err(error)),
    };
    let (seat, answers) = do_in_rooms(
        rt, alloc, board, seat, layout, floor, first, jobs, micros, gate, rooms,
    );
    (seat, Ok(answers))
}

/// The same where there is room for the answers.
pub(crate) fn do_in_rooms<R: Threads + Wait + Sync, D: Disk + Drop + Send, G: Gate + Sync>(
    rt: &R,
    alloc: Global,
    board: &Board<D>,
    seat: SharedSeat<D>,
    layout: Layout,
    floor: RevNum,
    first: &Note<D>,
    jobs: &[Job],
    micros: u64,
    gate: &G,
    rooms: Rooms,
) -> (SharedSeat<D>, Vec<JobAnswer>)
where
    D::Bench: Send,
    requires moment { micros ≤ 4102444799999999 }
    requires room { IsRoom (length jobs.now) rooms }
    requires sits { (seat.table_id ≡ board.now.shared.table_id) × (board.now.shared.table_id.words ≡ 3) × (board.now.shared.table_id.slots ≡ 1) × (seat.me.1 ≡ []) }
    requires parts { 1 < seat.me.0.kin.parts }
    requires ready { IsReady layout floor (is_some (D.trace first.now.value)) seat.me.0 }
    ensures done { HaveWorked micros 2 None jobs.now result.1.items seat.me.0 result.0.me.0 }
    ensures sits { (result.0.table_id ≡ seat.table_id) × (result.0.me.1 ≡ []) }
{
    let Rooms {
        first: firsts,
        second: seconds,
        both,
    } = rooms;
    let mut seat = seat;
    let other = split(board, &mut seat);
    let note = said_again(first);
    let other_note = said_again(first);
    let ((mut seat, firsts), (other, seconds)) = thread::join(
        rt,
        move || -> (SharedSeat<D>, Vec<JobAnswer>)
            requires moment { micros ≤ 4102444799999999 }
            requires room { (firsts.items ≡ []) × (length jobs.now ≤ vec_capacity firsts) }
            requires sits { (seat.table_id ≡ board.now.shared.table_id) × (board.now.shared.table_id.words ≡ 3) × (board.now.shared.table_id.slots ≡ 1) × (seat.me.1 ≡ []) }
            requires ready { IsReady layout floor (is_some (D.trace note.value)) seat.me.0 }
            ensures worked { HasWorked micros (dealt 2 0 jobs.entry.now) result.1.items seat.me.0 result.0.me.0 }
            ensures sits { (result.0.table_id ≡ seat.table_id) × (result.0.me.1 ≡ []) }
        {
            work(
                rt, alloc, board, seat, layout, floor, note, jobs, FIRST, micros, gate, firsts,
            )
        },
        move || -> (SharedSeat<D>, Vec<JobAnswer>)
            requires moment { micros ≤ 4102444799999999 }
            requires room { (seconds.items ≡ []) × (length jobs.now ≤ vec_capacity seconds) }
            requires sits { (other.table_id ≡ board.now.shared.table_id) × (board.now.shared.table_id.words ≡ 3) × (board.now.shared.table_id.slots ≡ 1) × (other.me.1 ≡ []) }
            requires ready { IsReady layout floor (is_some (D.trace other_note.value)) other.me.0 }
            ensures worked { HasWorked micros (dealt 2 1 jobs.entry.now) result.1.items other.me.0 result.0.me.0 }
            ensures sits { (result.0.table_id ≡ other.table_id) × (result.0.me.1 ≡ []) }
        {
            work(
                rt, alloc, board, other, layout, floor, other_note, jobs, SECOND, micros, gate,
                seconds,
            )
        },
    );
    join(board, &mut seat, other);
    (seat, in_order(firsts, seconds, both))
}
