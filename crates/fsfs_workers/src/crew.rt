//! One worker, or two beside each other.
ghost use Rattle.std.specs.Prelude.{◌≡◌, ◌<◌, ◌≤◌, [], length, is_some, None, IfOk};
ghost use Rattle.fsfs_workers.specs.Beside.{HaveWorked};
ghost use Rattle.fsfs_workers.specs.Crews.{HasRoom, workers_in};
ghost use Rattle.fsfs_workers.specs.Ready.{IsReady};

use crate::answers::Rooms;
use crate::share::Share;
use crate::two_workers::do_in_rooms;
use crate::worker::work;
use fsfs_base::{Gate, Note, RevNum};
use fsfs_disk::Disk;
use fsfs_jobs::JobAnswer;
use fsfs_layout::Layout;
use fsfs_pass::{Board, SharedSeat, said_again};
use fsfs_script::Job;
use std::alloc::{AllocError, Global};
use std::sync::Wait;
use std::thread::Threads;

// One worker alone has all jobs.
const ALL: Share = Share {
    workers: 1,
    before: 0,
};

/// The workers of a run, with the room for their answers.
#[derive(Drop)]
pub(crate) enum Crew {
    One(Vec<JobAnswer>),
    Two(Rooms),
}

impl Crew {
    /// So many, with room for so many answers.
    pub(crate) fn new(alloc: Global, workers: u32, count: usize) -> Result<Crew, AllocError>
        requires { (1 ≤ workers) × (workers ≤ 2) }
        ensures workers { IfOk result (λ crew. workers_in crew ≡ workers) }
        ensures room { IfOk result (λ crew. HasRoom count crew) }
    {
        if workers == 1 {
            let room = Vec::with_capacity(alloc, count)?;
            Ok(Crew::One(room))
        } else {
            let rooms = Rooms::new(alloc, count)?;
            Ok(Crew::Two(rooms))
        }
    }
}

/// Does jobs by these workers, beside each other where there are two: the pass in this seat is the first, and one that is split from it, and
/// joined into it again behind the last, is the other. The answers are in the order of the jobs.
pub(crate) fn do_by<R: Threads + Wait + Sync, D: Disk + Drop + Send, G: Gate + Sync>(
    rt: &R,
    alloc: Global,
    board: &Board<D>,
    seat: SharedSeat<D>,
    layout: Layout,
    floor: RevNum,
    first: &Note<D>,
    jobs: &[Job],
    micros: u64,
    gate: &G,
    crew: Crew,
) -> (SharedSeat<D>, Vec<JobAnswer>)
where
    D::Bench: Send,
    requires moment { micros ≤ 4102444799999999 }
    requires room { HasRoom (length jobs.now) crew }
    requires sits { (seat.table_id ≡ board.now.shared.table_id) × (board.now.shared.table_id.words ≡ 3) × (board.now.shared.table_id.slots ≡ 1) × (seat.me.1 ≡ []) }
    requires parts { 1 < seat.me.0.kin.parts }
    requires ready { IsReady layout floor (is_some (D.trace first.now.value)) seat.me.0 }
    ensures done { HaveWorked micros (workers_in crew) None jobs.now result.1.items seat.me.0 result.0.me.0 }
    ensures sits { (result.0.table_id ≡ seat.table_id) × (result.0.me.1 ≡ []) }
{
    match crew {
        Crew::One(room) => {
            let note = said_again(first);
            work(
                rt, alloc, board, seat, layout, floor, note, jobs, ALL, micros, gate, room,
            )
        }
        Crew::Two(rooms) => do_in_rooms(
            rt, alloc, board, seat, layout, floor, first, jobs, micros, gate, rooms,
        ),
    }
}
