//! A worker: a pass at the table that does its share of the jobs.
ghost use Rattle.std.specs.Prelude.{◌≡◌, ◌<◌, ◌≤◌, [], length, is_some};
ghost use Rattle.std.specs.Vec.{vec_capacity};
ghost use Rattle.fsfs_job_run.specs.Workers.Lines.{dealt};
ghost use Rattle.fsfs_workers.specs.Ready.{IsReady};
ghost use Rattle.fsfs_workers.specs.OneWorker.{HasWorked};

use crate::share::{Share, do_share};
use fsfs_base::{Gate, Note, RevNum};
use fsfs_disk::Disk;
use fsfs_jobs::JobAnswer;
use fsfs_layout::Layout;
use fsfs_pass::{Board, PassTurns, SharedSeat};
use fsfs_script::Job;
use std::alloc::Global;
use std::sync::Wait;

/// Does a share of the jobs by the pass in this seat, and gives the seat back. It is lent the bare table, as a thread is.
pub(crate) fn work<R: Wait, D: Disk + Drop, G: Gate>(
    rt: &R,
    alloc: Global,
    board: &Board<D>,
    seat: SharedSeat<D>,
    layout: Layout,
    floor: RevNum,
    first: Note<D>,
    jobs: &[Job],
    share: Share,
    micros: u64,
    gate: &G,
    room: Vec<JobAnswer>,
) -> (SharedSeat<D>, Vec<JobAnswer>)
    requires moment { micros ≤ 4102444799999999 }
    requires share { share.before < share.workers }
    requires room { (room.items ≡ []) × (length jobs.now ≤ vec_capacity room) }
    requires sits { (seat.table_id ≡ board.now.shared.table_id) × (board.now.shared.table_id.words ≡ 3) × (board.now.shared.table_id.slots ≡ 1) × (seat.me.1 ≡ []) }
    requires ready { IsReady layout floor (is_some (D.trace first.value)) seat.me.0 }
    ensures worked { HasWorked micros (dealt share.workers share.before jobs.now) result.1.items seat.me.0 result.0.me.0 }
    ensures sits { (result.0.table_id ≡ seat.table_id) × (result.0.me.1 ≡ []) }
{
    let pass = PassTurns::new(board, seat, layout, floor, first);
    let (pass, answers) = do_share(rt, alloc, pass, jobs, share, micros, gate, room);
    (pass.into_seat(), answers)
}
