//! Workers that do jobs, and a pass that packs beside them.
ghost use Rattle.std.specs.Prelude.{◌≡◌, ◌<◌, ◌≤◌, [], length, true, is_some, None, Some, IfOk, OnErr};
ghost use Rattle.fsfs_base.specs.Failures.{Rose};
ghost use Rattle.fsfs_workers.specs.Beside.{HaveWorked};
ghost use Rattle.fsfs_workers.specs.Crews.{HasRoom, workers_in};
ghost use Rattle.fsfs_workers.specs.PackCalls.{HasPacked, PackedOften};
ghost use Rattle.fsfs_workers.specs.Ready.{IsAtRest, IsReady};

use crate::crew::{Crew, do_by};
use crate::packs::{Packs, pack_beside};
use fsfs_base::{Gate, Note, RevNum};
use fsfs_disk::Disk;
use fsfs_jobs::JobAnswer;
use fsfs_layout::Layout;
use fsfs_pass::{Board, SharedSeat, join, said_again, split};
use fsfs_script::Job;
use std::alloc::{AllocError, Global};
use std::sync::Wait;
use std::thread;
use std::thread::Threads;

/// The answers of jobs in their order, and what was packed beside them.
#[derive(Drop)]
pub(crate) struct PackedAnswers {
    pub(crate) answers: Vec<JobAnswer>,
    pub(crate) packs: Packs,
}

/// Does jobs by one worker or by two, and beside them, in a thread of its own, a pass that is split from the one in this seat packs as often
/// as there are jobs; where no thread can be made, one after the other. It is joined into the one in this seat again behind the last. The
/// room for the answers is taken first: an `Err` is for want of it, and then nothing was done.
pub(crate) fn do_packing<R: Threads + Wait + Sync, D: Disk + Drop + Send, G: Gate + Sync>(
    rt: &R,
    alloc: Global,
    board: &Board<D>,
    seat: SharedSeat<D>,
    layout: Layout,
    floor: RevNum,
    first: &Note<D>,
    jobs: &[Job],
    workers: u32,
    micros: u64,
    gate: &G,
) -> (SharedSeat<D>, Result<PackedAnswers, AllocError>)
where
    D::Bench: Send,
    requires moment { micros ≤ 4102444799999999 }
    requires workers { (1 ≤ workers) × (workers ≤ 2) }
    requires sits { (seat.table_id ≡ board.now.shared.table_id) × (board.now.shared.table_id.words ≡ 3) × (board.now.shared.table_id.slots ≡ 1) × (seat.me.1 ≡ []) }
    // Two seats are split from it.
    requires parts { 3 < seat.me.0.kin.parts }
    requires ready { IsReady layout floor (is_some (D.trace first.now.value)) seat.me.0 }
    requires packs { seat.me.0.told ≡ true → seat.me.0.since.packs ≡ true }
    ensures done { IfOk result.1 (λ done. HaveWorked micros workers (Some done.packs.sticks) jobs.now done.answers.items seat.me.0 result.0.me.0) }
    ensures packed { IfOk result.1 (λ done. PackedOften (length jobs.now) done.packs (Rose seat.me.0.failures result.0.me.0.failures) (Rose seat.me.0.bench_failures result.0.me.0.bench_failures)) }
    ensures none { OnErr result.1 (result.0 ≡ seat) }
    ensures sits { (result.0.table_id ≡ seat.table_id) × (result.0.me.1 ≡ []) }
    ensures rests { IsAtRest result.0.me.0 }
{
    let crew = match Crew::new(alloc, workers, jobs.len()) {
        Ok(crew) => crew,
        Err(error) => return (seat, Err(error)),
    };
    let mut seat = seat;
    let packer = split(board, &mut seat);
    let note = said_again(first);
    let packer_note = said_again(first);
    let times = jobs.len();
    let ((mut seat, answers), (packer, packs)) = thread::join(
        rt,
        move || -> (SharedSeat<D>, Vec<JobAnswer>)
            requires moment { micros ≤ 4102444799999999 }
            requires room { HasRoom (length jobs.now) crew }
            requires sits { (seat.table_id ≡ board.now.shared.table_id) × (board.now.shared.table_id.words ≡ 3) × (board.now.shared.table_id.slots ≡ 1) × (seat.me.1 ≡ []) }
            requires parts { 1 < seat.me.0.kin.parts }
            requires ready { IsReady layout floor (is_some (D.trace note.value)) seat.me.0 }
            ensures done { HaveWorked micros (workers_in crew) None jobs.entry.now result.1.items seat.me.0 result.0.me.0 }
            ensures sits { (result.0.table_id ≡ seat.table_id) × (result.0.me.1 ≡ []) }
        {
            do_by(
                rt, alloc, board, seat, layout, floor, &note, jobs, micros, gate, crew,
            )
        },
        move || -> (SharedSeat<D>, Packs)
            requires sits { (packer.table_id ≡ board.now.shared.table_id) × (board.now.shared.table_id.words ≡ 3) × (board.now.shared.table_id.slots ≡ 1) × (packer.me.1 ≡ []) }
            requires ready { IsReady layout floor (is_some (D.trace packer_note.value)) packer.me.0 }
            requires packs { packer.me.0.told ≡ true → packer.me.0.since.packs ≡ true }
            ensures packed { HasPacked times result.1 packer.me.0 result.0.me.0 }
            ensures sits { (result.0.table_id ≡ packer.table_id) × (result.0.me.1 ≡ []) }
        {
            pack_beside(
                rt,
                alloc,
                board,
                packer,
                layout,
                floor,
                packer_note,
                times,
                gate,
            )
        },
    );
    join(board, &mut seat, packer);
    (seat, Ok(PackedAnswers { answers, packs }))
}
