//! A job that commits.
ghost use Rattle.std.specs.Prelude.{◌≡◌, ◌⊎◌, ◌≤◌, ◌<◌, ℕ, [], true, false, None, length, OnOk, IfErr};
ghost use Rattle.fsfs_base.specs.Failures.{Rose};
ghost use Rattle.fsfs_tree.specs.Dated.{last_of};
ghost use Rattle.fsfs_tree.specs.Revisions.{tree_of};
ghost use Rattle.fsfs_machine.specs.Machine.{revisions};
ghost use Rattle.fsfs_machine.specs.Kept.{IsIn};
ghost use Rattle.fsfs_turn.specs.Bytes.{bytes_of};
ghost use Rattle.fsfs_turn.specs.Mountings.{RoseBy};
ghost use Rattle.fsfs_turn.specs.Views.{View};
ghost use Rattle.fsfs_repo.specs.BeginLabels.{IsUnlisted};
ghost use Rattle.fsfs_repo.specs.BeginSteps.{HasLastName};
ghost use Rattle.fsfs_disk.specs.Transactions.Txns.{pair_of, txn_label};
ghost use Rattle.fsfs_repo.specs.TxnStanding.{Stands};
ghost use Rattle.fsfs_jobs.specs.JobEdits.Editing.{AreEditing, IfBench, IfDisk};
ghost use Rattle.fsfs_job_run.specs.TextReads.{IfAnswerFails};
ghost use Rattle.fsfs_job_run.specs.Serial.Jobs.{bench_told, tells_full};
ghost use Rattle.fsfs_job_run.specs.Serial.Listed.{LeavesListed};
ghost use Rattle.fsfs_job_run.specs.Running.{CommitsSo, HasGiven};
ghost use Rattle.fsfs_jobs.specs.Serial.{base_of as base_in};

use crate::bases::base_of;
use crate::begin_faults::of_begin;
use crate::ending::{commit_edited, purged};
use fsfs_base::{Gate, RevNum};
use fsfs_disk::Disk;
use fsfs_draft::Own;
use fsfs_jobs::{JobAnswer, Stopped, do_edits};
use fsfs_repo::{HeldNodes, Repo, Txn};
use fsfs_script::{CommitJob, Steps};
use fsfs_turn::{Owned, Turns};
use std::alloc::Global;

// Does the edits of a job over the repository's own book.
fn edit<D: Disk, R>(
    repo: Repo<D>,
    rt: &R,
    alloc: Global,
    txn: &mut Txn<HeldNodes<D::Bench>>,
    steps: &Steps,
) -> (Repo<D>, Result<(), Stopped>)
    requires lasting { txn.old.spent ≡ None }
    // What was done, of a transaction that stood for the tree of its base.
    ensures edits { (v : View) → ⟦<Owned<D> as Turns<R>>⟧.knows repo.turns v → txn.old.base < length v.seen
        → Stands (bytes_of v.seen) (tree_of (revisions v.seen)) (last_of (revisions v.seen)) txn.old.base (⟦<HeldNodes<D::Bench> as Own>⟧.txn txn.old.own) (⟦<HeldNodes<D::Bench> as Own>⟧.settled txn.old.own) (tree_of (revisions v.seen) txn.old.base) []
        → AreEditing steps.now (⟦<HeldNodes<D::Bench> as Own>⟧.txn txn.old.own) txn.old.base (⟦<HeldNodes<D::Bench> as Own>⟧.settled txn.new.own) result.1 (bytes_of v.seen) (tree_of (revisions v.seen)) (last_of (revisions v.seen)) (tree_of (revisions v.seen) txn.old.base) [] }
    // Reading changes nothing that the pass knows.
    ensures known { (v : View) → ⟦<Owned<D> as Turns<R>>⟧.knows repo.turns v → ⟦<Owned<D> as Turns<R>>⟧.knows result.0.turns v }
    ensures lasts { OnOk result.1 (txn.new.spent ≡ None) }
    ensures base { txn.new.base ≡ txn.old.base }
    ensures name { ⟦<HeldNodes<D::Bench> as Own>⟧.txn txn.new.own ≡ ⟦<HeldNodes<D::Bench> as Own>⟧.txn txn.old.own }
    ensures cause { IfErr result.1 (λ stopped. IfDisk stopped.fault (Rose (⟦<Owned<D> as Turns<R>>⟧.faults repo.turns) (⟦<Owned<D> as Turns<R>>⟧.faults result.0.turns))) }
    // Nor any label that is kept: an edit works on its bench.
    ensures listed { ⟦<Owned<D> as Turns<R>>⟧.labels result.0.turns ≡ ⟦<Owned<D> as Turns<R>>⟧.labels repo.turns }
    ensures mounted { D.mount_path result.0.turns.disk ≡ D.mount_path repo.turns.disk }
    ensures benches { D.bench_faults result.0.turns.disk ≡ D.bench_faults repo.turns.disk }
    ensures failed { IfErr result.1 (λ stopped. IfBench stopped.fault (0 < ⟦<HeldNodes<D::Bench> as Own>⟧.faults txn.new.own)) }
    ensures later { ⟦<Owned<D> as Turns<R>>⟧.faults repo.turns ≤ ⟦<Owned<D> as Turns<R>>⟧.faults result.0.turns }
{
    let mut reader = repo.reader(rt, alloc);
    let done = do_edits(alloc, &mut reader, txn, steps.as_slice());
    (Repo::of_reader(reader), done)
}

// Edits the transaction that was begun, and commits it; one that is refused is purged.
fn edit_and_commit<D: Disk, R, G: Gate>(
    repo: Repo<D>,
    rt: &R,
    alloc: Global,
    mut txn: Txn<HeldNodes<D::Bench>>,
    job: &CommitJob,
    micros: u64,
    gate: &G,
) -> (Repo<D>, JobAnswer)
    requires moment { micros ≤ 4102444799999999 }
    requires fresh { txn.spent ≡ None }
    // The pass was told the youngest revision, and has given the name.
    ensures does { (v : View) → ⟦<Owned<D> as Turns<R>>⟧.knows repo.turns v → v.section ≡ None → v.pass.least ≡ last_of (revisions v.seen) → IsIn (⟦<HeldNodes<D::Bench> as Own>⟧.txn txn.own).number.number v.given
        → txn.base < length v.seen → txn.base ≡ base_in job.now.base (last_of (revisions v.seen))
        → Stands (bytes_of v.seen) (tree_of (revisions v.seen)) (last_of (revisions v.seen)) txn.base (⟦<HeldNodes<D::Bench> as Own>⟧.txn txn.own) (⟦<HeldNodes<D::Bench> as Own>⟧.settled txn.own) (tree_of (revisions v.seen) txn.base) []
        → CommitsSo (⟦<Owned<D> as Turns<R>>⟧.knows result.0.turns) (Rose (⟦<Owned<D> as Turns<R>>⟧.faults repo.turns) (⟦<Owned<D> as Turns<R>>⟧.faults result.0.turns)) micros job.now result.1 v }
    ensures cause { IfAnswerFails result.1 (Rose (⟦<Owned<D> as Turns<R>>⟧.faults repo.turns) (⟦<Owned<D> as Turns<R>>⟧.faults result.0.turns)) }
    ensures unfull { (v : View) → ⟦<Owned<D> as Turns<R>>⟧.knows repo.turns v → txn.base < length v.seen
        → Stands (bytes_of v.seen) (tree_of (revisions v.seen)) (last_of (revisions v.seen)) txn.base (⟦<HeldNodes<D::Bench> as Own>⟧.txn txn.own) (⟦<HeldNodes<D::Bench> as Own>⟧.settled txn.own) (tree_of (revisions v.seen) txn.base) []
        → tells_full result.1 ≡ false }
    ensures listed { IsUnlisted (txn_label (pair_of (⟦<HeldNodes<D::Bench> as Own>⟧.txn txn.own))) (Rose (⟦<Owned<D> as Turns<R>>⟧.faults repo.turns) (⟦<Owned<D> as Turns<R>>⟧.faults result.0.turns)) (⟦<Owned<D> as Turns<R>>⟧.labels repo.turns) (⟦<Owned<D> as Turns<R>>⟧.labels result.0.turns) }
    ensures mounted { D.mount_path result.0.turns.disk ≡ D.mount_path repo.turns.disk }
    ensures benches { RoseBy (bench_told result.1) (D.bench_faults repo.turns.disk) (D.bench_faults result.0.turns.disk) }
    ensures later { ⟦<Owned<D> as Turns<R>>⟧.faults repo.turns ≤ ⟦<Owned<D> as Turns<R>>⟧.faults result.0.turns }
{
    let (repo, done) = edit(repo, rt, alloc, &mut txn, &job.steps);
    match done {
        Ok(()) => commit_edited(repo, rt, alloc, txn, job, micros, gate),
        Err(Stopped { line, fault }) => (purged(repo, rt, txn), JobAnswer::Stopped { line, fault }),
    }
}

// Begins on a revision that there is.
fn begin_and_commit<D: Disk, R, G: Gate>(
    repo: Repo<D>,
    rt: &R,
    alloc: Global,
    base: RevNum,
    job: &CommitJob,
    micros: u64,
    gate: &G,
) -> (Repo<D>, JobAnswer)
    requires moment { micros ≤ 4102444799999999 }
    ensures does { (v : View) → ⟦<Owned<D> as Turns<R>>⟧.knows repo.turns v → v.section ≡ None → v.pass.least ≡ last_of (revisions v.seen) → base ≡ base_in job.now.base (last_of (revisions v.seen)) → base ≤ last_of (revisions v.seen)
        → CommitsSo (⟦<Owned<D> as Turns<R>>⟧.knows result.0.turns) (Rose (⟦<Owned<D> as Turns<R>>⟧.faults repo.turns) (⟦<Owned<D> as Turns<R>>⟧.faults result.0.turns)) micros job.now result.1 v }
    ensures cause { IfAnswerFails result.1 (Rose (⟦<Owned<D> as Turns<R>>⟧.faults repo.turns) (⟦<Owned<D> as Turns<R>>⟧.faults result.0.turns)) }
    // Names are told to be full only where no name is left, and then all stays as it was.
    ensures full { (v : View) → ⟦<Owned<D> as Turns<R>>⟧.knows repo.turns v → v.section ≡ None → tells_full result.1 ≡ true → HasLastName (⟦<Owned<D> as Turns<R>>⟧.store repo.turns) }
    ensures stays { HasLastName (⟦<Owned<D> as Turns<R>>⟧.store repo.turns) → (⟦<Owned<D> as Turns<R>>⟧.store result.0.turns).below ≡ (⟦<Owned<D> as Turns<R>>⟧.store repo.turns).below }
    // Whatever is known: the transaction that was begun is listed no more, unless a call of the disk failed.
    ensures listed { (least : ℕ) → HasGiven (⟦<Owned<D> as Turns<R>>⟧.knows repo.turns) least → LeavesListed least 1 (⟦<Owned<D> as Turns<R>>⟧.labels repo.turns) (⟦<Owned<D> as Turns<R>>⟧.labels result.0.turns) ⊎ Rose (⟦<Owned<D> as Turns<R>>⟧.faults repo.turns) (⟦<Owned<D> as Turns<R>>⟧.faults result.0.turns) }
    ensures mounted { D.mount_path result.0.turns.disk ≡ D.mount_path repo.turns.disk }
    ensures benches { RoseBy (bench_told result.1) (D.bench_faults repo.turns.disk) (D.bench_faults result.0.turns.disk) }
    ensures later { ⟦<Owned<D> as Turns<R>>⟧.faults repo.turns ≤ ⟦<Owned<D> as Turns<R>>⟧.faults result.0.turns }
{
    let (repo, begun) = repo.begin(rt, alloc, base);
    match begun {
        Ok(txn) => edit_and_commit(repo, rt, alloc, txn, job, micros, gate),
        Err(why) => {
            let line = job.line;
            let fault = of_begin(why);
            (repo, JobAnswer::Stopped { line, fault })
        }
    }
}

/// Does the edits of a job in a transaction of its own, and commits it.
pub(crate) fn commit_job<D: Disk, R, G: Gate>(
    mut repo: Repo<D>,
    rt: &R,
    alloc: Global,
    job: &CommitJob,
    micros: u64,
    gate: &G,
) -> (Repo<D>, JobAnswer)
    requires moment { micros ≤ 4102444799999999 }
    ensures does { (v : View) → ⟦<Owned<D> as Turns<R>>⟧.knows repo.turns v → v.section ≡ None
        → CommitsSo (⟦<Owned<D> as Turns<R>>⟧.knows result.0.turns) (Rose (⟦<Owned<D> as Turns<R>>⟧.faults repo.turns) (⟦<Owned<D> as Turns<R>>⟧.faults result.0.turns)) micros job.now result.1 v }
    ensures cause { IfAnswerFails result.1 (Rose (⟦<Owned<D> as Turns<R>>⟧.faults repo.turns) (⟦<Owned<D> as Turns<R>>⟧.faults result.0.turns)) }
    // Names are told to be full only where no name is left, and then all stays as it was.
    ensures full { (v : View) → ⟦<Owned<D> as Turns<R>>⟧.knows repo.turns v → v.section ≡ None → tells_full result.1 ≡ true → HasLastName (⟦<Owned<D> as Turns<R>>⟧.store repo.turns) }
    ensures stays { HasLastName (⟦<Owned<D> as Turns<R>>⟧.store repo.turns) → (⟦<Owned<D> as Turns<R>>⟧.store result.0.turns).below ≡ (⟦<Owned<D> as Turns<R>>⟧.store repo.turns).below }
    ensures listed { (least : ℕ) → HasGiven (⟦<Owned<D> as Turns<R>>⟧.knows repo.turns) least → LeavesListed least 1 (⟦<Owned<D> as Turns<R>>⟧.labels repo.turns) (⟦<Owned<D> as Turns<R>>⟧.labels result.0.turns) ⊎ Rose (⟦<Owned<D> as Turns<R>>⟧.faults repo.turns) (⟦<Owned<D> as Turns<R>>⟧.faults result.0.turns) }
    ensures mounted { D.mount_path result.0.turns.disk ≡ D.mount_path repo.turns.disk }
    ensures benches { RoseBy (bench_told result.1) (D.bench_faults repo.turns.disk) (D.bench_faults result.0.turns.disk) }
    ensures later { ⟦<Owned<D> as Turns<R>>⟧.faults repo.turns ≤ ⟦<Owned<D> as Turns<R>>⟧.faults result.0.turns }
{
    match base_of(&mut repo, job.base) {
        Ok(base) => begin_and_commit(repo, rt, alloc, base, job, micros, gate),
        Err(fault) => {
            let line = job.line;
            (repo, JobAnswer::Stopped { line, fault })
        }
    }
}
