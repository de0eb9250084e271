//! The end of a job's transaction.
ghost use Rattle.std.specs.Prelude.{◌≡◌, ◌≤◌, false, None};
ghost use Rattle.fsfs_base.specs.Failures.{Rose};
ghost use Rattle.fsfs_machine.specs.declared.machine.Txn.{Txn as MachineTxn};
ghost use Rattle.fsfs_machine.specs.Kept.{IsIn};
ghost use Rattle.fsfs_machine.specs.Machine.{revisions};
ghost use Rattle.fsfs_tree.specs.Dated.{last_of};
ghost use Rattle.fsfs_turn.specs.Mountings.{RoseBy};
ghost use Rattle.fsfs_turn.specs.Views.{View};
ghost use Rattle.fsfs_turn.specs.Alone.{BringsNoDoubt};
ghost use Rattle.fsfs_repo.specs.BeginLabels.{IsUnlisted};
ghost use Rattle.fsfs_disk.specs.Transactions.Txns.{pair_of, txn_label};
ghost use Rattle.fsfs_repo.specs.Meaning.{IsTxnOf};
ghost use Rattle.fsfs_cli.specs.declared.faults.fault.Fault.TheVariants.{Outside};
ghost use Rattle.fsfs_jobs.specs.declared.answer.JobAnswer.TheVariants.{Stopped};
ghost use Rattle.fsfs_jobs.specs.Properties.{undated_properties};
ghost use Rattle.fsfs_job_run.specs.Faults.{fault_of_merge, answer_of_bar};
ghost use Rattle.fsfs_job_run.specs.TextReads.{IfAnswerFails};
ghost use Rattle.fsfs_job_run.specs.Serial.Jobs.{bench_told, tells_full};
ghost use Rattle.fsfs_job_run.specs.Running.{IsNoRequest, Stays};
ghost use Rattle.fsfs_job_run.specs.Ending.{EndsSo};

use fsfs_base::{Gate, Pairs};
use fsfs_cli::{Fault, LimitFault, OutsideFault};
use fsfs_disk::Disk;
use fsfs_draft::Own;
use fsfs_jobs::{JobAnswer, properties_of};
use fsfs_repo::{CommitAnswer, CommitBar, HeldNodes, Repo, Txn};
use fsfs_revision::{Refusal, Wrong};
use fsfs_script::CommitJob;
use fsfs_turn::{Owned, Turns};
use std::alloc::Global;

// The fault of a merge that met wrong bytes.
fn of_merge(wrong: Wrong) -> Fault
    ensures { result ≡ fault_of_merge wrong }
{
    match wrong {
        // This does not come: a merge reads revisions up to the youngest.
        Wrong::Refused(Refusal::NoRev { .. }) => Fault::Memory,
        other => Fault::from(other),
    }
}

/// What is told of a commit that added nothing.
pub fn barred(line: u64, bar: CommitBar) -> JobAnswer
    ensures { result ≡ answer_of_bar line bar }
{
    let fault = match bar {
        CommitBar::Conflict { path, head } => return JobAnswer::Conflict { head, path },
        CommitBar::RevsFull => Fault::Limit(LimitFault::RevsFull),
        CommitBar::Stuck(place) => Fault::Outside(OutsideFault::Stuck(place)),
        CommitBar::Wrong(wrong) => of_merge(wrong),
        CommitBar::Memory => Fault::Memory,
        // These do not come of edits that were done.
        CommitBar::PastLimit(_) => Fault::Memory,
        CommitBar::Lacking => Fault::Memory,
    };
    JobAnswer::Stopped { line, fault }
}

/// The outside failed.
pub fn stopped(line: u64, fault: OutsideFault) -> JobAnswer
    ensures { result ≡ Stopped line (Outside fault) }
{
    let fault = Fault::Outside(fault);
    JobAnswer::Stopped { line, fault }
}

/// Purges a transaction that is not committed. If that fails, its name stays listed.
pub(crate) fn purged<D: Disk, R>(
    mut repo: Repo<D>,
    rt: &R,
    txn: Txn<HeldNodes<D::Bench>>,
) -> Repo<D>
    ensures leaves { (v : View) → ⟦<Owned<D> as Turns<R>>⟧.knows repo.turns v → v.section ≡ None → IsIn (⟦<HeldNodes<D::Bench> as Own>⟧.txn txn.own).number.number v.given
        → (u : View) × ⟦<Owned<D> as Turns<R>>⟧.knows result.turns u × Stays v u × BringsNoDoubt v u × (u.pass.stuck ≡ v.pass.stuck) × (u.left ≡ v.left) }
    // Whatever is known: its label is dropped, unless a call of the disk failed.
    ensures listed { IsUnlisted (txn_label (pair_of (⟦<HeldNodes<D::Bench> as Own>⟧.txn txn.own))) (Rose (⟦<Owned<D> as Turns<R>>⟧.faults repo.turns) (⟦<Owned<D> as Turns<R>>⟧.faults result.turns)) (⟦<Owned<D> as Turns<R>>⟧.labels repo.turns) (⟦<Owned<D> as Turns<R>>⟧.labels result.turns) }
    ensures mounted { D.mount_path result.turns.disk ≡ D.mount_path repo.turns.disk }
    ensures benches { RoseBy (⟦<HeldNodes<D::Bench> as Own>⟧.faults txn.own) (D.bench_faults repo.turns.disk) (D.bench_faults result.turns.disk) }
    ensures later { ⟦<Owned<D> as Turns<R>>⟧.faults repo.turns ≤ ⟦<Owned<D> as Turns<R>>⟧.faults result.turns }
{
    let _ = repo.purge(rt, txn);
    repo
}

// Commits a transaction with these properties. One that is handed back is purged.
fn commit_with<D: Disk, R, G: Gate>(
    repo: Repo<D>,
    rt: &R,
    alloc: Global,
    txn: Txn<HeldNodes<D::Bench>>,
    job: &CommitJob,
    properties: Pairs,
    micros: u64,
    gate: &G,
) -> (Repo<D>, JobAnswer)
    requires moment { micros ≤ 4102444799999999 }
    requires sound { txn.spent ≡ None }
    requires undated { properties ≡ undated_properties job.now }
    ensures ends { (v : View) (x : MachineTxn) → ⟦<Owned<D> as Turns<R>>⟧.knows repo.turns v → v.section ≡ None → v.pass.least ≡ last_of (revisions v.seen) → IsIn x.name v.given
        → IsTxnOf v.seen (⟦<HeldNodes<D::Bench> as Own>⟧.txn txn.own) txn.base (⟦<HeldNodes<D::Bench> as Own>⟧.settled txn.own) x
        → EndsSo (⟦<Owned<D> as Turns<R>>⟧.knows result.0.turns) (Rose (⟦<Owned<D> as Turns<R>>⟧.faults repo.turns) (⟦<Owned<D> as Turns<R>>⟧.faults result.0.turns)) micros job.now result.1 x v }
    ensures plain { IsNoRequest result.1 }
    ensures unfull { tells_full result.1 ≡ false }
    // Whatever the disk tells: it is told to have failed only where the count of failed calls rose in this call.
    ensures cause { IfAnswerFails result.1 (Rose (⟦<Owned<D> as Turns<R>>⟧.faults repo.turns) (⟦<Owned<D> as Turns<R>>⟧.faults result.0.turns)) }
    // Nor is its transaction listed any more, unless a call of the disk failed.
    ensures listed { IsUnlisted (txn_label (pair_of (⟦<HeldNodes<D::Bench> as Own>⟧.txn txn.own))) (Rose (⟦<Owned<D> as Turns<R>>⟧.faults repo.turns) (⟦<Owned<D> as Turns<R>>⟧.faults result.0.turns)) (⟦<Owned<D> as Turns<R>>⟧.labels repo.turns) (⟦<Owned<D> as Turns<R>>⟧.labels result.0.turns) }
    ensures mounted { D.mount_path result.0.turns.disk ≡ D.mount_path repo.turns.disk }
    ensures benches { RoseBy (bench_told result.1) (D.bench_faults repo.turns.disk) (D.bench_faults result.0.turns.disk) }
    ensures later { ⟦<Owned<D> as Turns<R>>⟧.faults repo.turns ≤ ⟦<Owned<D> as Turns<R>>⟧.faults result.0.turns }
{
    let line = job.line;
    let (repo, answer) = repo.commit(rt, alloc, txn, properties, micros, gate);
    match answer {
        CommitAnswer::Committed { rev, .. } => (repo, JobAnswer::Committed(rev)),
        CommitAnswer::Barred { bar, txn } => (purged(repo, rt, txn), barred(line, bar)),
        CommitAnswer::DiskFault { place } => (repo, stopped(line, OutsideFault::Disk(place))),
        CommitAnswer::BenchFault => (repo, stopped(line, OutsideFault::Bench)),
    }
}

/// Commits a transaction in which the edits of a job were done. One that is handed back is purged.
pub(crate) fn commit_edited<D: Disk, R, G: Gate>(
    repo: Repo<D>,
    rt: &R,
    alloc: Global,
    txn: Txn<HeldNodes<D::Bench>>,
    job: &CommitJob,
    micros: u64,
    gate: &G,
) -> (Repo<D>, JobAnswer)
    requires moment { micros ≤ 4102444799999999 }
    requires sound { txn.spent ≡ None }
    ensures ends { (v : View) (x : MachineTxn) → ⟦<Owned<D> as Turns<R>>⟧.knows repo.turns v → v.section ≡ None → v.pass.least ≡ last_of (revisions v.seen) → IsIn x.name v.given
        → IsTxnOf v.seen (⟦<HeldNodes<D::Bench> as Own>⟧.txn txn.own) txn.base (⟦<HeldNodes<D::Bench> as Own>⟧.settled txn.own) x
        → EndsSo (⟦<Owned<D> as Turns<R>>⟧.knows result.0.turns) (Rose (⟦<Owned<D> as Turns<R>>⟧.faults repo.turns) (⟦<Owned<D> as Turns<R>>⟧.faults result.0.turns)) micros job.now result.1 x v }
    ensures plain { IsNoRequest result.1 }
    ensures unfull { tells_full result.1 ≡ false }
    // Whatever the disk tells: it is told to have failed only where the count of failed calls rose in this call.
    ensures cause { IfAnswerFails result.1 (Rose (⟦<Owned<D> as Turns<R>>⟧.faults repo.turns) (⟦<Owned<D> as Turns<R>>⟧.faults result.0.turns)) }
    // Nor is its transaction listed any more, unless a call of the disk failed.
    ensures listed { IsUnlisted (txn_label (pair_of (⟦<HeldNodes<D::Bench> as Own>⟧.txn txn.own))) (Rose (⟦<Owned<D> as Turns<R>>⟧.faults repo.turns) (⟦<Owned<D> as Turns<R>>⟧.faults result.0.turns)) (⟦<Owned<D> as Turns<R>>⟧.labels repo.turns) (⟦<Owned<D> as Turns<R>>⟧.labels result.0.turns) }
    ensures mounted { D.mount_path result.0.turns.disk ≡ D.mount_path repo.turns.disk }
    ensures benches { RoseBy (bench_told result.1) (D.bench_faults repo.turns.disk) (D.bench_faults result.0.turns.disk) }
    ensures later { ⟦<Owned<D> as Turns<R>>⟧.faults repo.turns ≤ ⟦<Owned<D> as Turns<R>>⟧.faults result.0.turns }
{
    match properties_of(alloc, job) {
        Ok(properties) => commit_with(repo, rt, alloc, txn, job, properties, micros, gate),
        Err(_) => {
            let line = job.line;
            let fault = Fault::Memory;
            (purged(repo, rt, txn), JobAnswer::Stopped { line, fault })
        }
    }
}
