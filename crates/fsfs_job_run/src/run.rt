//! The jobs of a script one after another.
ghost use Rattle.std.specs.Prelude.{◌≡◌, ◌⊎◌, ◌≤◌, ℕ, true, None, length, IfOk, OnErr};
ghost use Rattle.fsfs_base.specs.Failures.{Rose};
ghost use Rattle.fsfs_turn.specs.Mountings.{RoseBy};
ghost use Rattle.fsfs_turn.specs.Views.{View};
ghost use Rattle.fsfs_repo.specs.BeginSteps.{HasLastName};
ghost use Rattle.fsfs_repo.specs.Owned.Crashes.{CrashesLeave};
ghost use Rattle.fsfs_job_run.specs.Serial.Jobs.{bench_faults_in, tell_full};
ghost use Rattle.fsfs_job_run.specs.Serial.Listed.{LeavesListed};
ghost use Rattle.fsfs_job_run.specs.Workers.Lines.{disk_faults_in};
ghost use Rattle.fsfs_job_run.specs.Running.{DoAll, HasGiven};

use crate::JobGate;
use crate::job::do_job;
use fsfs_base::{Gate, GatePlace};
use fsfs_disk::Disk;
use fsfs_jobs::JobAnswer;
use fsfs_repo::Repo;
use fsfs_script::Job;
use fsfs_turn::{Owned, Turns};
use std::alloc::{AllocError, Global};

/// Does the jobs of a script one after another, and gives the answer of each. The gate is passed behind each answer. The room for
/// the answers is taken first: an `Err` is for want of it, and then no job was done.
pub fn run_jobs<D: Disk, R, G: Gate>(
    mut repo: Repo<D>,
    rt: &R,
    alloc: Global,
    jobs: &[Job],
    micros: u64,
    gate: &G,
) -> (Repo<D>, Result<Vec<JobAnswer>, AllocError>)
    requires moment { micros ≤ 4102444799999999 }
    // Over what the pass knows, in no section: jobs one after another, and behind the last it is in none.
    ensures does { (v : View) → ⟦<Owned<D> as Turns<R>>⟧.knows repo.turns v → v.section ≡ None
        → IfOk result.1 (λ answers. DoAll (⟦<Owned<D> as Turns<R>>⟧.knows result.0.turns) micros jobs.now answers.items v) }
    // An answer tells that names are full only where no name is left: then none is behind the last job either.
    ensures full { (v : View) → ⟦<Owned<D> as Turns<R>>⟧.knows repo.turns v → v.section ≡ None
        → IfOk result.1 (λ answers. tell_full answers.items ≡ true → HasLastName (⟦<Owned<D> as Turns<R>>⟧.store result.0.turns)) }
    ensures each { IfOk result.1 (λ answers. length answers.items ≡ length jobs.now) }
    ensures none { OnErr result.1 (result.0 ≡ repo) }
    ensures crashes { (u : View) → ⟦<Owned<D> as Turns<R>>⟧.knows result.0.turns u → CrashesLeave result.0.turns.layout (D.trace result.0.turns.disk) u }
    // Whatever the disk tells: as many calls of it failed in this run as answers tell of, or more.
    ensures cause { IfOk result.1 (λ answers. RoseBy (disk_faults_in answers.items) (⟦<Owned<D> as Turns<R>>⟧.faults repo.turns) (⟦<Owned<D> as Turns<R>>⟧.faults result.0.turns)) }
    // No transaction that they began stays listed, and all others do, unless a call of the disk failed in this run. Where a name is known to be given,
    // those that they begin have greater numbers.
    ensures listed { (least : ℕ) → HasGiven (⟦<Owned<D> as Turns<R>>⟧.knows repo.turns) least → LeavesListed least (length jobs.now) (⟦<Owned<D> as Turns<R>>⟧.labels repo.turns) (⟦<Owned<D> as Turns<R>>⟧.labels result.0.turns) ⊎ Rose (⟦<Owned<D> as Turns<R>>⟧.faults repo.turns) (⟦<Owned<D> as Turns<R>>⟧.faults result.0.turns) }
    ensures mounted { D.mount_path result.0.turns.disk ≡ D.mount_path repo.turns.disk }
    // As many calls of benches failed as answers tell of one, or more.
    ensures benches { IfOk result.1 (λ answers. RoseBy (bench_faults_in answers.items) (D.bench_faults repo.turns.disk) (D.bench_faults result.0.turns.disk)) }
    ensures later { ⟦<Owned<D> as Turns<R>>⟧.faults repo.turns ≤ ⟦<Owned<D> as Turns<R>>⟧.faults result.0.turns }
{
    let mut answers = match Vec::with_capacity(alloc, jobs.len()) {
        Ok(answers) => answers,
        Err(error) => return (repo, Err(error)),
    };
    let mut number: u64 = 0;
    for job in jobs {
        number += 1;
        let job_gate = JobGate::new(gate, number);
        let (after, answer) = do_job(repo, rt, alloc, job, micros, &job_gate);
        repo = after;
        gate.at(GatePlace::AfterJob, number);
        answers.push_reserved(answer);
    }
    (repo, Ok(answers))
}
