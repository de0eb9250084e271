//! One job over a repository.
ghost use Rattle.std.specs.Prelude.{◌≡◌, ◌⊎◌, ◌≤◌, ℕ, true, None};
ghost use Rattle.fsfs_base.specs.Failures.{Rose};
ghost use Rattle.fsfs_turn.specs.Mountings.{RoseBy};
ghost use Rattle.fsfs_turn.specs.Views.{View};
ghost use Rattle.fsfs_repo.specs.BeginSteps.{HasLastName};
ghost use Rattle.fsfs_repo.specs.Owned.Crashes.{CrashesLeave};
ghost use Rattle.fsfs_job_run.specs.TextReads.{IfAnswerFails};
ghost use Rattle.fsfs_job_run.specs.Serial.Jobs.{bench_told, tells_full};
ghost use Rattle.fsfs_job_run.specs.Serial.Listed.{LeavesListed};
ghost use Rattle.fsfs_job_run.specs.Running.{DoesSo, HasGiven, IfCounted, StopsOver};

use crate::commit_job::commit_job;
use crate::reads::base_text::read_text;
use fsfs_base::Gate;
use fsfs_disk::Disk;
use fsfs_jobs::JobAnswer;
use fsfs_repo::Repo;
use fsfs_script::Job;
use fsfs_turn::{Owned, Turns};
use std::alloc::Global;

/// Does a job, and tells what became of it. A revision that it adds has as its date the moment, in microseconds after
/// 1970-01-01T00:00:00 UTC, in a year up to 2099. A transaction that is not committed is purged; if that fails too, its name stays
/// listed.
pub fn do_job<D: Disk, R, G: Gate>(
    repo: Repo<D>,
    rt: &R,
    alloc: Global,
    job: &Job,
    micros: u64,
    gate: &G,
) -> (Repo<D>, JobAnswer)
    requires moment { micros ≤ 4102444799999999 }
    // Over what the pass knows, in no section: what the job did, by the definition of jobs, or that it failed.
    ensures does { (v : View) → ⟦<Owned<D> as Turns<R>>⟧.knows repo.turns v → v.section ≡ None
        → DoesSo (⟦<Owned<D> as Turns<R>>⟧.knows result.0.turns) (Rose (⟦<Owned<D> as Turns<R>>⟧.faults repo.turns) (⟦<Owned<D> as Turns<R>>⟧.faults result.0.turns)) micros job.now result.1 v }
    // Where it is refused for mergeinfo: by the flat model, or for counts in the bytes.
    ensures counted { (v : View) → ⟦<Owned<D> as Turns<R>>⟧.knows repo.turns v → v.section ≡ None → IfCounted job.now result.1 (StopsOver v.seen) }
    // Where it is told that names are full, no name is left; and where none is, a job leaves the repository as it was.
    ensures full { (v : View) → ⟦<Owned<D> as Turns<R>>⟧.knows repo.turns v → v.section ≡ None → tells_full result.1 ≡ true → HasLastName (⟦<Owned<D> as Turns<R>>⟧.store repo.turns) }
    ensures stays { HasLastName (⟦<Owned<D> as Turns<R>>⟧.store repo.turns) → (⟦<Owned<D> as Turns<R>>⟧.store result.0.turns).below ≡ (⟦<Owned<D> as Turns<R>>⟧.store repo.turns).below }
    // What is known then says what a crash leaves, at each moment of the job too.
    ensures crashes { (u : View) → ⟦<Owned<D> as Turns<R>>⟧.knows result.0.turns u → CrashesLeave result.0.turns.layout (D.trace result.0.turns.disk) u }
    // Whatever the disk tells: it is told to have failed only where the count of failed calls rose in this job.
    ensures cause { IfAnswerFails result.1 (Rose (⟦<Owned<D> as Turns<R>>⟧.faults repo.turns) (⟦<Owned<D> as Turns<R>>⟧.faults result.0.turns)) }
    // Whatever is known and whatever it answers: no transaction that it began stays listed, and all others do, unless a call of the disk failed in it.
    // Where a name is known to be given, the one that it begins has a greater number.
    ensures listed { (least : ℕ) → HasGiven (⟦<Owned<D> as Turns<R>>⟧.knows repo.turns) least → LeavesListed least 1 (⟦<Owned<D> as Turns<R>>⟧.labels repo.turns) (⟦<Owned<D> as Turns<R>>⟧.labels result.0.turns) ⊎ Rose (⟦<Owned<D> as Turns<R>>⟧.faults repo.turns) (⟦<Owned<D> as Turns<R>>⟧.faults result.0.turns) }
    ensures mounted { D.mount_path result.0.turns.disk ≡ D.mount_path repo.turns.disk }
    // Nor is a bench told to have failed, but where the count of those rose.
    ensures benches { RoseBy (bench_told result.1) (D.bench_faults repo.turns.disk) (D.bench_faults result.0.turns.disk) }
    ensures later { ⟦<Owned<D> as Turns<R>>⟧.faults repo.turns ≤ ⟦<Owned<D> as Turns<R>>⟧.faults result.0.turns }
{
    match job {
        Job::Commit(job) => commit_job(repo, rt, alloc, job, micros, gate),
        Job::Read(job) => read_text(repo, rt, alloc, job, gate),
    }
}
