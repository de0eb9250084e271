//! A job that reads.
ghost use Rattle.std.specs.Prelude.{◌≡◌, ◌≤◌, ℕ, false, None};
ghost use Rattle.fsfs_base.specs.Failures.{Rose};
ghost use Rattle.fsfs_turn.specs.Mountings.{RoseBy};
ghost use Rattle.fsfs_turn.specs.Views.{View};
ghost use Rattle.fsfs_script.specs.declared.job_lines.job.Job.TheVariants as jobs;
ghost use Rattle.fsfs_job_run.specs.TextReads.{IfAnswerFails};
ghost use Rattle.fsfs_job_run.specs.Serial.Jobs.{bench_told, tells_full};
ghost use Rattle.fsfs_job_run.specs.Running.{DoesSo};

use crate::bases::base_of;
use crate::read_job;
use fsfs_base::{Gate, GatePlace};
use fsfs_disk::Disk;
use fsfs_jobs::JobAnswer;
use fsfs_repo::Repo;
use fsfs_script::ReadJob;
use fsfs_turn::{Owned, Turns};
use std::alloc::Global;

/// Reads the text of a file in a revision.
pub(crate) fn read_text<D: Disk, R, G: Gate>(
    mut repo: Repo<D>,
    rt: &R,
    alloc: Global,
    job: &ReadJob,
    gate: &G,
) -> (Repo<D>, JobAnswer)
    ensures does { (v : View) (moment : ℕ) → ⟦<Owned<D> as Turns<R>>⟧.knows repo.turns v → v.section ≡ None
        → DoesSo (⟦<Owned<D> as Turns<R>>⟧.knows result.0.turns) (Rose (⟦<Owned<D> as Turns<R>>⟧.faults repo.turns) (⟦<Owned<D> as Turns<R>>⟧.faults result.0.turns)) moment (jobs.Read job.now) result.1 v }
    ensures cause { IfAnswerFails result.1 (Rose (⟦<Owned<D> as Turns<R>>⟧.faults repo.turns) (⟦<Owned<D> as Turns<R>>⟧.faults result.0.turns)) }
    ensures unfull { tells_full result.1 ≡ false }
    // A reading leaves all as it was.
    ensures stays { (⟦<Owned<D> as Turns<R>>⟧.store result.0.turns).below ≡ (⟦<Owned<D> as Turns<R>>⟧.store repo.turns).below }
    ensures listed { ⟦<Owned<D> as Turns<R>>⟧.labels result.0.turns ≡ ⟦<Owned<D> as Turns<R>>⟧.labels repo.turns }
    ensures mounted { D.mount_path result.0.turns.disk ≡ D.mount_path repo.turns.disk }
    ensures benches { RoseBy (bench_told result.1) (D.bench_faults repo.turns.disk) (D.bench_faults result.0.turns.disk) }
    ensures later { ⟦<Owned<D> as Turns<R>>⟧.faults repo.turns ≤ ⟦<Owned<D> as Turns<R>>⟧.faults result.0.turns }
{
    let base = match base_of(&mut repo, job.base) {
        Ok(base) => base,
        Err(fault) => {
            let line = job.line;
            return (repo, JobAnswer::Stopped { line, fault });
        }
    };
    gate.at(GatePlace::InRead, 0);
    let mut reader = repo.reader(rt, alloc);
    let answer = read_job(alloc, &mut reader, base, job);
    (Repo::of_reader(reader), answer)
}
