//! The revision that a job is about.
ghost use Rattle.std.specs.Prelude.{◌≡◌, ◌≤◌, ◌<◌, ℕ, None, IfOk, IfErr};
ghost use Rattle.fsfs_tree.specs.Dated.{last_of};
ghost use Rattle.fsfs_cli.specs.declared.faults.fault.Fault.TheVariants.{Request};
ghost use Rattle.fsfs_cli.specs.declared.faults.request_fault.RequestFault.TheVariants.{NoRev};
ghost use Rattle.fsfs_machine.specs.Machine.{revisions};
ghost use Rattle.fsfs_turn.specs.Views.{View};
ghost use Rattle.fsfs_jobs.specs.Serial.{base_of};
ghost use Rattle.fsfs_job_run.specs.Running.{HasLooked, LacksBase};

use fsfs_base::RevNum;
use fsfs_cli::{Fault, RequestFault};
use fsfs_disk::Disk;
use fsfs_repo::Repo;
use fsfs_script::Base;
use fsfs_turn::{Owned, Turns};

/// The revision of this number, up to the youngest.
pub fn numbered(asked: u64, youngest: RevNum) -> Result<RevNum, Fault>
    ensures there { IfOk result (λ rev. (rev ≡ asked) × (rev ≤ youngest)) }
    ensures lacks { IfErr result (λ fault. (youngest < asked) × (fault ≡ Request (NoRev asked youngest))) }
{
    match RevNum::new(asked) {
        Some(rev) if rev <= youngest => Ok(rev),
        _ => Err(Fault::Request(RequestFault::NoRev { asked, youngest })),
    }
}

/// The revision that a job is about: the youngest is looked at. An `Err` is that there is no such revision.
pub(crate) fn base_of<D: Disk>(repo: &mut Repo<D>, base: Base) -> Result<RevNum, Fault>
    ensures looked { (v : View) → ⟦<Owned<D> as Turns<()>>⟧.knows repo.old.turns v → v.section ≡ None
        → (u : View) × ⟦<Owned<D> as Turns<()>>⟧.knows repo.new.turns u × HasLooked v u }
    // One of those that the pass has seen, which are all that there are.
    ensures base { (v : View) → ⟦<Owned<D> as Turns<()>>⟧.knows repo.old.turns v → v.section ≡ None
        → IfOk result (λ rev. (rev ≡ base_of base (last_of (revisions v.seen))) × (rev ≤ last_of (revisions v.seen))) }
    ensures lacks { (v : View) → ⟦<Owned<D> as Turns<()>>⟧.knows repo.old.turns v → v.section ≡ None → IfErr result (LacksBase base (last_of (revisions v.seen))) }
    // Whatever the disk tells.
    ensures asked { IfErr result (λ fault. (asked : ℕ) × (youngest : ℕ) × (fault ≡ Request (NoRev asked youngest))) }
    ensures same { (⟦<Owned<D> as Turns<()>>⟧.store repo.new.turns).below ≡ (⟦<Owned<D> as Turns<()>>⟧.store repo.old.turns).below }
    ensures faults { ⟦<Owned<D> as Turns<()>>⟧.faults repo.new.turns ≡ ⟦<Owned<D> as Turns<()>>⟧.faults repo.old.turns }
{
    let youngest = repo.youngest();
    match base {
        Base::Youngest => Ok(youngest),
        Base::Number(asked) => numbered(asked, youngest),
    }
}
