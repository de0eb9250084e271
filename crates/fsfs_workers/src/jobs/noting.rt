//! What is noted of a job's transaction before its commit.
ghost use Rattle.std.specs.Prelude.{◌≡◌, true};
ghost use Rattle.fsfs_machine.specs.declared.machine.Txn.{Txn as MachineTxn};
ghost use Rattle.fsfs_turn.specs.Views.{View};
ghost use Rattle.fsfs_job_run.specs.TxnStandings.{NotesOne};
ghost use Rattle.fsfs_workers.specs.Working.{IsEditedNoted, IsEditedTxn};

use fsfs_base::{Claims, Note, RevNum};
use fsfs_draft::Own;
use fsfs_job_run::{HeldNodes, Standing, Txn};
use fsfs_script::CommitJob;
use fsfs_turn::Turns;

// A transaction in which the edits of a job were done, as it stands over what these turns know.
#[derive(Drop)]
struct Edited<'a, R, T: Turns<R>> {
    rt: &'a R,
    turns: &'a T,
    txn: &'a Txn<HeldNodes<T::Bench>>,
    job: &'a CommitJob,
    last: RevNum,
}

impl<'a, R, T: Turns<R>> Claims<Option<Standing>> for Edited<'a, R, T> {
    ghost use Rattle.fsfs_job_run.specs.TxnStandings.{NotesOne};
    ghost use Rattle.fsfs_workers.specs.Working.{IsEditedNoted};

    ghost claims = { λ e value. NotesOne (T.bound e.turns.now) value (λ s. IsEditedNoted (T.knows e.turns.now) e.job.now e.last (⟦<HeldNodes<T::Bench> as Own>⟧.txn e.txn.now.own) e.txn.now.base (⟦<HeldNodes<T::Bench> as Own>⟧.settled e.txn.now.own) s) };
}

/// Notes a transaction for which this one stands, in which the edits of the job were done over revisions up to this one, where others rest
/// on the turns; else none is noted.
pub(crate) fn note_edited<R, T: Turns<R>>(
    rt: &R,
    turns: &T,
    txn: &Txn<HeldNodes<T::Bench>>,
    job: &CommitJob,
    last: RevNum,
) -> Note<Option<Standing>>
    requires due { T.bound turns.now ≡ true → (v : View) × (x : MachineTxn) × T.knows turns.now v × IsEditedTxn job.now last (⟦<HeldNodes<T::Bench> as Own>⟧.txn txn.now.own) txn.now.base (⟦<HeldNodes<T::Bench> as Own>⟧.settled txn.now.own) v x }
    ensures { NotesOne (T.bound turns.now) result.value (λ s. IsEditedNoted (T.knows turns.now) job.now last (⟦<HeldNodes<T::Bench> as Own>⟧.txn txn.now.own) txn.now.base (⟦<HeldNodes<T::Bench> as Own>⟧.settled txn.now.own) s) }
{
    Note::some(&Edited {
        rt,
        turns,
        txn,
        job,
        last,
    })
}
