//! For which transaction alone a draft stands, where others rest on the turns.
ghost use Rattle.std.specs.Prelude.{◌≡◌, None, Some};

use fsfs_base::{Note, Says, no_note};
use fsfs_machine::{Line, Txn};
use fsfs_turn::Adoption;

/// A transaction, and revisions over which it stands, among them its base. It stands in notes alone.
#[derive(Drop)]
pub struct Standing {
    pub txn: Txn,
    pub seen: Line,
}

// A note of one that is there.
#[derive(Drop)]
struct There<'a> {
    note: &'a Note<Standing>,
}

impl Says<Option<Standing>> for There<'_> {
    ghost use Rattle.std.specs.Prelude.{Some};

    ghost says = { λ t. Some t.note.now.value };
}

/// What is noted of a draft: for which transaction alone it stands, and what its bytes are, that were made last.
#[derive(Drop)]
pub(crate) struct Pin {
    pub(crate) standing: Note<Option<Standing>>,
    pub(crate) about: Note<Option<Adoption>>,
}

impl Pin {
    /// Nothing is noted.
    pub(crate) fn none() -> Pin
        ensures { result.standing.value ≡ None }
    {
        Pin {
            standing: no_note(),
            about: no_note(),
        }
    }

    /// What is noted here.
    pub(crate) fn noted(standing: Note<Option<Standing>>) -> Pin
        ensures { result.standing.value ≡ standing.value }
    {
        Pin {
            standing,
            about: no_note(),
        }
    }

    /// Of this transaction.
    pub(crate) fn of(standing: &Note<Standing>) -> Pin
        ensures { result.standing.value ≡ Some standing.now.value }
    {
        Pin {
            standing: Note::of(&There { note: standing }),
            about: no_note(),
        }
    }
}
