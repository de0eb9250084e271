//! The parts of the files of a store that is read.

use crate::reads::Reads;
use fsfs_base::{Failed, Name};
use fsfs_disk::Parts;

/// The parts of the files of a store. A file is told that stays as it is.
#[derive(Drop)]
pub(crate) struct StoreParts<'a, R: Reads> {
    pub reads: &'a mut R,
}

impl<R: Reads> Parts for StoreParts<'_, R> {
    ghost use Rattle.fsfs_fetch.specs.Answers.{Stays};
    ghost use Rattle.fsfs_fetch.specs.PartsLater.{IsAfterCalls, after_none, after_both, stays_after};

    ghost tells = { λ p name file. Stays (R.view p.reads.now) name file };

    ghost later = { λ a b. IsAfterCalls (R.view a.reads.now) (R.view b.reads.now) a.reads.ghost_name b.reads.ghost_name };

    ghost faults = { λ p. R.faults p.reads.now };

    fn read_part(
        &mut self,
        name: &Name,
        offset: u64,
        buffer: &mut [u8],
    ) -> Result<Option<usize>, Failed> {
        self.reads.read(name, offset, buffer)
    }

    ghost same = { λ a. after_none (R.view a.reads.now) a.reads.ghost_name };

    ghost more = { λ a b c e f. after_both (R.view a.reads.now) (R.view b.reads.now) (R.view c.reads.now) a.reads.ghost_name b.reads.ghost_name c.reads.ghost_name e f };

    ghost stays = { λ a b name file e s. stays_after (R.view a.reads.now) (R.view b.reads.now) a.reads.ghost_name b.reads.ghost_name name file e s };
}
