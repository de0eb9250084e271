//! Merged directories, as a transaction's folder keeps them.
ghost use Rattle.std.specs.Prelude.{◌≡◌, None, IfErr, IsSome, OnOk};
ghost use Rattle.fsfs_draft.specs.Steps.{kept_at};
ghost use Rattle.fsfs_draft.specs.Causes.{HasSettleCause, HasBenchCause};
ghost use Rattle.fsfs_draft.specs.Errors.{IfMemory, IsWant};
ghost use Rattle.fsfs_merge.specs.Relinked.{AreHere, AreRelinked, IsRelinked, IsUnwritten};

use crate::MergedDir;
use fsfs_draft::{EditError, Own, OwnError};
use std::alloc::AllocError;

/// A transaction whose directories a merge can write.
pub trait Relink: Own {
    /// Writes a merged directory: its own node-revision goes on from the head's, with these entries in its `children` file. Like
    /// the steps of an edit it is taken in memory.
    fn relink(&mut self, dir: MergedDir) -> Result<(), AllocError>
        requires here { IsSome (kept_at (Self.folder self.old).nodes dir.link.own) }
        ensures done { OnOk result (IsRelinked (Self.folder self.old) (Self.folder self.new) dir) }
        ensures settled { Self.settled self.new ≡ Self.settled self.old }
        ensures quiet { Self.faults self.new ≡ Self.faults self.old }
        ensures name { Self.txn self.new ≡ Self.txn self.old };

    /// Settles the steps, without an item of the `changes` file. The revision that the transaction is over is told by its root's
    /// predecessor.
    fn settle_merged(&mut self) -> Result<(), OwnError>
        ensures done { OnOk result (Self.settled self.new ≡ Self.folder self.old) }
        ensures not_done { IfErr result (λ e. IfMemory e (Self.settled self.new ≡ Self.settled self.old)) }
        ensures cause { HasSettleCause (Self.faults self.old) (Self.faults self.new) result }
        ensures name { Self.txn self.new ≡ Self.txn self.old };
}

// Writes one merged directory.
fn relink_one<N: Relink>(own: &mut N, dir: MergedDir) -> Result<(), EditError>
    ensures done { OnOk result (IsRelinked (N.folder own.old) (N.folder own.new) dir) }
    ensures cause { IfErr result (λ e. IsWant e (kept_at (N.folder own.old).nodes dir.link.own ≡ None)) }
    ensures settled { N.settled own.new ≡ N.settled own.old }
    ensures name { N.txn own.new ≡ N.txn own.old }
    ensures bench { HasBenchCause (N.faults own.old) (N.faults own.new) result }
{
    let Some(_kept) = own.kept(&dir.link.own) else {
        return Err(EditError::Lacking);
    };
    own.relink(dir)?;
    Ok(())
}

// Writes all merged directories.
fn relink_all<N: Relink>(own: &mut N, dirs: Vec<MergedDir>) -> Result<(), EditError>
    ensures done { OnOk result (AreRelinked (N.folder own.old) (N.folder own.new) dirs.items) }
    ensures cause { IfErr result (λ e. IsWant e (AreHere (N.folder own.old) dirs.items → ⊥)) }
    ensures settled { N.settled own.new ≡ N.settled own.old }
    ensures name { N.txn own.new ≡ N.txn own.old }
    ensures bench { HasBenchCause (N.faults own.old) (N.faults own.new) result }
{
    let mut left = dirs;
    while let Some(dir) = left.pop() {
        relink_one(own, dir)?;
    }
    Ok(())
}

/// Writes the merged directories in memory, and settles them. Where memory does not suffice, or the transaction lacks one of the
/// directories, its folder is as before.
pub(crate) fn write<N: Relink>(own: &mut N, dirs: Vec<MergedDir>) -> Result<(), EditError>
    ensures done { OnOk result (AreRelinked (N.folder own.old) (N.settled own.new) dirs.items) }
    ensures not_done { IfErr result (λ e. IsUnwritten e (AreHere (N.folder own.old) dirs.items → ⊥) (N.settled own.new ≡ N.settled own.old)) }
    ensures name { N.txn own.new ≡ N.txn own.old }
    ensures bench { HasBenchCause (N.faults own.old) (N.faults own.new) result }
{
    relink_all(own, dirs)?;
    own.settle_merged()?;
    Ok(())
}
