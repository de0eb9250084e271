//! The floor: the oldest revision that isn't packed.
ghost use Rattle.std.specs.Prelude.{◌≡◌, ℕ, None, IfErr, IfSome, OnOk, OnErr};
ghost use Rattle.fsfs_revision.specs.Told.{HasCause, Gives, IsAbout};
ghost use Rattle.fsfs_revision.specs.RevBytes.{floor_in};
ghost use Rattle.fsfs_fetch.specs.Views.{Later};
ghost use Rattle.fsfs_fetch.specs.Answers.{refused};

use crate::files::read_at;
use crate::manifests::KeptManifest;
use crate::reads::Reads;
use fsfs_base::RevNum;
use fsfs_layout::{OnlyFile, read_min_unpacked_rev};
use fsfs_revision::{BookFault, Refusal};

// Reads the floor, by one call.
fn read_floor<R: Reads>(reads: &mut R) -> Result<RevNum, BookFault>
    ensures told { IfSome (R.view reads.new).files (λ m. Gives (λ n. n) result (refused (floor_in (R.view reads.new).layout m))) }
    ensures about { (rev offset : ℕ) → IfErr result (IsAbout rev offset) }
    ensures later { Later (R.view reads.old) (R.view reads.new) }
    ensures cause { HasCause (R.faults reads.old) (R.faults reads.new) result }
{
    let layout = reads.layout();
    let mut text = [0; 64];
    let found = read_at(reads, &OnlyFile::MinUnpackedRev.name(), 0, &mut text)?;
    let count = found.unwrap_or(0);
    match read_min_unpacked_rev(layout, &text[..count]) {
        Ok(floor) => Ok(floor),
        Err(fault) => Err(BookFault::Refused(Refusal::Small(fault))),
    }
}

/// Reads the floor again, and lets go of the manifest that was kept.
pub(crate) fn refresh<R: Reads>(
    reads: &mut R,
    floor: &mut RevNum,
    kept: &mut Option<KeptManifest>,
) -> Result<(), BookFault>
    ensures told { IfSome (R.view reads.new).files (λ m. Gives (λ _. floor.new) result (refused (floor_in (R.view reads.new).layout m))) }
    ensures kept { OnOk result (kept.new ≡ None) }
    ensures same_floor { OnErr result (floor.new ≡ floor.old) }
    ensures same_kept { OnErr result (kept.new ≡ kept.old) }
    ensures about { (rev offset : ℕ) → IfErr result (IsAbout rev offset) }
    ensures later { Later (R.view reads.old) (R.view reads.new) }
    ensures cause { HasCause (R.faults reads.old) (R.faults reads.new) result }
{
    *floor = read_floor(reads)?;
    *kept = None;
    Ok(())
}
