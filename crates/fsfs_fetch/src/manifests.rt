//! The manifest of a packed shard, kept from one read to the next.
ghost use Rattle.std.specs.Prelude.{◌≡◌, ◌≤◌, ◌<◌, ℕ, List, Option, IfErr, OnErr, true, unwrap_or, []};
ghost use Rattle.fsfs_base.specs.Files.{Files};
ghost use Rattle.fsfs_base.specs.declared.small_fault.SmallFile.TheVariants.{Manifest};
ghost use Rattle.fsfs_layout.specs.FileNames.{small_name};
ghost use Rattle.fsfs_layout.specs.Layouts.{shard_of};
ghost use Rattle.fsfs_revision.specs.Told.{HasCause, Gives, IsAbout};
ghost use Rattle.fsfs_revision.specs.RevBytes.{manifest_of, manifest_in};
ghost use Rattle.fsfs_fetch.specs.Kept.{IsPackedAt, ServesAsWell, kept_offsets, keeps_shard};
ghost use Rattle.fsfs_fetch.specs.Views.{Later, is_packed};
ghost use Rattle.fsfs_fetch.specs.Answers.{Stays, refused};

use crate::files::load;
use crate::reads::Reads;
use fsfs_layout::{ManifestError, RepositoryFile, read_manifest};
use fsfs_revision::{BookFault, Refusal};
use std::alloc::Global;

/// The manifest of a shard that was read last.
#[derive(Drop)]
pub(crate) struct KeptManifest {
    pub shard: u32,
    /// Where each revision begins in the pack.
    pub offsets: Vec<u64>,
}

// A line of a manifest has at most so many bytes: the digits of a number of 64 bits, and a newline.
const LINE: usize = 21;

/// Where each revision of a shard begins in the shard's pack. Of the manifest no more is read than a line for each, and one byte
/// behind them.
pub(crate) fn shard_offsets<R: Reads>(
    alloc: Global,
    reads: &mut R,
    shard: u32,
) -> Result<Vec<u64>, BookFault>
    ensures told { (file : Option (List ℕ)) → Stays (R.view reads.old) (small_name (Manifest shard)) file
        → Gives (λ v. v.items) result (refused (manifest_of (R.view reads.old).layout shard (unwrap_or file []))) }
    ensures about { (rev offset : ℕ) → IfErr result (IsAbout rev offset) }
    ensures later { Later (R.view reads.old) (R.view reads.new) }
    ensures cause { HasCause (R.faults reads.old) (R.faults reads.new) result }
{
    let layout = reads.layout();
    let most = layout.shard_size() as usize * LINE + 1;
    let text = load(
        alloc,
        reads,
        &RepositoryFile::Manifest(shard).name(layout),
        most,
    )?;
    match read_manifest(alloc, &text, shard, layout) {
        Ok(offsets) => Ok(offsets),
        Err(ManifestError::OutOfMemory) => Err(BookFault::OutOfMemory),
        Err(ManifestError::Fault(fault)) => Err(BookFault::Refused(Refusal::Small(fault))),
    }
}

/// Keeps the manifest of a shard, unless it is kept.
pub(crate) fn keep_manifest<R: Reads>(
    alloc: Global,
    reads: &mut R,
    kept: &mut Option<KeptManifest>,
    shard: u32,
) -> Result<(), BookFault>
    ensures told { (m : Files) (rev : ℕ) → IsPackedAt (R.view reads.old) kept.old rev m → shard_of (R.view reads.old).layout rev ≡ shard
        → Gives (λ _. kept_offsets kept.new) result (refused (manifest_in (R.view reads.old).layout m shard)) }
    ensures serves { ServesAsWell (R.view reads.old) kept.old kept.new }
    ensures about { (rev offset : ℕ) → IfErr result (IsAbout rev offset) }
    ensures later { Later (R.view reads.old) (R.view reads.new) }
    ensures cause { HasCause (R.faults reads.old) (R.faults reads.new) result }
{
    if is_kept(kept, shard) {
        return Ok(());
    }
    let offsets = shard_offsets(alloc, reads, shard)?;
    *kept = Some(KeptManifest { shard, offsets });
    Ok(())
}

fn is_kept(kept: &Option<KeptManifest>, shard: u32) -> bool
    ensures { result ≡ keeps_shard kept.now shard }
{
    match kept {
        None => false,
        Some(found) => found.shard == shard,
    }
}

/// The offsets of the manifest that is kept.
pub(crate) fn offsets_of(kept: &Option<KeptManifest>) -> &[u64]
    ensures { result.now ≡ kept_offsets kept.now }
{
    match kept {
        None => &[],
        Some(found) => found.offsets.as_slice(),
    }
}
