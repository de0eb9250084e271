//! Revisions in packs.
ghost use Rattle.std.specs.Prelude.{◌≡◌, ◌≤◌, ◌<◌, ◌+◌, ◌-◌, ◌^◌, ℕ, List, Some, Ok, length, take, min, codes, IfOk, IfErr};
ghost use Rattle.fsfs_base.specs.Files.{Files};
ghost use Rattle.fsfs_layout.specs.Layouts.{shard_of};
ghost use Rattle.fsfs_layout.specs.Names.{in_pack};
ghost use Rattle.fsfs_revision.specs.Told.{HasCause, Gives, IsAbout, size_read, part_read};
ghost use Rattle.fsfs_revision.specs.RevBytes.{section_at, packed_section as section_in_files, packed_bytes, cut};
ghost use Rattle.fsfs_fetch.specs.Views.{Later};
ghost use Rattle.fsfs_fetch.specs.Kept.{IsPackedAt, ServesAsWell};
ghost use Rattle.fsfs_fetch.specs.Answers.{as_book, Stays};

use crate::files::{read_at, size_at};
use crate::manifests::{KeptManifest, keep_manifest, offsets_of};
use crate::reads::Reads;
use fsfs_base::{RevNum, fitting};
use fsfs_layout::RepositoryFile;
use fsfs_revision::{BookFault, Refusal, Section};
use std::alloc::Global;

// The part of a pack of this size from one offset to the next, no further than the pack goes.
fn section_in(offsets: &[u64], index: u32, size: u64) -> Section
    ensures section { result ≡ section_at offsets.now index size }
    ensures fits { result.start + result.length < 2 ^ 64 }
{
    let start = offsets.get(index as usize).copied().unwrap_or(0);
    let next = offsets.get(index as usize + 1).copied().unwrap_or(size);
    Section {
        start,
        length: next.min(size).saturating_sub(start),
    }
}

// Where a packed revision stands in the pack of its shard.
fn packed_section<R: Reads>(
    alloc: Global,
    reads: &mut R,
    kept: &mut Option<KeptManifest>,
    rev: RevNum,
) -> Result<Section, BookFault>
    ensures told { (m : Files) → IsPackedAt (R.view reads.old) kept.old rev m
        → Gives (λ s. s) result (as_book (section_in_files (R.view reads.old).layout m rev)) }
    ensures fits { IfOk result (λ s. s.start + s.length < 2 ^ 64) }
    ensures serves { ServesAsWell (R.view reads.old) kept.old kept.new }
    ensures about { (offset : ℕ) → IfErr result (IsAbout rev offset) }
    ensures later { Later (R.view reads.old) (R.view reads.new) }
    ensures cause { HasCause (R.faults reads.old) (R.faults reads.new) result }
{
    let layout = reads.layout();
    let shard = layout.shard_of(rev);
    keep_manifest(alloc, reads, kept, shard)?;
    match size_at(reads, &RepositoryFile::Pack(shard).name(layout))? {
        None => Err(BookFault::Refused(Refusal::Missing { rev })),
        Some(size) => Ok(section_in(offsets_of(kept), layout.place_in_shard(rev), size)),
    }
}

/// The length of a packed revision.
pub(crate) fn packed_len<R: Reads>(
    alloc: Global,
    reads: &mut R,
    kept: &mut Option<KeptManifest>,
    rev: RevNum,
) -> Result<u64, BookFault>
    ensures told { (m : Files) → IsPackedAt (R.view reads.old) kept.old rev m
        → Gives (λ n. n) result (size_read (packed_bytes (R.view reads.old).layout m rev)) }
    ensures serves { ServesAsWell (R.view reads.old) kept.old kept.new }
    ensures about { IfErr result (IsAbout rev 0) }
    ensures later { Later (R.view reads.old) (R.view reads.new) }
    ensures cause { HasCause (R.faults reads.old) (R.faults reads.new) result }
{
    let section = packed_section(alloc, reads, kept, rev)?;
    Ok(section.length)
}

// A part of a section of a pack.
fn section_part<R: Reads>(
    reads: &mut R,
    rev: RevNum,
    section: Section,
    offset: u64,
    buffer: &mut [u8],
) -> Result<usize, BookFault>
    requires within { offset ≤ section.length }
    requires fits { section.start + section.length < 2 ^ 64 }
    ensures bound { IfOk result (λ n. n ≤ length buffer.new) }
    ensures told { (pack : List ℕ) → Stays (R.view reads.old) (in_pack (shard_of (R.view reads.old).layout rev) (codes "/pack")) (Some pack)
        → section.length ≤ length pack - section.start → Gives (λ n. take n buffer.new) result (part_read rev offset (length buffer.old) (Ok (cut section pack))) }
    ensures about { IfErr result (IsAbout rev offset) }
    ensures later { Later (R.view reads.old) (R.view reads.new) }
    ensures cause { HasCause (R.faults reads.old) (R.faults reads.new) result }
{
    let layout = reads.layout();
    let shard = layout.shard_of(rev);
    let count = fitting(buffer.len(), section.length - offset);
    match read_at(
        reads,
        &RepositoryFile::Pack(shard).name(layout),
        section.start + offset,
        &mut buffer[..count],
    )? {
        None => Err(BookFault::Refused(Refusal::Missing { rev })),
        Some(found) => Ok(found),
    }
}

/// A part of a packed revision.
pub(crate) fn packed_part<R: Reads>(
    alloc: Global,
    reads: &mut R,
    kept: &mut Option<KeptManifest>,
    rev: RevNum,
    offset: u64,
    buffer: &mut [u8],
) -> Result<usize, BookFault>
    ensures bound { IfOk result (λ n. n ≤ length buffer.new) }
    ensures told { (m : Files) → IsPackedAt (R.view reads.old) kept.old rev m
        → Gives (λ n. take n buffer.new) result (part_read rev offset (length buffer.old) (packed_bytes (R.view reads.old).layout m rev)) }
    ensures serves { ServesAsWell (R.view reads.old) kept.old kept.new }
    ensures about { IfErr result (IsAbout rev offset) }
    ensures later { Later (R.view reads.old) (R.view reads.new) }
    ensures cause { HasCause (R.faults reads.old) (R.faults reads.new) result }
{
    let section = packed_section(alloc, reads, kept, rev)?;
    if section.length < offset {
        return Err(BookFault::Short { rev, offset });
    }
    section_part(reads, rev, section, offset, buffer)
}
