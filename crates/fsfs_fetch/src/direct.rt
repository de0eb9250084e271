//! A book over a store that is read.
ghost use Rattle.std.specs.Prelude.{◌≡◌, ◌≤◌, ◌<◌, ℕ, List, Some, None, Result, Ok, length, take, IfOk, IfErr, OnOk};
ghost use Rattle.fsfs_base.specs.Files.{Files};
ghost use Rattle.fsfs_revision.specs.declared.book.BookFault.TheVariants.{Refused};
ghost use Rattle.fsfs_revision.specs.declared.wrong.Refusal.{Refusal};
ghost use Rattle.fsfs_revision.specs.declared.wrong.Refusal.TheVariants.{NoRev, Missing};
ghost use Rattle.fsfs_revision.specs.Told.{HasCause, Gives, IsAbout, size_read, part_read};
ghost use Rattle.fsfs_disk.specs.Trace.{Trace, files_now};
ghost use Rattle.fsfs_fetch.specs.Owned.{TellsAll, state_of};
ghost use Rattle.fsfs_revision.specs.RevBytes.{rev_bytes, props_bytes, floor_in};
ghost use Rattle.fsfs_revision.specs.RevProps.{ReadsOnly, IsLook, IfRefused};
ghost use Rattle.fsfs_fetch.specs.Props.{MeetsNoMore, may_read};
ghost use Rattle.fsfs_fetch.specs.Views.{Later, IsYoungest, IsKnown};
ghost use Rattle.fsfs_fetch.specs.Kept.{IsFoundAt, FindsAsWell, IsGoneAt, TellsFiles, TellsOwn, telling};

use crate::files::{file_len, file_part};
use crate::floors::refresh;
use crate::manifests::KeptManifest;
use crate::owned::OwnedReads;
use crate::packs::{packed_len, packed_part};
use crate::reads::Reads;
use fsfs_base::RevNum;
use fsfs_disk::Disk;
use fsfs_layout::{Layout, RepositoryFile};
use fsfs_revision::{Book, BookFault, Refusal, RevProps, StillProps};
use std::alloc::Global;

/// A book over a store that is read. It keeps the last floor that it read, the oldest revision that isn't packed, and the
/// manifest of the shard that it read last. Where a revision's file is absent, since the revision was packed, the floor is
/// read again once.
#[derive(Drop)]
pub struct Direct<R: Reads> {
    alloc: Global,
    reads: R,
    floor: RevNum,
    kept: Option<KeptManifest>,
}

impl<R: Reads> Direct<R> {
    /// A book over this store, which begins with this floor. With the floor that the files have, all is told that they say
    /// of the revisions that there are.
    pub fn new(alloc: Global, reads: R, floor: RevNum) -> Direct<R>
        ensures reads { result.reads ≡ reads }
        ensures floor { result.floor ≡ floor }
        ensures kept { result.kept ≡ None }
        ensures told { (m : Files) → (R.view reads).files ≡ Some m → floor_in (R.view reads).layout m ≡ Ok floor
            → TellsFiles (R.view reads) m (⟦<Direct<R> as Book>⟧.told result) }
        // With any floor, of each revision from it on whose own file isn't left over from before it was packed, and of each below it that is
        // packed.
        ensures own { (m : Files) → (R.view reads).files ≡ Some m → TellsOwn (R.view reads) floor m (⟦<Direct<R> as Book>⟧.told result) }
        // Of the property files of revisions that there are it may read what the store's looks may meet.
        ensures props { (r : ℕ) (read : Result (List ℕ) Refusal) → ⟦<Direct<R> as RevProps>⟧.may_read result r read → may_read (R.view reads).reach (R.may_meet reads) r read }
        ensures below { (⟦<Direct<R> as Book>⟧.told result).below ≡ (R.view reads).below }
    {
        Direct {
            alloc,
            reads,
            floor,
            kept: None,
        }
    }

    /// The store that it reads.
    pub fn into_reads(self) -> R
        ensures { result ≡ self.reads }
    {
        let Direct { reads, .. } = self;
        reads
    }

    /// The floor that it keeps.
    pub fn floor(&self) -> RevNum
        ensures { result ≡ self.now.floor }
    {
        self.floor
    }
}

/// A book over a disk that nobody else writes to, with the youngest revision of its repository, the size of its shards
/// and this floor. With the floor that the files have, it tells of each revision what they say. Of each property file it reads
/// nothing but what they say.
pub fn over_disk<D: Disk>(
    alloc: Global,
    disk: D,
    youngest: RevNum,
    layout: Layout,
    floor: RevNum,
) -> Direct<OwnedReads<D>>
    ensures disk { result.reads.disk ≡ disk }
    ensures told { (t : Trace) → D.trace disk ≡ Some t → floor_in layout (files_now t) ≡ Ok floor
        → TellsAll youngest layout (files_now t) (⟦<Direct<OwnedReads<D>> as Book>⟧.told result) }
    ensures props { (t : Trace) → D.trace disk ≡ Some t → ReadsOnly (⟦<Direct<OwnedReads<D>> as RevProps>⟧.may_read result) youngest (props_bytes layout (files_now t)) }
    ensures below { (⟦<Direct<OwnedReads<D>> as Book>⟧.told result).below.disk ≡ Some (state_of (D.trace disk) (D.mount_path disk) (D.may_write disk) (D.bench_faults disk)) }
    ensures faults { ⟦<Direct<OwnedReads<D>> as Book>⟧.faults result ≡ D.faults disk }
{
    Direct::new(alloc, OwnedReads::new(disk, youngest, layout), floor)
}

/// The disk again, which reading has left as it was.
pub fn disk_of<D: Disk>(book: Direct<OwnedReads<D>>) -> D
    ensures below { (⟦<Direct<OwnedReads<D>> as Book>⟧.told book).below.disk ≡ Some (state_of (D.trace result) (D.mount_path result) (D.may_write result) (D.bench_faults result)) }
    ensures faults { ⟦<Direct<OwnedReads<D>> as Book>⟧.faults book ≡ D.faults result }
{
    book.into_reads().into_disk()
}

// Refuses a revision above the youngest.
fn check_rev<R: Reads>(reads: &mut R, rev: RevNum) -> Result<(), BookFault>
    ensures there { OnOk result ((n : ℕ) × IsYoungest (R.view reads.new).reach n × (rev ≤ n)) }
    ensures above { IfErr result (λ e. (n : ℕ) × IsYoungest (R.view reads.new).reach n × (n < rev) × (e ≡ Refused (NoRev rev n))) }
    ensures fewer { MeetsNoMore (R.may_meet reads.old) (R.may_meet reads.new) }
    ensures later { Later (R.view reads.old) (R.view reads.new) }
    ensures faults { R.faults reads.old ≤ R.faults reads.new }
{
    let youngest = reads.youngest();
    if youngest < rev {
        return Err(BookFault::Refused(Refusal::NoRev {
            asked: rev,
            youngest,
        }));
    }
    Ok(())
}

// A part of a revision whose own file was absent.
fn part_once_more<R: Reads>(
    alloc: Global,
    reads: &mut R,
    floor: &mut RevNum,
    kept: &mut Option<KeptManifest>,
    rev: RevNum,
    offset: u64,
    buffer: &mut [u8],
) -> Result<usize, BookFault>
    ensures bound { IfOk result (λ n. n ≤ length buffer.new) }
    ensures told { (m : Files) → IsGoneAt (R.view reads.old) rev m → Gives (λ n. take n buffer.new) result (part_read rev offset (length buffer.old) (rev_bytes (R.view reads.old).layout m rev)) }
    ensures finds { FindsAsWell (R.view reads.old) floor.old kept.old (R.view reads.new) floor.new kept.new }
    ensures about { IfErr result (IsAbout rev offset) }
    ensures later { Later (R.view reads.old) (R.view reads.new) }
    ensures cause { HasCause (R.faults reads.old) (R.faults reads.new) result }
{
    refresh(reads, floor, kept)?;
    if rev < *floor {
        return packed_part(alloc, reads, kept, rev, offset, buffer);
    }
    let name = RepositoryFile::Revision(rev).name(reads.layout());
    match file_part(reads, &name, rev, offset, buffer)? {
        None => Err(BookFault::Refused(Refusal::Missing { rev })),
        Some(count) => Ok(count),
    }
}

// A part of a revision that there is.
fn part_of<R: Reads>(
    alloc: Global,
    reads: &mut R,
    floor: &mut RevNum,
    kept: &mut Option<KeptManifest>,
    rev: RevNum,
    offset: u64,
    buffer: &mut [u8],
) -> Result<usize, BookFault>
    ensures bound { IfOk result (λ n. n ≤ length buffer.new) }
    ensures told { (m : Files) → IsFoundAt (R.view reads.old) floor.old kept.old rev m → Gives (λ n. take n buffer.new) result (part_read rev offset (length buffer.old) (rev_bytes (R.view reads.old).layout m rev)) }
    ensures finds { FindsAsWell (R.view reads.old) floor.old kept.old (R.view reads.new) floor.new kept.new }
    ensures about { IfErr result (IsAbout rev offset) }
    ensures later { Later (R.view reads.old) (R.view reads.new) }
    ensures cause { HasCause (R.faults reads.old) (R.faults reads.new) result }
{
    if rev < *floor {
        return packed_part(alloc, reads, kept, rev, offset, buffer);
    }
    let name = RepositoryFile::Revision(rev).name(reads.layout());
    match file_part(reads, &name, rev, offset, buffer)? {
        None => part_once_more(alloc, reads, floor, kept, rev, offset, buffer),
        Some(count) => Ok(count),
    }
}

// The length of a revision whose own file was absent.
fn len_once_more<R: Reads>(
    alloc: Global,
    reads: &mut R,
    floor: &mut RevNum,
    kept: &mut Option<KeptManifest>,
    rev: RevNum,
) -> Result<u64, BookFault>
    ensures told { (m : Files) → IsGoneAt (R.view reads.old) rev m → Gives (λ n. n) result (size_read (rev_bytes (R.view reads.old).layout m rev)) }
    ensures finds { FindsAsWell (R.view reads.old) floor.old kept.old (R.view reads.new) floor.new kept.new }
    ensures about { IfErr result (IsAbout rev 0) }
    ensures later { Later (R.view reads.old) (R.view reads.new) }
    ensures cause { HasCause (R.faults reads.old) (R.faults reads.new) result }
{
    refresh(reads, floor, kept)?;
    if rev < *floor {
        return packed_len(alloc, reads, kept, rev);
    }
    let name = RepositoryFile::Revision(rev).name(reads.layout());
    match file_len(reads, &name)? {
        None => Err(BookFault::Refused(Refusal::Missing { rev })),
        Some(length) => Ok(length),
    }
}

// The length of a revision that there is.
fn len_of<R: Reads>(
    alloc: Global,
    reads: &mut R,
    floor: &mut RevNum,
    kept: &mut Option<KeptManifest>,
    rev: RevNum,
) -> Result<u64, BookFault>
    ensures told { (m : Files) → IsFoundAt (R.view reads.old) floor.old kept.old rev m → Gives (λ n. n) result (size_read (rev_bytes (R.view reads.old).layout m rev)) }
    ensures finds { FindsAsWell (R.view reads.old) floor.old kept.old (R.view reads.new) floor.new kept.new }
    ensures about { IfErr result (IsAbout rev 0) }
    ensures later { Later (R.view reads.old) (R.view reads.new) }
    ensures cause { HasCause (R.faults reads.old) (R.faults reads.new) result }
{
    if rev < *floor {
        return packed_len(alloc, reads, kept, rev);
    }
    let name = RepositoryFile::Revision(rev).name(reads.layout());
    match file_len(reads, &name)? {
        None => len_once_more(alloc, reads, floor, kept, rev),
        Some(length) => Ok(length),
    }
}

// A look at the property file of a revision that there is.
fn props_of<R: Reads>(reads: &mut R, rev: RevNum, buffer: &mut [u8]) -> Result<usize, BookFault>
    ensures bound { IfOk result (λ n. n ≤ length buffer.new) }
    ensures read { IfOk result (λ n. (text : List ℕ) × R.may_meet reads.old rev (Some text) × IsLook text buffer.old buffer.new n) }
    ensures refused { IfErr result (λ e. IfRefused e (λ why. R.may_meet reads.old rev None × (why ≡ Missing rev))) }
    ensures fewer { MeetsNoMore (R.may_meet reads.old) (R.may_meet reads.new) }
    ensures later { Later (R.view reads.old) (R.view reads.new) }
    ensures cause { HasCause (R.faults reads.old) (R.faults reads.new) result }
{
    match reads.read_props(rev, buffer) {
        Ok(Some(count)) => Ok(count),
        Ok(None) => Err(BookFault::Refused(Refusal::Missing { rev })),
        Err(_) => Err(BookFault::DiskFault),
    }
}

impl<R: Reads> Book for Direct<R> {
    ghost use Rattle.fsfs_fetch.specs.KeptLemmas.{told_short};

    ghost Below = { R.Below };

    ghost told = { λ d. telling (R.view d.reads) d.floor d.kept };

    ghost faults = { λ d. R.faults d.reads };

    fn youngest(&mut self) -> Result<RevNum, BookFault> {
        Ok(self.reads.youngest())
    }

    fn rev_len(&mut self, rev: RevNum) -> Result<u64, BookFault> {
        check_rev(&mut self.reads, rev)?;
        len_of(
            self.alloc,
            &mut self.reads,
            &mut self.floor,
            &mut self.kept,
            rev,
        )
    }

    fn read_rev(
        &mut self,
        rev: RevNum,
        offset: u64,
        buffer: &mut [u8],
    ) -> Result<usize, BookFault> {
        check_rev(&mut self.reads, rev)?;
        part_of(
            self.alloc,
            &mut self.reads,
            &mut self.floor,
            &mut self.kept,
            rev,
            offset,
            buffer,
        )
    }

    ghost fits = { λ d rev bytes told. told_short (R.view d.reads) d.floor d.kept rev bytes told };
}

impl<R: Reads> RevProps for Direct<R> {
    ghost may_read = { λ d. may_read (R.view d.reads).reach (R.may_meet d.reads) };

    fn read_props(&mut self, rev: RevNum, buffer: &mut [u8]) -> Result<usize, BookFault> {
        check_rev(&mut self.reads, rev)?;
        props_of(&mut self.reads, rev, buffer)
    }
}

/// Nobody else writes to an owned disk, and reading leaves it as it is.
impl<D: Disk> StillProps for Direct<OwnedReads<D>> {
    ghost use Rattle.fsfs_fetch.specs.Owned.{state_of};
    ghost use Rattle.fsfs_fetch.specs.StillProps.{still_props};

    ghost still = { λ old new rev read kept may. still_props (state_of (D.trace old.reads.disk) (D.mount_path old.reads.disk) (D.may_write old.reads.disk) (D.bench_faults old.reads.disk)) (state_of (D.trace new.reads.disk) (D.mount_path new.reads.disk) (D.may_write new.reads.disk) (D.bench_faults new.reads.disk)) old.reads.youngest new.reads.youngest old.reads.layout new.reads.layout old.floor new.floor old.kept new.kept kept rev read may };
}
