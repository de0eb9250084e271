//! The revisions of a shard are copied to its bench, one behind another.
ghost use Rattle.std.specs.Prelude.{◌≡◌, ◌<◌, ◌≤◌, ◌-◌, ◌++◌, ℕ, List, Some, Ok, length, min, take, drop, OnOk, IfOk, IfErr, IsSome};
ghost use Rattle.fsfs_revision.specs.Told.{Keeps};
ghost use Rattle.fsfs_machine.specs.declared.contents.Part.{Part};
ghost use Rattle.fsfs_machine.specs.Machine.{starts};
ghost use Rattle.fsfs_pack.specs.Causes.{HasDiskCause, HasBenchCause, IsEarly, IsReadOf, IsWant, fault_of};
ghost use Rattle.fsfs_pack.specs.Copies.{together, HasFile, AreTold, AreOffsets};
ghost use Rattle.fsfs_pack.specs.Sections.{pack_text};
ghost use Rattle.fsfs_pack.specs.Shards.{IsShard};

use crate::answers::PackFault;
use crate::shard::Shard;
use fsfs_base::{DiskPlace, Name, RevNum, fitting};
use fsfs_disk::Bench;
use fsfs_revision::{Book, BookFault, Refusal};
use std::alloc::Global;

// How many bytes are read and appended at a time.
const PIECE: usize = 65536;

/// The bench's file that becomes the pack.
pub(crate) fn pack_file() -> Name
    ensures { result ≡ pack_text }
{
    Name::new("pack")
}

// Why the book gave nothing of the revision.
fn fault_of(rev: RevNum, fault: BookFault) -> PackFault
    ensures { result ≡ fault_of rev fault }
{
    match fault {
        BookFault::DiskFault => PackFault::DiskFault(DiskPlace::Read),
        BookFault::OutOfMemory => PackFault::Memory,
        BookFault::Refused(Refusal::Small(small)) => PackFault::Small(small),
        BookFault::Refused(_) => PackFault::Missing(rev),
        BookFault::Short { .. } => PackFault::Missing(rev),
    }
}

// Adds a piece of the revision at the end of the bench's file: the bytes from an offset on, as many as there are and as fit. Gives how
// many.
fn copy_piece<B: Book, N: Bench>(
    book: &mut B,
    rev: RevNum,
    offset: u64,
    bench: &mut N,
    piece: &mut [u8],
) -> Result<u64, PackFault>
    ensures many { (bytes : List ℕ) → (B.told book.old).revs rev ≡ Some (Ok bytes) → offset ≤ length bytes → IfOk result (λ n. n ≡ min (length piece.old) (length bytes - offset)) }
    ensures copied { (bytes before : List ℕ) → (B.told book.old).revs rev ≡ Some (Ok bytes) → offset ≤ length bytes → HasFile (N.contents bench.old) pack_text before
        → IfOk result (λ n. HasFile (N.contents bench.new) pack_text (before ++ take n (drop offset bytes))) }
    ensures there { (before : List ℕ) → HasFile (N.contents bench.old) pack_text before → OnOk result ((bytes : List ℕ) × HasFile (N.contents bench.new) pack_text bytes) }
    ensures tells { IsSome (N.contents bench.old) → OnOk result (IsSome (N.contents bench.new)) }
    ensures fine { (bytes : List ℕ) → (B.told book.old).revs rev ≡ Some (Ok bytes) → offset ≤ length bytes → IfErr result IsWant }
    ensures about { IfErr result (IsReadOf rev) }
    ensures kept { Keeps (B.told book.old) (B.told book.new) }
    ensures read_cause { HasDiskCause (B.faults book.old) (B.faults book.new) result }
    ensures bench_cause { HasBenchCause (N.faults bench.old) (N.faults bench.new) result }
{
    let count = match book.read_rev(rev, offset, piece) {
        Ok(count) => count,
        Err(fault) => return Err(fault_of(rev, fault)),
    };
    match bench.append(&pack_file(), &piece[..count]) {
        Ok(()) => Ok(count as u64),
        Err(_) => Err(PackFault::BenchFault),
    }
}

// Adds the bytes of the revision at the end of the bench's file, each of them read once. Gives how many they are.
fn copy_revision<B: Book, N: Bench>(
    book: &mut B,
    rev: RevNum,
    bench: &mut N,
    piece: &mut [u8],
) -> Result<u64, PackFault>
    requires room { 0 < length piece.old }
    ensures copied { (bytes before : List ℕ) → (B.told book.old).revs rev ≡ Some (Ok bytes) → HasFile (N.contents bench.old) pack_text before
        → IfOk result (λ n. (n ≡ length bytes) × HasFile (N.contents bench.new) pack_text (before ++ bytes)) }
    ensures there { (before : List ℕ) → HasFile (N.contents bench.old) pack_text before → OnOk result ((bytes : List ℕ) × HasFile (N.contents bench.new) pack_text bytes) }
    ensures tells { IsSome (N.contents bench.old) → OnOk result (IsSome (N.contents bench.new)) }
    ensures fine { (bytes : List ℕ) → (B.told book.old).revs rev ≡ Some (Ok bytes) → IfErr result IsWant }
    ensures about { IfErr result (IsReadOf rev) }
    ensures kept { Keeps (B.told book.old) (B.told book.new) }
    ensures read_cause { HasDiskCause (B.faults book.old) (B.faults book.new) result }
    ensures bench_cause { HasBenchCause (N.faults bench.old) (N.faults bench.new) result }
{
    let size = match book.rev_len(rev) {
        Ok(size) => size,
        Err(fault) => return Err(fault_of(rev, fault)),
    };
    let mut done = 0;
    'pieces: while done < size {
        // No more is asked for than there is: a read that ends at the end of the file makes no call to find it.
        let most = fitting(piece.len(), size - done);
        let count = copy_piece(book, rev, done, bench, &mut piece[..most])?;
        if count == 0 {
            return Err(PackFault::Missing(rev));
        }
        done = count.saturating_add(done);
    }
    Ok(size)
}

/// Makes the bench's file `pack` of the revisions of the shard, one behind another, piece by piece. Gives where each begins.
pub(crate) fn copy_shard<B: Book, N: Bench>(
    alloc: Global,
    book: &mut B,
    shard: &Shard,
    bench: &mut N,
) -> Result<Vec<u64>, PackFault>
    requires shard { IsShard shard.now }
    ensures copied { (parts : List Part) → IsSome (N.contents bench.old) → AreTold (B.told book.old).revs shard.now.first parts → length parts ≡ shard.now.next - shard.now.first
        → IfOk result (λ os. (os.items ≡ starts 0 parts) × HasFile (N.contents bench.new) pack_text (together parts)) }
    ensures fine { (parts : List Part) → AreTold (B.told book.old).revs shard.now.first parts → length parts ≡ shard.now.next - shard.now.first → IfErr result IsWant }
    ensures early { IfErr result IsEarly }
    ensures there { OnOk result ((bytes : List ℕ) × HasFile (N.contents bench.new) pack_text bytes) }
    ensures count { IfOk result (λ os. length os.items ≡ shard.now.next - shard.now.first) }
    ensures rising { IfOk result (λ os. (next : ℕ) × AreOffsets os.items next) }
    ensures kept { Keeps (B.told book.old) (B.told book.new) }
    ensures read_cause { HasDiskCause (B.faults book.old) (B.faults book.new) result }
    ensures bench_cause { HasBenchCause (N.faults bench.old) (N.faults bench.new) result }
{
    let mut piece = [0u8; PIECE];
    let mut offsets = Vec::new(alloc);
    let mut at: u64 = 0;
    match bench.write(&pack_file(), &[]) {
        Ok(()) => {}
        Err(_) => return Err(PackFault::BenchFault),
    }
    'revisions: for number in shard.first.get()..shard.next.get() {
        let Some(rev) = RevNum::new(number as u64) else {
            unreachable!()
        };
        match offsets.push(at) {
            Ok(()) => {}
            Err(_) => return Err(PackFault::Memory),
        }
        let size = copy_revision(book, rev, bench, &mut piece)?;
        at = at.saturating_add(size);
    }
    Ok(offsets)
}
