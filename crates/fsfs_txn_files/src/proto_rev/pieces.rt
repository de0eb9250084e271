//! The pieces of a text, from a source into a file of a bench.
ghost use Rattle.std.specs.Prelude.{◌≡◌, ◌+◌, ◌<◌, ◌≤◌, length, take, [], option_map, IfOk, IfErr, OnOk, OnErr};
ghost use Rattle.fsfs_disk.specs.Benches.{appended, Spoils};
ghost use Rattle.fsfs_txn_files.specs.declared.proto_rev.text_error.TheConstants.{MAX_TEXT};
ghost use Rattle.fsfs_txn_files.specs.declared.proto_rev.text_error.TextError.TheVariants.{BenchFault};
ghost use Rattle.fsfs_txn_files.specs.ProtoRev.Sources.{GivesFront, GivesAll, IsRefusedPiece};
ghost use Rattle.fsfs_txn_files.specs.ProtoRev.Causes.{HasSourceCause, HasBenchCause};

use crate::proto_rev::text_error::{MAX_TEXT, TextError};
use fsfs_base::{Name, Source, fitting};
use fsfs_disk::Bench;

/// Reads the next bytes of a text into the beginning of the piece and answers how many: none at its end. No more than one
/// byte past the limit is taken.
pub(crate) fn next_piece<I: Source>(
    source: &mut I,
    taken: u64,
    piece: &mut [u8],
) -> Result<usize, TextError>
    requires within { taken ≤ MAX_TEXT }
    requires room { 0 < length piece.old }
    ensures fits { IfOk result (λ n. (n ≤ length piece.new) × (taken + n ≤ MAX_TEXT)) }
    ensures given { IfOk result (λ n. GivesFront (I.remaining source.old) (I.remaining source.new) (take n piece.new)) }
    ensures ends { IfOk result (λ n. n ≡ 0 → GivesAll (I.remaining source.old) (I.remaining source.new) []) }
    ensures refused { IfErr result (IsRefusedPiece (I.remaining source.old) (I.remaining source.new) taken) }
    ensures cause { HasSourceCause (I.faults source.old) (I.faults source.new) result }
{
    let room = fitting(piece.len(), MAX_TEXT + 1 - taken);
    let count = match source.read(&mut piece[..room]) {
        Ok(count) => count,
        Err(_) => return Err(TextError::SourceFault),
    };
    if taken + count as u64 > MAX_TEXT {
        return Err(TextError::TextTooLong);
    }
    Ok(count)
}

/// Adds bytes at the end of the file.
pub(crate) fn put<D: Bench>(bench: &mut D, file: &Name, bytes: &[u8]) -> Result<(), TextError>
    ensures ok { OnOk result (D.contents bench.new ≡ option_map (appended file.now bytes.now) (D.contents bench.old)) }
    ensures err { OnErr result (Spoils file.now (D.contents bench.old) (D.contents bench.new)) }
    ensures refused { IfErr result (λ e. e ≡ BenchFault) }
    ensures cause { HasBenchCause (D.faults bench.old) (D.faults bench.new) result }
{
    match bench.append(file, bytes) {
        Ok(()) => Ok(()),
        Err(_) => Err(TextError::BenchFault),
    }
}
