//! A text put at the end of the prototype revision file.
ghost use Rattle.std.specs.Prelude.{◌≡◌, length, None, IfSome, IfOk, IfErr};
ghost use Rattle.fsfs_disk.specs.Benches.{bytes_in};
ghost use Rattle.fsfs_txn_files.specs.declared.proto_rev.text_error.TextError.TheVariants.{BenchFault};
ghost use Rattle.fsfs_txn_files.specs.ProtoRev.Texts.{IsPut, IsReadBack, IsTakenText, IsRefusedText, IsLeft, IsChecked};
ghost use Rattle.fsfs_txn_files.specs.ProtoRev.Causes.{HasSourceCause, HasBenchCause};

use crate::proto_rev::pieces::{next_piece, put};
use crate::proto_rev::taken::Taken;
use crate::proto_rev::text_error::TextError;
use fsfs_base::{B36, HexDigest, Name, Source, TxnName};
use fsfs_disk::Bench;
use fsfs_noderev::Rep;

// How many bytes are taken and appended at a time.
const PIECE: usize = 65536;

/// How long a file is; one that isn't there has no bytes.
fn length_of<D: Bench>(bench: &mut D, file: &Name) -> Result<u64, TextError>
    ensures length { IfSome (D.contents bench.old) (λ m. IfOk result (λ n. n ≡ length (bytes_in m file.now))) }
    ensures same { D.contents bench.new ≡ D.contents bench.old }
    ensures refused { IfErr result (λ e. e ≡ BenchFault) }
    ensures cause { HasBenchCause (D.faults bench.old) (D.faults bench.new) result }
{
    match bench.len(file) {
        Ok(None) => Ok(0),
        Ok(Some(length)) => Ok(length),
        Err(_) => Err(TextError::BenchFault),
    }
}

/// The header, and all bytes that the source has left, piece by piece.
fn append_bytes<D: Bench, I: Source>(
    bench: &mut D,
    file: &Name,
    source: &mut I,
) -> Result<Taken, TextError>
    ensures taken { IfOk result (IsTakenText (D.contents bench.old) (D.contents bench.new) (I.remaining source.old) (I.remaining source.new) file.now) }
    ensures refused { IfErr result (IsRefusedText (I.remaining source.old) (I.remaining source.new) None) }
    ensures left { IfErr result (IsLeft (D.contents bench.old) (D.contents bench.new) file.now) }
    ensures source_cause { HasSourceCause (I.faults source.old) (I.faults source.new) result }
    ensures bench_cause { HasBenchCause (D.faults bench.old) (D.faults bench.new) result }
{
    let mut taken = Taken::new();
    let mut piece = [0u8; PIECE];
    put(bench, file, b"PLAIN\n")?;
    'pieces: loop {
        let count = next_piece(source, taken.length, &mut piece)?;
        if count == 0 {
            return Ok(taken);
        }
        put(bench, file, &piece[..count])?;
        taken.add(&piece[..count]);
    }
}

/// The text has the digest that was given, if one was.
fn check(expect: &Option<HexDigest<16>>, found: &HexDigest<16>) -> Result<(), TextError>
    ensures { IsChecked expect.now found.now result }
{
    match expect {
        Some(kept) if kept != found => Err(TextError::Checksum {
            kept: *kept,
            found: *found,
        }),
        _ => Ok(()),
    }
}

/// Puts all bytes that the source has left at the end of the prototype revision file of a transaction, as a plain
/// representation, and answers the representation: it names no revision, and has the transaction's name and the number
/// that was drawn for the text.
///
/// A text has at most `MAX_TEXT` bytes, and the MD5 that was given, if one was. The bytes of a text that is refused stay
/// at the end of the file and belong to no representation; after a failure of the bench nothing is known of the file.
pub fn append_text<D: Bench, I: Source>(
    bench: &mut D,
    file: &Name,
    source: &mut I,
    expect: Option<HexDigest<16>>,
    txn: &TxnName,
    number: &B36,
) -> Result<Rep, TextError>
    // The text is all that the source had left; it stands at the end of the file, and the representation tells it.
    ensures put { IfOk result (IsPut (D.contents bench.old) (D.contents bench.new) (I.remaining source.old) (I.remaining source.new) file.now expect txn.now number.now) }
    // And by the representation the file has that text.
    ensures read { IfOk result (IsReadBack (D.contents bench.new) (I.remaining source.old) (I.remaining source.new) file.now) }
    // What the text was, where it was too long or had another digest.
    ensures refused { IfErr result (IsRefusedText (I.remaining source.old) (I.remaining source.new) expect) }
    // Bytes more at the end of the file, and all other files as they were; after a failure of the bench any bytes in the file.
    ensures left { IfErr result (IsLeft (D.contents bench.old) (D.contents bench.new) file.now) }
    ensures source_cause { HasSourceCause (I.faults source.old) (I.faults source.new) result }
    ensures bench_cause { HasBenchCause (D.faults bench.old) (D.faults bench.new) result }
{
    let offset = length_of(bench, file)?;
    let taken = append_bytes(bench, file, source)?;
    let rep = taken.rep(offset, txn, number);
    check(&expect, &rep.md5)?;
    put(bench, file, b"ENDREP\n")?;
    Ok(rep)
}
