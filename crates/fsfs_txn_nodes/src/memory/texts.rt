//! Texts put at the end of the prototype revision file of a transaction.
ghost use Rattle.std.specs.Prelude.{◌≡◌, Bool, IfOk, IfErr};
ghost use Rattle.fsfs_txn_files.specs.ProtoRev.Texts.{IsRefusedText};
ghost use Rattle.fsfs_txn_files.specs.ProtoRev.Causes.{HasSourceCause, HasBenchCause};
ghost use Rattle.fsfs_txn_nodes.specs.Memory.Texts.{IsTextPut, IsTextLeft};

use crate::memory::files::OwnFiles;
use crate::memory::held_nodes::HeldNodes;
use fsfs_base::{B36, HexDigest, Source};
use fsfs_disk::Bench;
use fsfs_noderev::Rep;
use fsfs_txn_files::{TextError, append_text as append};

/// Own node-revisions beside a prototype revision file, whose texts are written like their other files.
pub trait OwnTexts: OwnFiles {
    /// Whether its bench tells the files.
    ghost tells: { Self → Bool };

    /// Puts all bytes that the source has left at the end of the prototype file, as a plain representation with this number. It
    /// belongs to no node-revision yet. The bytes of a text that is refused stay at the end of the file.
    fn append_text<I: Source>(
        &mut self,
        source: &mut I,
        expect: Option<HexDigest<16>>,
        number: &B36,
    ) -> Result<Rep, TextError>
        ensures put { IfOk result (IsTextPut (tells self.old) (I.remaining source.old) (I.remaining source.new) expect (Self.folder self.old) (Self.folder self.new) (Self.settled self.old) (Self.settled self.new) (Self.txn self.old) number.now) }
        ensures refused { IfErr result (IsRefusedText (I.remaining source.old) (I.remaining source.new) expect) }
        ensures left { IfErr result (IsTextLeft (Self.folder self.old) (Self.folder self.new) (Self.settled self.old) (Self.settled self.new)) }
        ensures source_cause { HasSourceCause (I.faults source.old) (I.faults source.new) result }
        ensures bench_cause { HasBenchCause (Self.faults self.old) (Self.faults self.new) result }
        ensures name { Self.txn self.new ≡ Self.txn self.old };
}

impl<D: Bench> OwnTexts for HeldNodes<D> {
    ghost use Rattle.std.specs.Prelude.{is_some};

    ghost tells = { λ h. is_some (D.contents h.bench) };

    fn append_text<I: Source>(
        &mut self,
        source: &mut I,
        expect: Option<HexDigest<16>>,
        number: &B36,
    ) -> Result<Rep, TextError> {
        append(
            &mut self.bench,
            &self.proto,
            source,
            expect,
            &self.txn,
            number,
        )
    }
}
