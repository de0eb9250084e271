//! What was taken of a text so far.
ghost use Rattle.std.specs.Prelude.{◌≡◌, ◌+◌, ◌<◌, ◌^◌, ◌++◌, ℕ, List, [], length};
ghost use Rattle.fsfs_txn_files.specs.ProtoRev.Reps.{IsRepOf};
ghost use Rattle.fsfs_txn_files.specs.ProtoRev.Views.{HasTaken};

use fsfs_base::{B36, TxnName};
use fsfs_noderev::{Rep, Uniquifier};
use fsfs_revision::Digester;

/// The length and the digests of the bytes that were taken of a text.
#[derive(Drop)]
pub(crate) struct Taken {
    pub(crate) digester: Digester,
    pub(crate) length: u64,
}

impl Taken {
    /// Nothing yet.
    pub(crate) fn new() -> Taken
        ensures { HasTaken result [] }
    {
        Taken {
            digester: Digester::new(),
            length: 0,
        }
    }

    /// The next bytes.
    pub(crate) fn add(&mut self, piece: &[u8])
        requires { self.old.length + length piece.now < 2 ^ 64 }
        ensures taken { (text : List ℕ) → HasTaken self.old text → HasTaken self.new (text ++ piece.now) }
        ensures length { self.new.length ≡ self.old.length + length piece.now }
    {
        self.digester.update(piece);
        self.length += piece.len() as u64;
    }

    /// The representation of the text, which begins at this offset of the prototype file.
    pub(crate) fn rep(self, offset: u64, txn: &TxnName, number: &B36) -> Rep
        ensures { (text : List ℕ) → HasTaken self text → IsRepOf result offset text txn.now number.now }
    {
        let Taken { digester, length } = self;
        let (md5, sha1) = digester.finish();
        Rep {
            rev: None,
            offset,
            length,
            size: length,
            md5,
            unique: Some(Uniquifier {
                sha1,
                txn: *txn,
                number: *number,
            }),
        }
    }
}
