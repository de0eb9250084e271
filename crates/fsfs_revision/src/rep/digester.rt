//! The two digests of a text, taken in piece by piece.
ghost use Rattle.std.specs.Prelude.{◌≡◌, ℕ, List, [], ◌++◌};
ghost use Rattle.md5.specs.Md5.{md5};
ghost use Rattle.sha1.specs.Sha1.{sha1};
ghost use Rattle.fsfs_revision.specs.Rep.Seen.{HasSeen};

use fsfs_base::HexDigest;
use md5::{Digest, Md5};
use sha1::Sha1;

/// The MD5 and the SHA-1 of a text that comes in pieces.
#[derive(Drop)]
pub struct Digester {
    md5: Md5,
    sha1: Sha1,
}

impl Digester {
    /// Of the empty text.
    pub fn new() -> Digester
        ensures { HasSeen result [] }
    {
        Digester {
            md5: Md5::new(),
            sha1: Sha1::new(),
        }
    }

    /// Adds a piece to the text.
    pub fn update(&mut self, piece: &[u8])
        ensures { (text : List ℕ) → HasSeen self.old text → HasSeen self.new (text ++ piece.now) }
    {
        self.md5.update(piece);
        self.sha1.update(piece);
    }

    /// The MD5 and the SHA-1 of the text.
    pub fn finish(self) -> (HexDigest<16>, HexDigest<20>)
        ensures md5 { (text : List ℕ) → HasSeen self text → result.0.bytes ≡ md5 text }
        ensures sha1 { (text : List ℕ) → HasSeen self text → result.1.bytes ≡ sha1 text }
    {
        let Digester { md5, sha1 } = self;
        let md5 = HexDigest {
            bytes: md5.finalize(),
        };
        let sha1 = HexDigest {
            bytes: sha1.finalize(),
        };
        (md5, sha1)
    }
}
