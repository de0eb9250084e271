//! The digests that a representation names, taken of its text piece by piece.
ghost use Rattle.std.specs.Prelude.{◌≡◌, ℕ, List, [], ◌++◌, IsSome};
ghost use Rattle.fsfs_revision.specs.Rep.Seen.{HasSeenNamed};

use fsfs_noderev::Rep;
use md5::{Digest, Md5};
use sha1::Sha1;

/// The MD5 of a text that comes in pieces, and its SHA-1 where the representation names one: a directory's names none.
#[derive(Drop)]
pub struct Digests {
    pub(crate) md5: Md5,
    pub(crate) sha1: Option<Sha1>,
}

impl Digests {
    /// Of the empty text.
    pub fn of(rep: &Rep) -> Digests
        ensures seen { HasSeenNamed result [] }
        ensures named { IsSome rep.now.unique → IsSome result.sha1 }
    {
        let sha1 = match rep.unique {
            Some(_) => Some(Sha1::new()),
            None => None,
        };
        Digests {
            md5: Md5::new(),
            sha1,
        }
    }

    /// Adds a piece to the text.
    pub fn update(&mut self, piece: &[u8])
        ensures seen { (text : List ℕ) → HasSeenNamed self.old text → HasSeenNamed self.new (text ++ piece.now) }
        ensures named { IsSome self.old.sha1 → IsSome self.new.sha1 }
    {
        self.md5.update(piece);
        if let Some(sha1) = &mut self.sha1 {
            sha1.update(piece);
        }
    }
}
