//! Own node-revisions that are written into files.
ghost use Rattle.std.specs.Prelude.{Option};
ghost use Rattle.fsfs_base.specs.Files.{Files};
ghost use Rattle.fsfs_txn_nodes.specs.Memory.Written.{HasFiles};

use fsfs_draft::Own;

/// Own node-revisions that are written into the files of a transaction's folder.
pub trait OwnFiles: Own {
    /// The files of its bench; none where it doesn't tell.
    ghost files: { Self → Option Files };

    /// As long as its bench has not failed, they tell what is settled; and its file `rev` is the prototype revision file.
    ghost told: { (own : Self) → HasFiles (Self.faults own) (files own) (Self.settled own) };
}
