//! The moment from which images of a disk are spoken of. No value of these types is made: they stand in what a pass knows.
use std::marker::Model;

/// The files of a disk.
#[derive(Drop)]
pub struct Held {}

impl Model for Held {
    ghost use Rattle.std.specs.Coded.{coded_ℕ, coded_list};
    ghost use Rattle.std.specs.FinMap.{code, empty};
    ghost use Rattle.fsfs_base.specs.Files.{Files};

    ghost Value = { Files };

    ghost coded = { code (coded_list coded_ℕ) (coded_list coded_ℕ) };

    ghost view = { λ _. empty };
}

/// How many operations the disk had done then, and the files that it held; and whether the passes of this opening may pack.
pub struct Since {
    pub operations: u64,
    pub files: Held,
    pub packs: bool,
}
