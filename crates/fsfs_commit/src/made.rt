// What a commit writes.
ghost use Rattle.std.specs.Prelude.{◌≡◌};

use fsfs_base::{Name, RevNum};

/// What a commit writes beside the file of the revision, made before the lock is taken: all memory is taken then.
#[derive(Drop)]
pub struct Made {
    pub rev: RevNum,
    pub rev_file: Name,
    /// The folder of the revision's file, where it is the first of its shard.
    pub rev_folder: Option<Name>,
    pub props_file: Name,
    pub props_folder: Option<Name>,
    pub properties: Vec<u8>,
    pub current: Vec<u8>,
}

impl Made {
    /// The revision that is written.
    pub fn rev(&self) -> RevNum
        ensures { result ≡ self.now.rev }
    {
        self.rev
    }
}
