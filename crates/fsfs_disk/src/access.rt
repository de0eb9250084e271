// What a path is mounted for.
ghost use Rattle.std.specs.Prelude.{IsTrue};
ghost use Rattle.fsfs_disk.specs.Accesses.{MayChange};

/// What a path is mounted for.
#[derive(Clone, Copy)]
pub enum Access {
    /// A look: no file is changed.
    Read,
    /// The repository that stands there is to be changed.
    Write,
    /// A repository is to be made there.
    Create,
}

impl Access {
    /// Whether files may be changed.
    pub fn may_change(self) -> bool
        ensures { MayChange self → IsTrue result }
    {
        match self {
            Access::Read => false,
            Access::Write | Access::Create => true,
        }
    }
}
