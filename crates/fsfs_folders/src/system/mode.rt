// Who may read, write and enter what stands somewhere.

/// The permission bits of a file or a folder, with those that set the user and the group.
#[derive(Clone, Copy, PartialEq, Eq)]
pub struct Mode {
    pub bits: u32,
}

// The bits of a mode that say who may do what; the others say what kind of thing has it.
const PERMISSIONS: u32 = 0o7777;

impl Mode {
    /// Of what the system tells of a file or a folder.
    pub fn of(told: u32) -> Mode {
        Mode {
            bits: told & PERMISSIONS,
        }
    }
}

/// The modes that what is new in a repository gets: those of what stood there before it, as Subversion has it. Of the rest, and where
/// nothing stood before, the system decides.
#[derive(Clone, Copy)]
pub struct Modes {
    /// Of a new revision's file and of its property file: that of the youngest revision's file.
    pub revision: Option<Mode>,
    /// Of a new shard: that of the folder of shards.
    pub shard: Option<Mode>,
    /// Of a new shard of property files: that of the folder of these.
    pub props_shard: Option<Mode>,
}

impl Modes {
    /// None is known.
    pub fn unknown() -> Modes {
        Modes {
            revision: None,
            shard: None,
            props_shard: None,
        }
    }

    /// Of a new file with this path.
    pub fn of_file(&self, path: &str) -> Option<Mode> {
        if path.starts_with("db/revs/") || path.starts_with("db/revprops/") {
            self.revision
        } else {
            None
        }
    }

    /// Of a new folder with this path.
    pub fn of_folder(&self, path: &str) -> Option<Mode> {
        if path.starts_with("db/revs/") {
            self.shard
        } else if path.starts_with("db/revprops/") {
            self.props_shard
        } else {
            None
        }
    }
}
