// Where repositories stand.
ghost use Rattle.std.specs.Prelude.{◌≡◌, ℕ, List, [], Option, true, IfOk, IfSome};
ghost use Rattle.fsfs_folders.specs.System.CallRecord.{CallRecord};
ghost use Rattle.fsfs_folders.specs.Keeping.{are_rooted};

use fsfs_base::Name;
use fsfs_folders::{CallError, Calls};
use std::alloc::Global;

/// What no two files or folders of a system have alike.
#[derive(Clone, Copy, PartialEq, Eq)]
pub struct FileId {
    pub device: u64,
    pub number: u64,
}

/// A system of folders, each with a path.
pub trait FileSystem {
    /// The calls on what stands below one folder.
    type Root: Calls + Drop;

    /// With what the calls below the folder of a path are to begin; none where they don't tell. No call changes this.
    ghost record_at: { Self → List ℕ → Option CallRecord };

    /// The calls on what stands below the folder of a path, whether there is such a folder or not. They begin, in a folder where
    /// each file has its folders. Each path is asked for once.
    fn open(&mut self, path: &str) -> Result<Self::Root, CallError>
        ensures record { IfOk result (λ calls. Self.Root.history calls ≡ record_at self.old path.now) }
        ensures begins { IfOk result (λ calls. IfSome (Self.Root.history calls) (λ r. (r.calls ≡ []) × (are_rooted r.first.folders r.first.files ≡ true))) }
        ensures same { (p : List ℕ) → record_at self.new p ≡ record_at self.old p };

    /// Drops the folder of a path, if nothing stands in it. What is told stays: nothing was there.
    fn drop_empty(&mut self, path: &str)
        ensures { (p : List ℕ) → record_at self.new p ≡ record_at self.old p };

    /// Which file or folder has a path. `NotFound`: none.
    fn id(&self, path: &str) -> Result<FileId, CallError>;

    /// The names of all that stands right in a folder, whatever it is, in no order. One of more than 128 bytes, or that isn't UTF-8,
    /// is an error.
    fn entries(&self, alloc: Global, folder: &str) -> Result<Vec<Name>, CallError>;
}
