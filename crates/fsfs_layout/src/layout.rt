//! How the files of a repository are laid out.
ghost use Rattle.std.specs.Prelude.{◌≡◌, ◌≤◌, ◌<◌, ◌/◌, ◌%◌, ◌↔◌, IsTrue};
ghost use Rattle.fsfs_layout.specs.Folders.{AreSized, AreSized-prop, AreShards, size_of};
ghost use Rattle.fsfs_layout.specs.declared.folders.Folders.TheVariants.{Shards};
ghost use Rattle.fsfs_layout.specs.declared.format.Format.TheVariants.{Four};

use crate::folders::Folders;
use crate::format::Format;
use fsfs_base::RevNum;

/// In one folder all revisions count as one shard: there are no more of them, from 0 to 2,147,483,647.
const ALL_REVISIONS: u32 = 2_147_483_648;

/// How the files of a repository are laid out: its format, and its shards or its one folder.
#[derive(Clone, Copy, Debug, PartialEq, Eq)]
pub struct Layout {
    format: Format,
    folders: Folders,
    ghost sized: { AreSized folders } by { AreSized-prop folders },
}

impl Layout {
    /// The layout of this format, with these folders.
    pub fn new(format: Format, folders: Folders) -> Layout
        requires { AreSized folders }
        ensures format { result.format ≡ format }
        ensures folders { result.folders ≡ folders }
    {
        Layout { format, folders }
    }

    /// Shards of so many revisions, in format 4.
    pub fn sharded(shard_size: u32) -> Layout
        requires some { 0 < shard_size }
        requires most { shard_size ≤ 2147483647 }
        ensures format { result.format ≡ Four }
        ensures folders { result.folders ≡ Shards shard_size }
    {
        Layout::new(Format::Four, Folders::Shards(shard_size))
    }

    /// The format.
    pub fn format(self) -> Format
        ensures { result ≡ self.format }
    {
        self.format
    }

    /// The folders of the files of revisions.
    pub fn folders(self) -> Folders
        ensures folders { result ≡ self.folders }
        ensures sized { AreSized result }
    {
        self.folders
    }

    /// Whether shards can be packed.
    pub fn packs(self) -> bool
        ensures { IsTrue result ↔ ((self.format ≡ Four) × AreShards self.folders) }
    {
        match (self.format, self.folders) {
            (Format::Four, Folders::Shards(_)) => true,
            _ => false,
        }
    }

    /// How many revisions a shard has. One folder counts as a shard of all the revisions that there can be.
    pub fn shard_size(self) -> u32
        ensures size { result ≡ size_of self.folders }
        ensures some { 0 < result }
        ensures most { result ≤ 2147483648 }
    {
        match self.folders {
            Folders::Shards(size) => size,
            Folders::OneFolder => ALL_REVISIONS,
        }
    }

    /// The shard that a revision is in; 0 in one folder.
    pub fn shard_of(self, rev: RevNum) -> u32
        ensures { result ≡ rev / size_of self.folders }
    {
        rev.get() / self.shard_size()
    }

    /// How many revisions stand before this one in its shard, or in the one folder.
    pub fn place_in_shard(self, rev: RevNum) -> u32
        ensures { result ≡ rev % size_of self.folders }
    {
        rev.get() % self.shard_size()
    }
}
