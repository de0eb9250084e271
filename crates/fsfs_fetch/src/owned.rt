//! An owned disk beside its youngest revision.
ghost use Rattle.std.specs.Prelude.{◌≡◌, ◌<◌};

use crate::reads::Reads;
use fsfs_base::{Failed, Name, RevNum};
use fsfs_disk::Disk;
use fsfs_layout::{Layout, RepositoryFile};

/// A disk that nobody else writes to, with the youngest revision of its repository and its layout.
#[derive(Drop)]
pub struct OwnedReads<D: Disk> {
    disk: D,
    youngest: RevNum,
    layout: Layout,
}

impl<D: Disk> OwnedReads<D> {
    pub fn new(disk: D, youngest: RevNum, layout: Layout) -> OwnedReads<D>
        ensures disk { result.disk ≡ disk }
        ensures youngest { result.youngest ≡ youngest }
        ensures layout { result.layout ≡ layout }
    {
        OwnedReads {
            disk,
            youngest,
            layout,
        }
    }

    /// The disk again.
    pub fn into_disk(self) -> D
        ensures { result ≡ self.disk }
    {
        let OwnedReads { disk, .. } = self;
        disk
    }
}

impl<D: Disk> Reads for OwnedReads<D> {
    ghost use Rattle.fsfs_fetch.specs.Owned.{OwnedBelow, owned_view, state_of};
    ghost use Rattle.fsfs_fetch.specs.OwnedShort.{owned_short};
    ghost use Rattle.fsfs_fetch.specs.Props.{owned_props};

    ghost Below = { OwnedBelow };

    ghost view = { λ r. owned_view (state_of (D.trace r.disk) (D.mount_path r.disk) (D.may_write r.disk) (D.bench_faults r.disk)) r.youngest r.layout };

    ghost may_meet = { λ r. owned_props (D.trace r.disk) r.layout };

    ghost faults = { λ r. D.faults r.disk };

    fn layout(&self) -> Layout {
        self.layout
    }

    fn youngest(&mut self) -> RevNum {
        self.youngest
    }

    fn read(
        &mut self,
        name: &Name,
        offset: u64,
        buffer: &mut [u8],
    ) -> Result<Option<usize>, Failed> {
        self.disk.read(name, offset, buffer)
    }

    fn read_props(&mut self, rev: RevNum, buffer: &mut [u8]) -> Result<Option<usize>, Failed> {
        let name = RepositoryFile::Props(rev).name(self.layout);
        self.disk.read(&name, 0, buffer)
    }

    fn size(&mut self, name: &Name) -> Result<Option<u64>, Failed> {
        self.disk.size(name)
    }

    ghost short = { λ r. owned_short (D.trace r.disk) (D.short r.disk) };
}
