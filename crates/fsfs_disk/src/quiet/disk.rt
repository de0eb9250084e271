//! A disk that tells nothing of its files, as the real one does: who shares it need not know what they stand for.
ghost use Rattle.std.specs.Prelude.{◌≡◌, false};

use crate::Disk;

/// A disk that tells nothing of its files. Whoever calls it owes nothing then; so that a file is there which is to get another name, and that one is firm
/// which a bench is to give away, is tried as the call is made. Where it isn't so, nothing is done, and that is noted.
#[derive(Drop)]
pub struct QuietDisk<D: Disk> {
    pub(crate) disk: D,
    pub(crate) has_lost: bool,
}

impl<D: Disk> QuietDisk<D> {
    /// This disk, which tells nothing from now on.
    pub fn new(disk: D) -> QuietDisk<D>
        ensures same { result.disk ≡ disk }
        ensures none { result.has_lost ≡ false }
    {
        QuietDisk {
            disk,
            has_lost: false,
        }
    }

    /// Whether a file was gone as it was to get its name.
    pub fn has_lost(&self) -> bool
        ensures { result ≡ self.now.has_lost }
    {
        self.has_lost
    }

    /// The disk again.
    pub fn into_disk(self) -> D
        ensures { result ≡ self.disk }
    {
        let QuietDisk { disk, .. } = self;
        disk
    }
}
