// The bench of a disk that tells nothing. The type has a file of its own, so that its ghost field imports no more than it names.
ghost use Rattle.std.specs.Prelude.{◌≡◌, true};
ghost use Rattle.fsfs_disk.specs.Last.{is_last};

use crate::Bench;
use fsfs_base::Name;

/// A bench that tells nothing of its files. It knows which file was written last, and whether that one was made firm since.
#[derive(Drop)]
pub struct QuietBench<B: Bench> {
    pub(crate) bench: B,
    pub(crate) last: Option<Name>,
    pub(crate) is_firm: bool,
    ghost known: { is_last (B.contents bench) (B.firm_to bench) last is_firm ≡ true },
}
