//! A sink that keeps nothing.
ghost use Rattle.std.specs.Prelude.{None};

use fsfs_base::{Failed, Sink};

/// A sink that keeps nothing and never fails.
#[derive(Drop)]
pub(crate) struct Nowhere;

impl Sink for Nowhere {
    ghost written = { λ _. None };

    ghost faults = { λ _. 0 };

    fn write(&mut self, bytes: &[u8]) -> Result<usize, Failed> {
        Ok(bytes.len())
    }
}
