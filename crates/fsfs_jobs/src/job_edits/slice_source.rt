//! A source of bytes that are in memory.
ghost use Rattle.std.specs.Prelude.{◌≡◌, Some};

use fsfs_base::{Failed, Source};

/// Bytes that are left to be read. It never fails.
#[derive(Clone, Copy)]
pub(crate) struct SliceSource<'a> {
    rest: &'a [u8],
}

impl<'a> SliceSource<'a> {
    pub(crate) fn new(rest: &'a [u8]) -> SliceSource<'a>
        ensures { result.rest.now ≡ rest.now }
    {
        SliceSource { rest }
    }
}

impl<'a> Source for SliceSource<'a> {
    ghost remaining = { λ s. Some s.rest.now };

    ghost faults = { λ s. 0 };

    fn read(&mut self, buffer: &mut [u8]) -> Result<usize, Failed> {
        let count = self.rest.len().min(buffer.len());
        buffer[..count].copy_from_slice(&self.rest[..count]);
        self.rest = &self.rest[count..];
        Ok(count)
    }
}
