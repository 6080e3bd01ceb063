//! Bytes in memory as a source that never fails.
ghost use Rattle.std.specs.Prelude.{◌≡◌, Some, []};
ghost use Rattle.bw_io.specs.Source.{source_state};
ghost use Rattle.bw_file.specs.Memory.{memory_state};

use bw_io::{Failed, SharedBytes, Source};

/// The bytes that are still unread.
#[derive(Drop)]
pub struct Memory<'a> {
    pub(crate) rest: &'a [u8],
}

impl<'a> Memory<'a> {
    /// Returns a source of these bytes.
    pub fn new(bytes: &'a [u8]) -> Self
        ensures { memory_state result ≡ source_state (Some bytes.now) 0 }
    {
        Memory { rest: bytes }
    }
}

impl Source for Memory<'_> {
    ghost state = { memory_state };

    ghost kept = { λ _. [] };

    fn read(&mut self, buffer: &mut [u8]) -> Result<usize, Failed> {
        let count = self.rest.len().min(buffer.len());
        let (front, rest) = self.rest.split_at(count);
        buffer[..count].copy_from_slice(front);
        self.rest = rest;
        Ok(count)
    }

    fn share(&self, _count: usize) -> Option<SharedBytes> {
        None
    }

    fn pass(&mut self, _count: usize) {}

    fn failures(&self) -> u64 {
        0
    }
}
