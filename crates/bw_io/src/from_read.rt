//! A source over any reader of std.
ghost use Rattle.std.specs.Prelude.{◌≡◌, []};
ghost use Rattle.bw_io.specs.FromRead.{reader_of, read_failures};
ghost use Rattle.bw_io.specs.Source.{source_state};

use crate::failed::Failed;
use crate::shared::SharedBytes;
use crate::source::Source;
use std::io::Read;

/// A reader of std as a source, which buffers nothing. Each of its errors counts as a failure, that
/// of an interrupted call too.
#[derive(Drop)]
pub struct FromRead<R> {
    inner: R,
    failures: u64,
}

impl<R> FromRead<R> {
    pub fn new(inner: R) -> Self
        ensures reader { reader_of result ≡ inner }
        ensures count { read_failures result ≡ 0 }
    {
        FromRead { inner, failures: 0 }
    }

    pub fn into_inner(self) -> R
        ensures { result ≡ reader_of self }
    {
        let FromRead { inner, failures: _ } = self;
        inner
    }
}

impl<R: Read> Source for FromRead<R> {
    ghost state = { λ s. source_state (R.remaining (reader_of s)) (read_failures s) };

    ghost kept = { λ _. [] };

    fn read(&mut self, buffer: &mut [u8]) -> Result<usize, Failed> {
        match self.inner.read(buffer) {
            Ok(n) => Ok(n),
            Err(_) => {
                self.failures += 1;
                Err(Failed)
            }
        }
    }

    fn share(&self, _count: usize) -> Option<SharedBytes> {
        None
    }

    fn pass(&mut self, _count: usize) {}

    fn failures(&self) -> u64 {
        self.failures
    }
}
