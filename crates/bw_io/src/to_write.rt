//! A sink over any writer of std.
ghost use Rattle.std.specs.Prelude.{◌≡◌};
ghost use Rattle.bw_io.specs.Sink.{sink_state};
ghost use Rattle.bw_io.specs.ToWrite.{writer_of, write_failures};

use crate::failed::Failed;
use crate::sink::Sink;
use std::io::Write;

/// A writer of std as a sink. Each of its errors counts as a failure, that of an interrupted call
/// too, and so does a write that consumes nothing of a slice that isn't empty.
#[derive(Drop)]
pub struct ToWrite<W> {
    inner: W,
    failures: u64,
}

impl<W> ToWrite<W> {
    pub fn new(inner: W) -> Self
        ensures writer { writer_of result ≡ inner }
        ensures count { write_failures result ≡ 0 }
    {
        ToWrite { inner, failures: 0 }
    }

    pub fn into_inner(self) -> W
        ensures { result ≡ writer_of self }
    {
        let ToWrite { inner, failures: _ } = self;
        inner
    }
}

impl<W: Write> Sink for ToWrite<W> {
    ghost state = { λ s. sink_state (W.contents (writer_of s)) (write_failures s) };

    fn write(&mut self, bytes: &[u8]) -> Result<usize, Failed> {
        match self.inner.write(bytes) {
            Ok(n) if n > 0 || bytes.is_empty() => Ok(n),
            _ => {
                self.failures += 1;
                Err(Failed)
            }
        }
    }

    fn failures(&self) -> u64 {
        self.failures
    }
}
