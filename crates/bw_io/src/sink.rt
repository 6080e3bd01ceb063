//! I/O sinks: where bytes go.
ghost use Rattle.std.specs.Prelude.{◌≡◌, ◌-◌, ◌^◌, ◌<◌, length, IfOk};
ghost use Rattle.std.specs.Io.{WritesAtMost};
ghost use Rattle.std.specs.Io.KnownBytes.{WriteAppends};
ghost use Rattle.bw_io.specs.Failure.{failures_after};
ghost use Rattle.bw_io.specs.Sink.{SinkState};

use crate::failed::Failed;

/// Consumes bytes piece by piece, for a device that counts its failures.
pub trait Sink {
    /// The bytes consumed, if the sink states them: memory does, a file doesn't. And how many
    /// writes have failed.
    ghost state: { Self → SinkState };

    /// Consumes bytes from the front of the slice. Returns how many: at least 1 if the slice isn't
    /// empty. The count of failures must be less than 2^64 - 1.
    fn write(&mut self, bytes: &[u8]) -> Result<usize, Failed>
        requires { (state self.old).failures < 2 ^ 64 - 1 }
        ensures bound { WritesAtMost result bytes.now }
        ensures progress { IfOk result (λ n. 0 < length bytes.now → 0 < n) }
        ensures bytes { WriteAppends (state self.old).taken (state self.new).taken
            result bytes.now }
        ensures count { (state self.new).failures
            ≡ failures_after result (state self.old).failures };

    /// Returns how many writes have failed.
    fn failures(&self) -> u64
        ensures { result ≡ (state self.now).failures };
}
