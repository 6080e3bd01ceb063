//! I/O sources: where bytes come from.
ghost use Rattle.std.specs.Prelude.{◌≡◌, ◌-◌, ◌^◌, ◌<◌, ◌≤◌, ℕ, List, IfSome, drop, length, take};
ghost use Rattle.std.specs.Io.{ReadsAtMost};
ghost use Rattle.std.specs.Io.KnownBytes.{Consumes, ReadConsumes};
ghost use Rattle.bw_io.specs.Failure.{failures_after};
ghost use Rattle.bw_io.specs.Shared.{bytes_in};
ghost use Rattle.bw_io.specs.Source.{SourceState};

use crate::failed::Failed;
use crate::shared::SharedBytes;

/// Yields bytes piece by piece, from a device that counts its failures.
pub trait Source {
    /// The unread bytes, if the source states them: memory does, a file doesn't. And how many reads
    /// have failed.
    ghost state: { Self → SourceState };

    /// Those of the unread bytes that it has read ahead and buffers.
    ghost kept: { Self → List ℕ };

    /// Reads into the front of the buffer. Returns how many bytes were read: 0 only if the buffer
    /// is empty or the source at its end. The count of failures must be less than 2^64 - 1.
    fn read(&mut self, buffer: &mut [u8]) -> Result<usize, Failed>
        requires { (state self.old).failures < 2 ^ 64 - 1 }
        ensures bound { ReadsAtMost result buffer.new }
        ensures bytes { ReadConsumes (state self.old).known (state self.new).known
            result buffer.new }
        ensures count { (state self.new).failures
            ≡ failures_after result (state self.old).failures };

    /// Returns the next `count` bytes, if it buffers as many and can share their memory. They stay
    /// unread.
    fn share(&self, count: usize) -> Option<SharedBytes>
        ensures front { IfSome result (λ shared. bytes_in shared ≡ take count (kept self.now)) }
        ensures enough { IfSome result (λ _. count ≤ length (kept self.now)) };

    /// Consumes the next `count` bytes, all of which it must buffer.
    fn pass(&mut self, count: usize)
        requires { count ≤ length (kept self.old) }
        ensures bytes { Consumes (state self.old).known (state self.new).known
            (take count (kept self.old)) }
        ensures kept { kept self.new ≡ drop count (kept self.old) }
        ensures count { (state self.new).failures ≡ (state self.old).failures };

    /// Returns how many reads have failed.
    fn failures(&self) -> u64
        ensures { result ≡ (state self.now).failures };
}
