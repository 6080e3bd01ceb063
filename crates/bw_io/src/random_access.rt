//! Devices that are read at places.
ghost use Rattle.std.specs.Prelude.{◌≡◌, ◌-◌, ◌^◌, ◌<◌, true, false, length, IfOk, IfSome, OnOk};
ghost use Rattle.std.specs.Io.{ReadsAtMost};
ghost use Rattle.bw_io.specs.Failure.{failures_after};
ghost use Rattle.bw_io.specs.RandomAccess.{AccessState, AreAt, IsPastEnd};

use crate::failed::Failed;

/// Yields its bytes from any place on, and says whether they may have changed since it was opened.
pub trait RandomAccess {
    /// Its bytes, if it states them: memory does, a file doesn't. How many calls have failed. And
    /// whether it was found unchanged since the last read.
    ghost state: { Self → AccessState };

    /// Reads from a place on into the front of the buffer. Returns how many bytes were read: 0 only
    /// if the buffer is empty, or there are none from that place on. The count of failures must be
    /// less than 2^64 - 1.
    fn read_at(&mut self, at: u64, buffer: &mut [u8]) -> Result<usize, Failed>
        requires { (state self.old).failures < 2 ^ 64 - 1 }
        ensures bound { ReadsAtMost result buffer.new }
        ensures bytes { IfOk result (λ count. IfSome (state self.old).known
            (AreAt at count buffer.new)) }
        ensures some { IfOk result (λ count. count ≡ 0 → IfSome (state self.old).known
            (IsPastEnd at buffer.new)) }
        ensures same { (state self.new).known ≡ (state self.old).known }
        ensures unconfirmed { (state self.new).confirmed ≡ false }
        ensures count { (state self.new).failures
            ≡ failures_after result (state self.old).failures };

    /// Returns how many bytes it has.
    fn size(&mut self) -> Result<u64, Failed>
        requires { (state self.old).failures < 2 ^ 64 - 1 }
        ensures size { IfOk result (λ size. IfSome (state self.old).known
            (λ bytes. size ≡ length bytes)) }
        ensures same { (state self.new).known ≡ (state self.old).known }
        ensures count { (state self.new).failures
            ≡ failures_after result (state self.old).failures };

    /// Compares it with what it was when it was opened. An error if it may have changed.
    fn confirm(&mut self) -> Result<(), Failed>
        requires { (state self.old).failures < 2 ^ 64 - 1 }
        ensures confirmed { OnOk result ((state self.new).confirmed ≡ true) }
        ensures same { (state self.new).known ≡ (state self.old).known }
        ensures count { (state self.new).failures
            ≡ failures_after result (state self.old).failures };
}

/// Bytes in memory, which never change.
#[derive(Drop)]
pub struct BytesAt<'a> {
    bytes: &'a [u8],
    is_confirmed: bool,
}

impl<'a> BytesAt<'a> {
    ghost use Rattle.std.specs.Prelude.{◌≡◌, Some, false};
    ghost use Rattle.bw_io.specs.RandomAccess.{access_state};
    ghost use Rattle.bw_io.specs.BytesAt.{bytes_state};

    /// Returns a device of these bytes.
    pub fn new(bytes: &'a [u8]) -> Self
        ensures { bytes_state result ≡ access_state (Some bytes.now) 0 false }
    {
        BytesAt {
            bytes,
            is_confirmed: false,
        }
    }
}

impl RandomAccess for BytesAt<'_> {
    ghost use Rattle.bw_io.specs.BytesAt.{bytes_state};

    ghost state = { bytes_state };

    fn read_at(&mut self, at: u64, buffer: &mut [u8]) -> Result<usize, Failed> {
        self.is_confirmed = false;
        let start = self.bytes.len().min(at as usize);
        let rest = &self.bytes[start..];
        let count = rest.len().min(buffer.len());
        buffer[..count].copy_from_slice(&rest[..count]);
        Ok(count)
    }

    fn size(&mut self) -> Result<u64, Failed> {
        Ok(self.bytes.len() as u64)
    }

    fn confirm(&mut self) -> Result<(), Failed> {
        self.is_confirmed = true;
        Ok(())
    }
}
