//! Reads that fill a buffer.
ghost use Rattle.std.specs.Prelude.{◌≡◌, ◌-◌, ◌+◌, ◌^◌, ◌<◌, length, OnOk};
ghost use Rattle.bw_file.specs.Reading.{AreBytes, Reads, state_at, field};

use bw_io::{Failed, Source};
use bw_model::{Fault, code};

/// Fills the buffer from the source, reads no byte more, and adds its length to the offset. Errors:
/// 305 at the number of the source's bytes, if it ends before; 701 if a read fails.
pub(crate) fn take<S: Source>(
    source: &mut S,
    offset: &mut u64,
    buffer: &mut [u8],
) -> Result<(), Fault>
    requires counter_fits { (S.state source.old).failures < 2 ^ 64 - 1 }
    requires capacity { offset.old + length buffer.old < 2 ^ 64 }
    ensures reads { Reads (λ _. buffer.new) (field (length buffer.old))
        (state_at (S.state source.old) offset.old)
        (state_at (S.state source.new) offset.new) result }
    ensures advanced { OnOk result (offset.new ≡ offset.old + length buffer.old) }
{
    let mut filled = 0;
    while filled < buffer.len() {
        let part = &mut buffer[filled..];
        match source.read(part) {
            Ok(0) => {
                are_bytes(part);
                return Err(Fault::at_byte(code::TRUNCATED, *offset));
            }
            Ok(n) => {
                are_bytes(part);
                filled += n;
                *offset += n as u64;
            }
            Err(Failed) => return Err(Fault::new(code::READ_FAILED)),
        }
    }
    Ok(())
}

/// A law: the items of a buffer are bytes.
pub(crate) fn are_bytes(buffer: &[u8])
    ensures { AreBytes buffer.now }
{}
