//! Reads that fill a buffer from a place of a device on.
ghost use Rattle.std.specs.Prelude.{◌≡◌, ◌+◌, ◌-◌, ◌^◌, ◌<◌, length, IfErr, IfSome, OnOk};
ghost use Rattle.bw_io.specs.Source.{failed_by};
ghost use Rattle.bw_memory.specs.Filling.{AreBytesAt, IsFillFault};

use bw_io::{Failed, RandomAccess};
use bw_model::{Fault, code};

/// Fills the buffer from a place on. Errors: 305 at the end of the device, if it ends before; 701 if
/// a read fails.
pub(crate) fn fill_at<D: RandomAccess>(
    device: &mut D,
    at: u64,
    buffer: &mut [u8],
) -> Result<(), Fault>
    requires counter_fits { (D.state device.old).failures < 2 ^ 64 - 1 }
    requires capacity { at + length buffer.old < 2 ^ 64 }
    ensures filled { OnOk result (IfSome (D.state device.old).known (AreBytesAt at buffer.new)) }
    ensures same { (D.state device.new).known ≡ (D.state device.old).known }
    ensures count { (D.state device.new).failures
        ≡ (D.state device.old).failures + failed_by result }
    ensures refused { IfErr result
        (IsFillFault (D.state device.old).known at (length buffer.old)) }
{
    let mut filled = 0;
    while filled < buffer.len() {
        match device.read_at(at + filled as u64, &mut buffer[filled..]) {
            Ok(0) => return Err(Fault::at_byte(code::TRUNCATED, at + filled as u64)),
            Ok(n) => filled += n,
            Err(Failed) => return Err(Fault::new(code::READ_FAILED)),
        }
    }
    Ok(())
}
