//! The bytes of a segment that is being read.
ghost use Rattle.std.specs.Prelude.{◌≡◌, ◌+◌, ◌-◌, ◌^◌, ◌<◌, ◌≤◌, IfOk, IsOkUnless, OnOk, length};
ghost use Rattle.std.specs.Prelude.{slice_range, take};
ghost use Rattle.bw_model.specs.Fault.{no_memory};
ghost use Rattle.bw_io.specs.Shared.{bytes_in};
ghost use Rattle.bw_file.specs.Reading.{Reads, state_at, field};
ghost use Rattle.bw_file.specs.SegmentBytes.{bytes_held, AreNext};

use crate::take::{are_bytes, take};
use bw_io::{SharedBytes, Source};
use bw_model::Fault;
use std::alloc::Global;

/// The bytes of a segment, of which the first ones have been read: either bytes that the source
/// keeps and shares, or memory of the segment's own, into which they are copied.
#[derive(Drop)]
pub(crate) enum SegmentBytes {
    Shared(SharedBytes),
    Own(Vec<u8>),
}

impl SegmentBytes {
    /// Returns `size` bytes of which none has been read. They are shared if the source keeps as
    /// many.
    pub(crate) fn of<S: Source>(alloc: Global, source: &S, size: usize) -> Result<Self, Fault>
        ensures size { IfOk result (λ bytes. length (bytes_held bytes) ≡ size) }
        ensures next { IfOk result (λ bytes. AreNext bytes 0 (S.kept source.now)) }
        ensures only_oom { IsOkUnless result no_memory }
    {
        if let Some(shared) = source.share(size) {
            return Ok(SegmentBytes::Shared(shared));
        }
        let mut own = Vec::with_capacity(alloc, size)?;
        own.resize(size, 0)?;
        Ok(SegmentBytes::Own(own))
    }

    /// Reads the next `size` of these bytes, from `start` on, and adds them to the offset. Errors:
    /// 305 at the number of the source's bytes, if it ends before; 701 if a read fails.
    pub(crate) fn take<S: Source>(
        &mut self,
        source: &mut S,
        offset: &mut u64,
        start: usize,
        size: usize,
    ) -> Result<(), Fault>
        requires counter_fits { (S.state source.old).failures < 2 ^ 64 - 1 }
        requires capacity { offset.old + size < 2 ^ 64 }
        requires within { start + size ≤ length (bytes_held self.old) }
        requires next { AreNext self.old start (S.kept source.old) }
        ensures reads { Reads (λ _. slice_range (bytes_held self.new) start (start + size))
            (field size) (state_at (S.state source.old) offset.old)
            (state_at (S.state source.new) offset.new) result }
        ensures advanced { OnOk result (offset.new ≡ offset.old + size) }
        ensures next { OnOk result (AreNext self.new (start + size) (S.kept source.new)) }
        ensures before { take start (bytes_held self.new) ≡ take start (bytes_held self.old) }
        ensures long { length (bytes_held self.new) ≡ length (bytes_held self.old) }
    {
        match self {
            SegmentBytes::Shared(shared) => {
                are_bytes(&shared.as_slice()[start..start + size]);
                source.pass(size);
                *offset += size as u64;
                Ok(())
            }
            SegmentBytes::Own(own) => {
                take(source, offset, &mut own[start..start + size])?;
                Ok(())
            }
        }
    }

    /// Returns the bytes.
    #[inline(always)]
    pub(crate) fn as_slice(&self) -> &[u8]
        ensures { result.now ≡ bytes_held self.now }
    {
        match self {
            SegmentBytes::Shared(shared) => shared.as_slice(),
            SegmentBytes::Own(own) => own,
        }
    }

    /// Returns the bytes, all of which have been read.
    pub(crate) fn into_shared(self, alloc: Global) -> Result<SharedBytes, Fault>
        ensures bytes { IfOk result (λ shared. bytes_in shared ≡ bytes_held self) }
        ensures only_oom { IsOkUnless result no_memory }
    {
        match self {
            SegmentBytes::Shared(shared) => Ok(shared),
            SegmentBytes::Own(own) => SharedBytes::new(alloc, own),
        }
    }
}
