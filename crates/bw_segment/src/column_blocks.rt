//! The blocks of one column of a table.
ghost use Rattle.bw_segment.specs.Fronts.{AreFronts};

use bw_model::Fault;
use std::alloc::Global;

/// The blocks of one column: those of all segments back to back, or one block that each segment has.
/// If they are long, their null planes are stored a second time, back to back, to be read without
/// the codes between them.
#[derive(Drop)]
pub struct ColumnBlocks {
    pub(crate) size: usize,
    /// From the first byte of a block to that of the next: `size`, or 0 if all segments have one block.
    pub(crate) stride: usize,
    pub(crate) bytes: Vec<u8>,
    pub(crate) fronts: Vec<u8>,
    /// Whether the first 64 bytes of each block are stored apart too.
    is_long: bool,
    ghost same: { AreFronts stride size bytes.items fronts.items },
}

impl ColumnBlocks {
    ghost use Rattle.std.specs.Prelude.{◌≡◌, ◌+◌, ◌*◌, ◌≤◌, ◌++◌, [], IfSome, IsTrue, OnOk};
    ghost use Rattle.std.specs.Prelude.{IsOkUnless, drop, length, take};
    ghost use Rattle.bw_model.specs.Fault.{no_memory};
    ghost use Rattle.bw_segment.specs.Fronts.{HasFronts};

    /// Returns a column without a block, whose blocks will have `size` bytes.
    pub(crate) fn new(alloc: Global, size: usize, is_long: bool) -> Self
        ensures size { result.size ≡ size }
        ensures stride { result.stride ≡ size }
        ensures bytes { result.bytes.items ≡ [] }
    {
        ColumnBlocks {
            size,
            stride: size,
            bytes: Vec::new(alloc),
            fronts: Vec::new(alloc),
            is_long,
        }
    }

    /// Returns a column of these blocks, each of `size` bytes, back to back.
    pub fn of_bytes(alloc: Global, size: usize, bytes: Vec<u8>) -> Self
        ensures size { result.size ≡ size }
        ensures stride { result.stride ≡ size }
        ensures bytes { result.bytes.items ≡ bytes.items }
    {
        ColumnBlocks {
            size,
            stride: size,
            bytes,
            fronts: Vec::new(alloc),
            is_long: false,
        }
    }

    /// Returns a column of which every segment has this block.
    pub(crate) fn repeat(alloc: Global, block: Vec<u8>) -> Self
        ensures size { result.size ≡ length block.items }
        ensures stride { result.stride ≡ 0 }
        ensures bytes { result.bytes.items ≡ block.items }
    {
        ColumnBlocks {
            size: block.len(),
            stride: 0,
            bytes: block,
            fronts: Vec::new(alloc),
            is_long: false,
        }
    }

    /// Returns the bytes of the blocks.
    pub fn into_bytes(self) -> Vec<u8>
        ensures { result.items ≡ self.bytes.items }
    {
        self.bytes
    }

    /// Adds a block, and its first 64 bytes apart, if those of all earlier blocks are stored apart.
    /// Memory grows by the block, or by a sixteenth of the bytes so far if that is more. Errors:
    /// 801 if memory is refused.
    #[tactic(auto, using(crate::proofs::FrontLemmas::fronts_kept))]
    pub(crate) fn push(&mut self, block: &[u8]) -> Result<(), Fault>
        ensures size { self.new.size ≡ self.old.size }
        ensures stride { self.new.stride ≡ self.old.stride }
        ensures bytes { OnOk result (self.new.bytes.items ≡ self.old.bytes.items ++ block.now) }
        ensures only_oom { IsOkUnless result no_memory }
    {
        ColumnBlocks::make_room(&mut self.bytes, block.len())?;
        if self.can_store_front(block.len()) {
            return self.push_both(block);
        }
        self.bytes.extend_from_slice(block)?;
        Ok(())
    }

    /// Returns whether the first 64 bytes of a block of this length are to be stored apart.
    fn can_store_front(&self, len: usize) -> bool
        ensures size { IsTrue result → len ≡ self.now.size }
        ensures dense { IsTrue result → self.now.stride ≡ self.now.size }
        ensures capacity { IsTrue result → 64 ≤ self.now.size }
        ensures all { IsTrue result → HasFronts self.now.size self.now.bytes.items
            self.now.fronts.items }
    {
        self.is_long
            && self.stride == self.size
            && self.size >= 64
            && len == self.size
            && self.has_all_fronts()
    }

    /// Adds a block, and its first 64 bytes apart. Errors: 801 if memory is refused.
    fn push_both(&mut self, block: &[u8]) -> Result<(), Fault>
        requires size { length block.now ≡ self.old.size }
        requires dense { self.old.stride ≡ self.old.size }
        requires capacity { 64 ≤ self.old.size }
        requires all { HasFronts self.old.size self.old.bytes.items self.old.fronts.items }
        ensures size { self.new.size ≡ self.old.size }
        ensures stride { self.new.stride ≡ self.old.stride }
        ensures bytes { OnOk result (self.new.bytes.items ≡ self.old.bytes.items ++ block.now) }
        ensures only_oom { IsOkUnless result no_memory }
    {
        ColumnBlocks::make_room(&mut self.fronts, 64)?;
        self.bytes.extend_from_slice(block)?;
        self.fronts.extend_from_slice(&block[..64])?;
        Ok(())
    }

    /// Returns the first 64 bytes of the block of this number, if they are stored apart.
    #[inline(always)]
    pub(crate) fn front(&self, number: usize) -> Option<&[u8]>
        ensures front { IfSome result (λ front. front.now
            ≡ take 64 (take self.now.size
            (drop (number * self.now.stride) self.now.bytes.items))) }
        ensures size { IfSome result (λ front. length front.now ≡ 64) }
        ensures capacity { IfSome result (λ _. number * self.now.stride + self.now.size
            ≤ length self.now.bytes.items) }
    {
        let fronts: &[u8] = &self.fronts;
        if number >= fronts.len() / 64 {
            return None;
        }
        let start = 64 * number;
        Some(&fronts[start..start + 64])
    }

    /// Returns whether the first 64 bytes of every block are stored apart.
    fn has_all_fronts(&self) -> bool
        ensures { IsTrue result → HasFronts self.now.size self.now.bytes.items
            self.now.fronts.items }
    {
        let count = self.fronts.len() / 64;
        match count.checked_mul(self.size) {
            Some(len) => self.fronts.len() == 64 * count && self.bytes.len() == len,
            None => false,
        }
    }

    /// Reserves memory for `count` bytes, or for a sixteenth of the bytes so far if that is more.
    /// Errors: 801 if memory is refused.
    fn make_room(bytes: &mut Vec<u8>, count: usize) -> Result<(), Fault>
        ensures same { bytes.new.items ≡ bytes.old.items }
        ensures only_oom { IsOkUnless result no_memory }
    {
        if bytes.capacity() - bytes.len() < count {
            let more = count.max(bytes.len() / 16);
            bytes.reserve_exact(more)?;
        }
        Ok(())
    }
}
