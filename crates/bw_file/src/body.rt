//! The part of a table file after its header, read from a source: segments, block by block, and the
//! end.
ghost use Rattle.std.specs.Prelude.{◌≡◌, ◌+◌, ◌-◌, ◌^◌, ◌<◌, ◌≤◌, [], length, take, None, OnOk};
ghost use Rattle.std.specs.Prelude.{IfOk, IfErr};
ghost use Rattle.std.specs.Io.KnownBytes.{IsAtEnd};
ghost use Rattle.bw_model.specs.Groups.{group_size};
ghost use Rattle.bw_file.specs.AnySegment.{any_layout, any_meaning};
ghost use Rattle.bw_file.specs.Blocks.{block_size, block_fault, block_from, bytes_before};
ghost use Rattle.bw_file.specs.Blocks.{segment_size, IsPlaced, IsSound};
ghost use Rattle.bw_file.specs.SegmentBytes.{bytes_held, AreNext};
ghost use Rattle.bw_file.specs.Reading.{Reads, HasByteMore, HasConsumed, state_at};
ghost use Rattle.bw_file.specs.TableReading.{plane_has_padding, has_padding, padding_from};
ghost use Rattle.bw_file.specs.TableReading.{fault_place, one_block, blocks, segment, IsValidAt};

use crate::layout::Layout;
use crate::segment_bytes::SegmentBytes;
use crate::segments::{AnySegment, block_fault, block_size, segment_size};
use crate::take::are_bytes;
use bw_io::{Failed, Source};
use bw_lanes::LANES;
use bw_model::{Fault, code};
use bw_segment::Placement;
use std::alloc::Global;
use std::rc::Rc;

/// Reads a segment of `rows` rows, block by block; each block is validated before the next is read.
/// If the source keeps the whole segment in memory, that memory is shared, not copied.
///
/// Errors: 308 at the first byte with a bit of a padding row; 307 and 306 at the first byte of a
/// block; 305 at the end of the file; 701 if a read fails; 801 if memory is refused.
pub(crate) fn read_segment<S: Source>(
    alloc: Global,
    source: &mut S,
    offset: &mut u64,
    layout: Layout,
    placement: &Rc<Placement>,
    rows: u32,
) -> Result<AnySegment, Fault>
    requires counter_fits { (S.state source.old).failures < 2 ^ 64 - 1 }
    requires capacity { offset.old < 2 ^ 62 }
    requires placed { IsPlaced layout placement.now.value }
    requires nonempty { 1 ≤ rows }
    requires within_limit { rows ≤ group_size }
    ensures reads { Reads (λ found. (any_meaning found).rows)
        (segment layout placement.now.value.schema.columns.items rows)
        (state_at (S.state source.old) offset.old)
        (state_at (S.state source.new) offset.new) result }
    ensures advanced { OnOk result (offset.new ≤ offset.old + 2 ^ 19) }
    ensures layout { IfOk result (λ found. any_layout found ≡ layout) }
    ensures name { IfOk result (λ found. (any_meaning found).name
        ≡ placement.now.value.schema.name) }
    ensures columns { IfOk result
        (λ found. (any_meaning found).columns ≡ placement.now.value.schema.columns.items) }
    ensures count { IfOk result (λ found. length (any_meaning found).rows ≡ rows) }
{
    let same = placement.clone()?;
    let mut bytes = SegmentBytes::of(alloc, source, segment_size(layout, placement))?;
    read_blocks(source, offset, layout, placement, rows, &mut bytes)?;
    let shared = bytes.into_shared(alloc)?;
    Ok(AnySegment::of_blocks(layout, same, rows, shared))
}

/// Reads a segment's bytes, block by block.
fn read_blocks<S: Source>(
    source: &mut S,
    offset: &mut u64,
    layout: Layout,
    placement: &Placement,
    rows: u32,
    bytes: &mut SegmentBytes,
) -> Result<(), Fault>
    requires counter_fits { (S.state source.old).failures < 2 ^ 64 - 1 }
    requires capacity { offset.old < 2 ^ 62 }
    requires rows { rows ≤ group_size }
    requires size { length (bytes_held bytes.old)
        ≡ segment_size layout placement.now.schema.columns.items }
    requires next { AreNext bytes.old 0 (S.kept source.old) }
    ensures reads { Reads (λ _. bytes_held bytes.new)
        (blocks layout placement.now.schema.columns.items rows 0
        (length placement.now.schema.columns.items) []) (state_at (S.state source.old) offset.old)
        (state_at (S.state source.new) offset.new) result }
    ensures advanced { OnOk result (offset.new ≤ offset.old + 2 ^ 19) }
    ensures sound { OnOk result
        (IsSound layout placement.now.schema.columns.items rows (bytes_held bytes.new)) }
{
    let mut start = 0;
    for col in 0..placement.schema.columns.len() {
        block_is_within(layout, placement, col);
        read_block(source, offset, layout, placement, col, rows, bytes, start)?;
        start += block_size(layout, placement, col);
    }
    Ok(())
}

/// A law: a column's block ends within the segment.
fn block_is_within(layout: Layout, placement: &Placement, col: usize)
    requires { col < length placement.now.schema.columns.items }
    ensures { bytes_before layout placement.now.schema.columns.items col
        + block_size layout placement.now.schema.columns.items col
        ≤ segment_size layout placement.now.schema.columns.items }
{}

/// Reads a column's block, which begins at `start` among the bytes, and validates it.
fn read_block<S: Source>(
    source: &mut S,
    offset: &mut u64,
    layout: Layout,
    placement: &Placement,
    col: usize,
    rows: u32,
    bytes: &mut SegmentBytes,
    start: usize,
) -> Result<(), Fault>
    requires counter_fits { (S.state source.old).failures < 2 ^ 64 - 1 }
    requires capacity { offset.old < 2 ^ 63 }
    requires column { col < length placement.now.schema.columns.items }
    requires rows { rows ≤ group_size }
    requires within { start + block_size layout placement.now.schema.columns.items col
        ≤ length (bytes_held bytes.old) }
    requires next { AreNext bytes.old start (S.kept source.old) }
    ensures reads { Reads (λ _. block_from layout placement.now.schema.columns.items col
        start (bytes_held bytes.new)) (one_block layout placement.now.schema.columns.items
        rows col) (state_at (S.state source.old) offset.old)
        (state_at (S.state source.new) offset.new) result }
    ensures advanced { OnOk result
        (offset.new ≡ offset.old + block_size layout placement.now.schema.columns.items col) }
    ensures good { OnOk result (block_fault layout placement.now.schema.columns.items col rows
        (block_from layout placement.now.schema.columns.items col start (bytes_held bytes.new))
        ≡ None) }
    ensures next { OnOk result (AreNext bytes.new
        (start + block_size layout placement.now.schema.columns.items col) (S.kept source.new)) }
    ensures before { take start (bytes_held bytes.new) ≡ take start (bytes_held bytes.old) }
    ensures long { length (bytes_held bytes.new) ≡ length (bytes_held bytes.old) }
{
    let at = *offset;
    let size = block_size(layout, placement, col);
    bytes.take(source, offset, start, size)?;
    let block = &bytes.as_slice()[start..start + size];
    validate_block(layout, placement, col, rows, block, at)
}

/// Validates the block of a column in a segment of `rows` rows, whose first byte is at this place of
/// a file. Errors: 308 at the first byte with a bit of a padding row; 307 and 306 at the first byte
/// of the block.
pub fn validate_block(
    layout: Layout,
    placement: &Placement,
    col: usize,
    rows: u32,
    block: &[u8],
    at: u64,
) -> Result<(), Fault>
    requires column { col < length placement.now.schema.columns.items }
    requires rows { rows ≤ group_size }
    requires size { length block.now ≡ block_size layout placement.now.schema.columns.items col }
    requires small { length block.now ≤ 4160 }
    requires capacity { at < 2 ^ 63 }
    ensures valid { IsValidAt at layout placement.now.schema.columns.items rows col block.now
        (block_fault layout placement.now.schema.columns.items col rows block.now) result }
{
    match block_fault(layout, placement, col, rows, block) {
        None => Ok(()),
        Some(code) => {
            let place = fault_place(layout, placement, col, rows, block, code);
            Err(Fault::at_byte(code, at + place as u64))
        }
    }
}

/// Returns the place of a block's error, from the block's start: for 308 the first byte with a bit
/// of a padding row, for any other error 0.
#[tactic(auto, unfolding(crate::specs::TableReading::fault_place))]
fn fault_place(
    layout: Layout,
    placement: &Placement,
    col: usize,
    rows: u32,
    block: &[u8],
    code: u16,
) -> usize
    requires column { col < length placement.now.schema.columns.items }
    requires small { length block.now ≤ 4160 }
    ensures place { result
        ≡ fault_place layout placement.now.schema.columns.items rows col block.now code }
    ensures within { result ≤ 4160 }
{
    if code == code::PADDING {
        padding_place(layout, placement, col, rows, block)
    } else {
        0
    }
}

/// Returns the place of the first byte of a block with a bit of a padding row, or the block's
/// length if there is none.
fn padding_place(
    layout: Layout,
    placement: &Placement,
    col: usize,
    rows: u32,
    block: &[u8],
) -> usize
    requires column { col < length placement.now.schema.columns.items }
    requires small { length block.now ≤ 4160 }
    ensures place { result
        ≡ padding_from layout placement.now.schema.columns.items rows col block.now 0 }
    ensures within { result ≤ 4160 }
{
    for at in 0..block.len() {
        if has_padding(layout, placement, col, rows, at, block[at]) {
            return at;
        }
    }
    block.len()
}

/// Returns whether the byte at this place of a block has a bit of a padding row.
#[tactic(auto, unfolding(crate::specs::TableReading::has_padding))]
fn has_padding(
    layout: Layout,
    placement: &Placement,
    col: usize,
    rows: u32,
    at: usize,
    byte: u8,
) -> bool
    requires { col < length placement.now.schema.columns.items }
    ensures { result ≡ has_padding layout placement.now.schema.columns.items rows col at byte }
{
    match layout {
        Layout::Planes => plane_has_padding(rows, at % 64, byte),
        Layout::Slices => {
            let nulls = placement.null_size(col);
            if at < nulls {
                plane_has_padding(rows, at, byte)
            } else {
                rows as usize <= (at - nulls) % LANES && byte != 0
            }
        }
    }
}

/// Returns whether the byte at this place of a plane has a bit of a padding row.
fn plane_has_padding(rows: u32, at: usize, byte: u8) -> bool
    requires { at < 64 }
    ensures { result ≡ plane_has_padding rows at byte }
{
    for bit in 0..8 {
        if rows as usize <= 8 * at + bit && (byte >> bit) % 2 == 1 {
            return true;
        }
    }
    false
}

/// Checks that the source ends after the last block. Errors: 309 if another byte follows, 701 if a
/// read fails.
pub(crate) fn read_end<S: Source>(source: &mut S, offset: &mut u64) -> Result<(), Fault>
    requires counter_fits { (S.state source.old).failures < 2 ^ 64 - 1 }
    requires capacity { offset.old < 2 ^ 63 }
    ensures ended { OnOk result (IsAtEnd (S.state source.new).known) }
    ensures took { OnOk result (HasConsumed (state_at (S.state source.old) offset.old)
        (state_at (S.state source.new) offset.new) []) }
    ensures failures { OnOk result ((S.state source.new).failures ≡ (S.state source.old).failures) }
    ensures refused { IfErr result (λ fault. HasByteMore (state_at (S.state source.old) offset.old)
        (state_at (S.state source.new) offset.new) fault) }
{
    let at = *offset;
    let mut byte = [0; 1];
    match source.read(&mut byte) {
        Ok(0) => Ok(()),
        Ok(n) => {
            are_bytes(&byte);
            *offset += n as u64;
            Err(Fault::at_byte(code::BYTES_AFTER_END, at))
        }
        Err(Failed) => Err(Fault::new(code::READ_FAILED)),
    }
}
