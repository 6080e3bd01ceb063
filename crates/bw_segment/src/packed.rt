//! A segment stored as bytes in a layout, and its results.
ghost use Rattle.std.specs.Prelude.{◌≡◌, ◌≤◌, length};
ghost use Rattle.bw_io.specs.Shared.{bytes_in};
ghost use Rattle.bw_model.specs.Groups.{group_size};
ghost use Rattle.bw_segment.specs.BlockFault.{IsSound};
ghost use Rattle.bw_segment.specs.Packing.{block_size, meaning_spelled, segment_size};
ghost use Rattle.bw_segment.specs.Packing.{segment_bytes};
ghost use Rattle.bw_segment.specs.Packed.{HoldBlocks, IsPacked, IsPlaced};

use crate::blocks::Blocks;
use crate::extremes::{Extreme, greatest_in, least_in};
use crate::layout::CodeLayout;
use crate::placement::Placement;
use crate::segment::Segment;
use bw_io::SharedBytes;
use bw_lanes::{LANES, Plane, Selection, lane};
use bw_model::{Schema, Value};
use std::marker::PhantomData;
use std::rc::Rc;

/// A segment stored as bytes: one block for each column. A block has the column's null plane, if it
/// is nullable, and then its codes in a layout. The null plane has 64 bytes; bit i mod 8, the least
/// first, of byte i / 8 is row i's. Past the last row there are zeros. Either all bytes are
/// contiguous, or those of each block.
#[derive(Drop)]
pub struct PackedSegment<L: CodeLayout, B: Blocks = SharedBytes> {
    pub placement: Rc<Placement>,
    pub rows: u32,
    pub bytes: B,
    layout: PhantomData<L>,
    pub ghost packed: { IsPacked L.packing placement.value rows (B.bytes bytes) },
    ghost held: { HoldBlocks (B.holds bytes) L.packing placement.value.schema.columns.items },
}

impl<L: CodeLayout, B: Blocks> Segment for PackedSegment<L, B> {
    ghost meaning = { λ segment.
        meaning_spelled L.packing segment.placement.value.schema segment.rows
        (B.bytes segment.bytes) };

    fn schema(&self) -> &Schema {
        &self.placement.schema
    }

    #[tactic(auto, using(crate::proofs::PackedLemmas::counted))]
    fn rows_in(&self) -> u32 {
        self.rows
    }

    #[tactic(auto, unfolding(crate::specs::Selected::bit_lanes))]
    #[inline(always)]
    fn bit(&self, col: usize, bit: u32) -> Plane {
        let (width, codes) = self.column_codes(col);
        L::bit(width, codes, bit)
    }

    #[inline(always)]
    fn nulls(&self, col: usize) -> Plane {
        match self.front(col) {
            Some(front) => self.placement.nulls_in(col, front),
            None => self.placement.nulls_in(col, self.block(col)),
        }
    }

    #[inline(always)]
    fn byte_lt(&self, col: usize, slice: usize, c: u8) -> Plane {
        let (width, codes) = self.column_codes(col);
        L::byte_lt(width, codes, slice, c)
    }

    #[inline(always)]
    fn byte_eq(&self, col: usize, slice: usize, c: u8) -> Plane {
        let (width, codes) = self.column_codes(col);
        L::byte_eq(width, codes, slice, c)
    }

    #[tactic(auto, unfolding(crate::specs::Selected::codes_in))]
    fn sum_of_codes(&self, col: usize, rows: &Selection) -> u128 {
        let (width, codes) = self.column_codes(col);
        L::sum(width, codes, rows)
    }

    #[tactic(auto, unfolding(crate::specs::Selected::codes_in))]
    fn min_code(&self, col: usize, rows: &Selection) -> Option<u64> {
        let (width, codes) = self.column_codes(col);
        least_in::<L>(width, codes, rows)
    }

    #[tactic(auto, unfolding(crate::specs::Selected::codes_in))]
    fn max_code(&self, col: usize, rows: &Selection) -> Option<u64> {
        let (width, codes) = self.column_codes(col);
        greatest_in::<L>(width, codes, rows)
    }

    #[tactic(auto, unfolding(crate::specs::Selected::codes_in))]
    fn none_beyond(
        &self,
        col: usize,
        rows: &Selection,
        are_few: bool,
        other: u64,
        which: Extreme,
    ) -> bool {
        let (width, codes) = self.column_codes(col);
        L::none_beyond(width, codes, rows, are_few, other, which)
    }

    fn codes(&self, col: usize, codes: &mut [u64; LANES]) {
        let (width, kept) = self.column_codes(col);
        L::unpack(width, kept, codes);
    }

    #[tactic(auto, using(crate::proofs::PackedLemmas::row_below))]
    fn value(&self, col: usize, row: usize) -> Value {
        if lane(&self.nulls(col), row) {
            return None;
        }
        let (width, codes) = self.column_codes(col);
        Some(self.placement.schema.value(col, L::code(width, codes, row)))
    }

    ghost is_group = { λ segment. segment.packed.group };
}

impl<L: CodeLayout> PackedSegment<L> {
    ghost use Rattle.std.specs.Prelude.{◌<◌};

    /// Returns the segment of `rows` rows whose blocks are these bytes, each of which must be
    /// valid.
    pub fn of_blocks(placement: Rc<Placement>, rows: u32, bytes: SharedBytes) -> Self
        requires placed { IsPlaced L.packing placement.value }
        requires nonempty { 1 ≤ rows }
        requires within_limit { rows ≤ group_size }
        requires sound { IsSound L.packing placement.value.schema.columns.items rows
            (bytes_in bytes) }
        ensures means { ⟦<PackedSegment<L> as Segment>⟧.meaning result
            ≡ meaning_spelled L.packing placement.value.schema rows (bytes_in bytes) }
    {
        PackedSegment::of_held_blocks(placement, rows, bytes)
    }

    /// Returns how many bytes a column's block has.
    pub fn block_size(placement: &Placement, col: usize) -> usize
        requires { col < length placement.now.schema.columns.items }
        ensures size { result ≡ block_size L.packing placement.now.schema.columns.items col }
        ensures bound { result ≤ 4160 }
    {
        placement.null_size(col) + L::size(placement.width(col))
    }

    /// Returns how many bytes a segment has.
    pub fn segment_size(placement: &Placement) -> usize
        requires { IsPlaced L.packing placement.now }
        ensures { result ≡ segment_size L.packing placement.now.schema.columns.items }
    {
        placement.start::<L>(placement.schema.columns.len())
    }

    /// Returns the bytes of the segment: the blocks of its columns, in order.
    pub fn bytes(&self) -> &[u8]
        ensures { result.now ≡ segment_bytes L.packing
            (⟦<PackedSegment<L> as Segment>⟧.meaning self.now).columns
            (⟦<PackedSegment<L> as Segment>⟧.meaning self.now).rows }
    {
        L::keeps_codes();
        self.bytes.are_bytes();
        self.bytes.as_slice()
    }
}

impl<L: CodeLayout, B: Blocks> PackedSegment<L, B> {
    ghost use Rattle.std.specs.Prelude.{All, IfSome, ◌<◌, ◌^◌, take};
    ghost use Rattle.bw_model.specs.Code.{width_at};
    ghost use Rattle.bw_segment.specs.Meaning.{code_lanes};
    ghost use Rattle.bw_segment.specs.Packing.{block_at};

    /// Returns the segment of `rows` rows whose blocks are in these bytes, each of which must be
    /// valid.
    pub(crate) fn of_held_blocks(placement: Rc<Placement>, rows: u32, bytes: B) -> Self
        requires placed { IsPlaced L.packing placement.value }
        requires nonempty { 1 ≤ rows }
        requires within_limit { rows ≤ group_size }
        requires sound { IsSound L.packing placement.value.schema.columns.items rows
            (B.bytes bytes) }
        requires held { HoldBlocks (B.holds bytes) L.packing placement.value.schema.columns.items }
        ensures means { ⟦<PackedSegment<L, B> as Segment>⟧.meaning result
            ≡ meaning_spelled L.packing placement.value.schema rows (B.bytes bytes) }
        ensures placed { result.placement.value ≡ placement.value }
    {
        L::keeps_codes();
        PackedSegment {
            placement,
            rows,
            bytes,
            layout: PhantomData,
        }
    }

    /// Returns a column's block.
    #[inline(always)]
    pub(crate) fn block(&self, col: usize) -> &[u8]
        requires { col < length self.now.placement.value.schema.columns.items }
        ensures block { result.now
            ≡ block_at L.packing self.now.placement.value.schema.columns.items col
            (B.bytes self.now.bytes) }
        ensures size { length result.now
            ≡ block_size L.packing self.now.placement.value.schema.columns.items col }
    {
        let placement: &Placement = &self.placement;
        let start = placement.start::<L>(col);
        let end = placement.start::<L>(col + 1);
        self.bytes.block(col, start, end)
    }

    /// Returns the first 64 bytes of a column's block, if they are stored apart.
    #[inline(always)]
    fn front(&self, col: usize) -> Option<&[u8]>
        requires { col < length self.now.placement.value.schema.columns.items }
        ensures front { IfSome result (λ front. front.now ≡ take 64
            (block_at L.packing self.now.placement.value.schema.columns.items col
            (B.bytes self.now.bytes))) }
        ensures size { IfSome result (λ front. length front.now ≡ 64) }
    {
        let placement: &Placement = &self.placement;
        let start = placement.start::<L>(col);
        let end = placement.start::<L>(col + 1);
        self.bytes.front(col, start, end)
    }

    /// Returns how many digits a column's codes have, and the bytes of these codes, which end its
    /// block.
    #[inline(always)]
    fn column_codes(&self, col: usize) -> (u32, &[u8])
        requires { col < length self.now.placement.value.schema.columns.items }
        ensures width { result.0 ≡ width_at self.now.placement.value.schema.columns.items col }
        ensures bounds { (1 ≤ result.0) × (result.0 ≤ 63) }
        ensures size { length result.1.now ≡ L.packing.size result.0 }
        ensures lanes { L.packing.codes result.0 result.1.now
            ≡ code_lanes (⟦<PackedSegment<L, B> as Segment>⟧.meaning self.now) col }
        ensures small { All (λ code. code < 2 ^ result.0) (L.packing.codes result.0 result.1.now) }
    {
        let placement: &Placement = &self.placement;
        let width = placement.width(col);
        let block = self.block(col);
        (width, &block[block.len() - L::size(width)..])
    }
}
