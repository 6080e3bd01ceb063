//! Byte slices as a layout of segments.
ghost use Rattle.bw_slices.specs.Slices.{slice_packing};

use crate::any_code::{is_any_above, is_any_nonzero};
use crate::beyond::none_beyond;
use crate::codes_above::lanes_above;
use crate::extremes::chosen_code;
use crate::read::{slice_of, slices_in};
use crate::sparse_sum::{none_near, sum_of_few};
use bw_lanes::{
    LANES, Plane, Selection, bytes_bit, bytes_eq, bytes_lt, bytes_none, bytes_of_plane, count, not,
    sum_in,
};
use bw_model::Fault;
use bw_segment::{CodeLayout, Extreme, bytes_of, push_byte, put_byte};

/// The most lanes whose codes are added one by one, which takes less time than to add the bytes of
/// all lanes.
const FEW: u32 = 24;

/// Codes stored as byte slices. For each byte of the codes, from the most significant down, there
/// are 512 bytes, of which byte i is lane i's.
pub struct Slices;

impl CodeLayout for Slices {
    ghost packing = { slice_packing };

    fn size(width: u32) -> usize {
        LANES * slices_in(width)
    }

    fn push_codes(bytes: &mut Vec<u8>, width: u32, codes: &[u64; LANES]) -> Result<(), Fault> {
        let slices = slices_in(width);
        for place in 0..slices {
            let added = bytes_of(codes, slices - 1 - place);
            bytes.extend_from_slice(&added)?;
        }
        Ok(())
    }

    fn nonzero_lanes(width: u32, bytes: &[u8]) -> Plane {
        not(&bytes_none(bytes, slices_in(width)))
    }

    #[tactic(auto, using(crate::proofs::CodeLemmas::within_slices))]
    fn above(width: u32, bytes: &[u8], most: u64) -> Plane {
        lanes_above(bytes, slices_in(width), most)
    }

    fn any_nonzero(width: u32, bytes: &[u8], lanes: &Plane) -> bool {
        is_any_nonzero(bytes, slices_in(width), lanes)
    }

    // The lowest bytes of the number that are 255 change nothing, and nor do those of the codes.
    fn any_above(width: u32, bytes: &[u8], most: u64) -> bool {
        let low = most.trailing_ones() as usize / 8;
        is_any_above(bytes, slices_in(width) - low, most >> (8 * low))
    }

    #[inline(always)]
    fn bit(width: u32, bytes: &[u8], bit: u32) -> Plane {
        bytes_bit(slice_of(width, bytes, bit as usize / 8), bit % 8)
    }

    #[tactic(auto, using(crate::proofs::CodeLemmas::of_bytes))]
    #[inline(always)]
    fn byte_lt(width: u32, bytes: &[u8], slice: usize, c: u8) -> Plane {
        bytes_lt(slice_of(width, bytes, slice), c)
    }

    #[tactic(auto, using(crate::proofs::CodeLemmas::of_bytes))]
    #[inline(always)]
    fn byte_eq(width: u32, bytes: &[u8], slice: usize, c: u8) -> Plane {
        bytes_eq(slice_of(width, bytes, slice), c)
    }

    /// Returns the sum of the slices' sums, each weighted by 256 times the next one's weight. A few
    /// codes are added one by one.
    #[tactic(auto, using(crate::proofs::CodeLemmas::sum_steps))]
    fn sum(width: u32, bytes: &[u8], lanes: &Selection) -> u128 {
        if count(lanes) <= FEW {
            return sum_of_few(width, bytes, lanes);
        }
        let rows = bytes_of_plane(lanes);
        let slices = slices_in(width);
        let mut sum = 0;
        for place in 0..slices {
            let part = sum_in(slice_of(width, bytes, slices - 1 - place), &rows);
            sum = 256 * sum + u128::from(part);
        }
        sum
    }

    fn least(width: u32, bytes: &[u8], lanes: &Selection) -> Option<u64> {
        chosen_code(width, bytes, lanes, Extreme::Least)
    }

    fn greatest(width: u32, bytes: &[u8], lanes: &Selection) -> Option<u64> {
        chosen_code(width, bytes, lanes, Extreme::Greatest)
    }

    fn none_beyond(
        width: u32,
        bytes: &[u8],
        lanes: &Selection,
        are_few: bool,
        other: u64,
        which: Extreme,
    ) -> bool {
        if !are_few {
            return none_beyond(width, bytes, lanes, other, which);
        }
        let slice = slices_in(width) - 1;
        let top = other >> (8 * slice);
        none_near(slice_of(width, bytes, slice), lanes, top, which)
    }

    #[tactic(auto, using(crate::proofs::CodeLemmas::code_steps))]
    fn code(width: u32, bytes: &[u8], lane: usize) -> u64 {
        let slices = slices_in(width);
        let mut code = 0;
        for place in 0..slices {
            code = 256 * code + u64::from(bytes[LANES * place + lane]);
        }
        code
    }

    #[tactic(auto, using(crate::proofs::CodeLemmas::byte_steps))]
    fn unpack(width: u32, bytes: &[u8], codes: &mut [u64; LANES]) {
        let slices = slices_in(width);
        put_byte(codes, slice_of(width, bytes, slices - 1));
        for place in 1..slices {
            push_byte(codes, slice_of(width, bytes, slices - 1 - place));
        }
    }

    fn keeps_codes() {}
}
