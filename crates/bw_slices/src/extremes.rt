//! The minimum and the maximum of the codes in some lanes, byte by byte from the most significant
//! down.
ghost use Rattle.std.specs.Prelude.{All, ◌≡◌, ◌^◌, ◌+◌, ◌*◌, ◌/◌, ◌<◌, ◌≤◌, Bool, IfSome, List};
ghost use Rattle.std.specs.Prelude.{if◌then◌else◌, length, map, max, min};
ghost use Rattle.std.specs.List.{fold, reduce};
ghost use Rattle.bw_lanes.specs.Lanes.{lanes_of_words};
ghost use Rattle.bw_lanes.specs.Selected.{as_byte, bytes_selected};
ghost use Rattle.bw_model.specs.Selection.{selected_items};
ghost use Rattle.bw_segment.specs.Selected.{is_greatest};
ghost use Rattle.bw_slices.specs.Slices.{slices_codes};

use crate::read::{slice_of, slices_in};
use bw_lanes::{LANES, Selection, bytes_of_plane, greatest_in, is_zero, keep_in, least_in};
use bw_segment::Extreme;

/// Returns the maximum or the minimum of the codes in the lanes, or None if there are no lanes.
/// From the most significant byte down, the lanes that remain are those with the maximum, or the
/// minimum, byte among them.
pub(crate) fn chosen_code(
    width: u32,
    bytes: &[u8],
    lanes: &Selection,
    which: Extreme,
) -> Option<u64>
    requires width { (1 ≤ width) × (width ≤ 63) }
    requires size { length bytes.now ≡ 512 * ((width + 7) / 8) }
    requires small { All (λ code. code < 2 ^ width) (slices_codes ((width + 7) / 8) bytes.now) }
    ensures chosen { result ≡ reduce (if is_greatest which then max else min)
        (selected_items (lanes_of_words lanes.now) (slices_codes ((width + 7) / 8) bytes.now)) }
    ensures bound { IfSome result (λ code. code < 2 ^ 63) }
{
    if is_zero(lanes) {
        return None;
    }
    let slices = slices_in(width);
    let mut left = bytes_of_plane(lanes);
    let mut code = 0;
    for place in 0..slices {
        let slice = slice_of(width, bytes, slices - 1 - place);
        let byte = chosen_in(slice, &left, which);
        keep_in(&mut left, slice, byte);
        code = 256 * code + u64::from(byte);
    }
    Some(code)
}

/// Returns the maximum or the minimum of the bytes of selected rows; 0, or 255, if none is
/// selected.
fn chosen_in(bytes: &[u8; LANES], rows: &[u8; LANES], which: Extreme) -> u8
    ensures { (lanes : List Bool) → rows.now ≡ map as_byte lanes
        → result ≡ fold (if is_greatest which then max else min)
        (if is_greatest which then 0 else 255)
        (bytes_selected (if is_greatest which then 0 else 255) lanes bytes.now) }
{
    match which {
        Extreme::Greatest => greatest_in(bytes, rows),
        Extreme::Least => least_in(bytes, rows),
    }
}
