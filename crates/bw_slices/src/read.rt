//! Slices among the bytes of codes.
ghost use Rattle.std.specs.Prelude.{◌≡◌, ◌+◌, ◌*◌, ◌/◌, ◌<◌, ◌≤◌, length, map};
ghost use Rattle.bw_model.specs.StoredCodes.{byte_of};
ghost use Rattle.bw_slices.specs.Slices.{slices_codes};

use bw_lanes::LANES;

/// Returns how many bytes codes of `width` binary digits have.
#[inline(always)]
pub(crate) fn slices_in(width: u32) -> usize
    requires { (1 ≤ width) × (width ≤ 63) }
    ensures slices { result ≡ (width + 7) / 8 }
    ensures bounds { (1 ≤ result) × (result ≤ 8) }
{
    (width as usize + 7) / 8
}

/// Returns a byte of each code; byte 0 is the least. It is found from the end of the bytes, which
/// takes fewer instructions than from their start.
#[inline(always)]
pub(crate) fn slice_of(width: u32, bytes: &[u8], slice: usize) -> &[u8; LANES]
    requires width { (1 ≤ width) × (width ≤ 63) }
    requires size { length bytes.now ≡ 512 * ((width + 7) / 8) }
    requires slice { 8 * slice < width }
    ensures { result.now ≡ map (byte_of slice) (slices_codes ((width + 7) / 8) bytes.now) }
{
    let start = bytes.len() - LANES * (slice + 1);
    let Some(bytes) = bytes[start..].first_chunk() else {
        unreachable!()
    };
    bytes
}
