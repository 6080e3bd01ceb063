//! The bytes of one column's codes, from which both layouts are built, and codes made of bytes.
ghost use Rattle.std.specs.Prelude.{◌≡◌, ◌<◌, ◌≤◌, ◌+◌, ◌*◌, ◌%◌, ◌^◌, ℕ, [], length, map};
ghost use Rattle.std.specs.Prelude.{slice_index_or};
ghost use lib.Lanes.{zip2};
ghost use Rattle.bw_model.specs.StoredCodes.{byte_of};

use bw_lanes::LANES;

/// Returns the byte `slice` of each code; byte 0 is the least.
pub fn bytes_of(codes: &[u64; LANES], slice: usize) -> [u8; LANES]
    requires { slice < 8 }
    ensures { result ≡ map (byte_of slice) codes.now }
{
    let mut bytes = [0; LANES];
    for lane in 0..LANES {
        bytes[lane] = (codes[lane] >> (8 * slice) & 0xFF) as u8;
    }
    bytes
}

/// Returns the `count` lowest bytes of each code: for each byte, from byte 0, the least, that of
/// all codes.
pub fn slices_of(codes: &[u64; LANES], count: usize) -> [[u8; LANES]; 8]
    requires { count ≤ 8 }
    ensures { (slice : ℕ) → slice < count
        → slice_index_or result slice [] ≡ map (byte_of slice) codes.now }
{
    let mut slices = [[0; LANES]; 8];
    for slice in 0..count {
        slices[slice] = bytes_of(codes, slice);
    }
    slices
}

/// Sets each lane's code to its byte.
pub fn put_byte(codes: &mut [u64; LANES], bytes: &[u8; LANES])
    ensures { codes.new ≡ bytes.now }
{
    for lane in 0..LANES {
        codes[lane] = u64::from(bytes[lane]);
    }
}

/// Shifts one more byte into each code: 256 times the code plus the byte, modulo 2^64.
pub fn push_byte(codes: &mut [u64; LANES], bytes: &[u8; LANES])
    ensures { codes.new ≡ zip2 (λ code byte. (256 * code + byte) % 2 ^ 64) codes.old bytes.now }
{
    for lane in 0..LANES {
        codes[lane] = with_byte(codes[lane], bytes[lane]);
    }
}

/// Returns 256 times the code plus the byte, modulo 2^64.
#[tactic(auto, using(crate::proofs::ByteLemmas::byte_shifted))]
fn with_byte(code: u64, byte: u8) -> u64
    ensures { result ≡ (256 * code + byte) % 2 ^ 64 }
{
    code << 8 | u64::from(byte)
}
