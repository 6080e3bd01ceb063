//! Kernels over 512 lanes, one for each row: planes of bits and their words, and the bytes of 512
//! codes.
//!
//! The contract that the crates above use: each kernel is its plain definition in every lane, and
//! counts are numbers of lanes that are 1. None allocates memory, and none fails.
//!
//! The layout is BitWeaving's vertical one (Li and Patel), with words of 64 bits, and ByteSlice's
//! (Feng, Lo, Kao and Xu) for bytes. Read `plane.rt` first, then `bytes.rt`, `selected.rt` and
//! `row_bits.rt`.
#![tactic(auto)]

mod bytes;
mod codes;
mod lanes;
mod last;
mod plane;
mod plane_bytes;
mod row_bits;
mod selected;

pub use bytes::{bytes_any, bytes_bit, bytes_eq, bytes_lt, bytes_none};
pub use codes::{codes_eq, codes_lt};
pub use lanes::LANES;
pub use last::last_between;
pub use plane::{Plane, Selection, and, count, count_and, is_zero, lane, mask, not, or, xor};
pub use plane_bytes::{load, to_bytes};
pub use row_bits::push_bit;
pub use selected::{bytes_of_plane, greatest_in, keep_in, least_in, sum_in};
