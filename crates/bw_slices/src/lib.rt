//! Segments stored as byte slices, after ByteSlice (Feng, Lo, Kao and Xu). Each column has its null
//! plane, if it is nullable, and then the bytes of its codes by significance, from the most
//! significant down, one for each row.
//!
//! The contract that the crates above use: [`Slices`] is a [`bw_segment::CodeLayout`]. The result
//! of each of its kernels depends only on the codes that its bytes spell by `slices_codes`.
//! [`SliceSegment::build`] returns a segment of the given rows, and [`SliceSegment::of_blocks`] one
//! of bytes in whose blocks [`SliceSegment::find_fault`] finds no error. Both are a
//! [`bw_segment::Segment`].
//!
//! Read `specs/Slices.antt` first, then `layout.rt`.
//!
//! `bw` itself makes segments of a file's blocks. [`SliceSegment::build`] is the library's call for
//! 1 to 512 rows in memory:
//!
//! ```
//! let segment = SliceSegment::build(rt.alloc(), &schema, &rows)?;
//! let first_byte_below_8 = segment.byte_lt(0, 0, 8);
//! ```
#![tactic(auto)]

mod any_code;
mod beyond;
mod codes_above;
mod extremes;
mod layout;
mod read;
mod sparse_sum;

use bw_segment::PackedSegment;
pub use layout::Slices;

/// A segment stored as byte slices.
pub type SliceSegment = PackedSegment<Slices>;
