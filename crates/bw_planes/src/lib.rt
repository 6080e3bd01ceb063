//! Segments stored as bit planes, after BitWeaving's vertical layout (Li and Patel). Each column
//! has its null plane, if it is nullable, and then a plane for each bit of its codes, from the top
//! bit down.
//!
//! The contract that the crates above use: [`Planes`] is a [`bw_segment::CodeLayout`]. The result
//! of each of its methods depends only on the codes that the bytes spell, and the bytes of codes
//! spell these codes again. [`PlaneSegment::build`] returns a segment of the given rows, and
//! [`PlaneSegment::of_blocks`] one of bytes in whose blocks [`PlaneSegment::find_fault`] finds no
//! error. Both are a [`bw_segment::Segment`].
//!
//! Read `specs/Planes.antt` first, then `planes.rt`, `compare.rt` and `sum.rt`.
//!
//! `bw` itself makes segments of a file's blocks. [`PlaneSegment::build`] is the library's call for
//! 1 to 512 rows in memory:
//!
//! ```
//! let segment = PlaneSegment::build(rt.alloc(), &schema, &rows)?;
//! let first_bits = segment.bit(0, 0);
//! ```
#![tactic(auto)]

mod compare;
mod planes;
mod sum;

use bw_segment::PackedSegment;
pub use planes::Planes;

/// A segment stored as bit planes.
pub type PlaneSegment = PackedSegment<Planes>;
