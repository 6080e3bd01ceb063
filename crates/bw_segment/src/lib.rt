//! Segments: 512 rows of a table at a time, stored by columns, on which scans run.
//!
//! The contract that the crates above use: a [`Segment`] means the columns of a schema and 1 to 512
//! rows that they admit. The result of each method depends only on that meaning, not on the layout.
//! Bit i of `plane(v)` is row i's bit of the variable v, and 0 past the last row. `codes`,
//! [`values_in_lanes`] and [`keys_in_lanes`] return a column in all 512 lanes at once.
//!
//! A [`PackedSegment`] is stored as the bytes of its blocks. Its [`CodeLayout`] packs the codes of
//! one column: bit planes, after BitWeaving's vertical layout (Li and Patel), in `bw_planes`, and
//! byte slices, after ByteSlice (Feng, Lo, Kao and Xu), in `bw_slices`. `specs/Packing.antt` and
//! `specs/BlockFault.antt` define segments as bytes, and the first error of such bytes, once for
//! any layout. The `specs/` of `bw_model` define variables, codes and lanes.
//!
//! Read `segment.rt` first, then `layout.rt` and `packed.rt`.
//!
//! [`is_group`] is for callers who build segments of rows in memory. It tests what `build` demands
//! in either layout: 1 to 512 rows that a schema admits.
//!
//! ```
//! if is_group(&schema, &rows) {
//!     let segment = PlaneSegment::build(rt.alloc(), &schema, &rows)?;
//! }
//! ```
#![tactic(auto)]

mod block;
mod blocks;
mod build;
mod codes;
mod column_blocks;
mod columns;
mod extremes;
mod group;
mod lanes;
mod layout;
mod numbered_blocks;
mod packed;
mod packing;
mod place;
mod placement;
mod segment;
mod validation;
mod values;

pub use block::fault_of_lanes;
pub use blocks::Blocks;
pub use codes::{bytes_of, push_byte, put_byte, slices_of};
pub use column_blocks::ColumnBlocks;
pub use columns::{ColumnCodes, clear_rows, columns_of, keep_row, no_rows};
pub use extremes::Extreme;
pub use group::is_group;
pub use lanes::lanes_hold_codes;
pub use layout::CodeLayout;
pub use numbered_blocks::{NumberedBlocks, blank_columns, no_blocks, push_blocks};
pub use packed::PackedSegment;
pub use packing::{blocks_are_added, bytes_of_a_group_are_sound, sound_bytes_spell_a_group};
pub use placement::Placement;
pub use segment::Segment;
pub use values::{key, keys_in_lanes, number, values_in_lanes};
