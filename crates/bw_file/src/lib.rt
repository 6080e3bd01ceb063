//! Table files: tables to bytes, and bytes to tables.
//!
//! The contracts that the crates above use: [`Encoder`] and [`encode`] return the bytes of a table.
//! [`TableReader`] and [`decode`] read bytes, field by field and block by block, and return the
//! table that they spell or their first error. The laws state that bytes are read as a table
//! exactly if they spell it, and that they spell one table only.
//!
//! Read `specs/FileBytes.antt` for what is written, `specs/TableReading.antt` for how bytes are
//! read, and `table_reader.rt` with `specs/TableReader.antt` for reading a file one segment at a
//! time.
//!
//! A file by columns has the same blocks in another order: `specs/Columnar.antt` defines it,
//! [`Encoder::finish_by_columns`] returns it, and `bw_memory` reads its columns.
//!
//! `bw` itself writes row by row and reads segment by segment. [`encode`] and [`decode`] are the
//! library's calls for whole tables in memory:
//!
//! ```
//! let bytes = encode(rt.alloc(), Layout::Planes, &schema, &rows)?;
//! let table = decode(rt.alloc(), &bytes)?;
//! ```
#![tactic(auto)]

mod body;
mod columnar;
mod encoder;
mod fields;
mod header;
mod laws;
mod layout;
mod memory;
mod order;
mod phase;
mod reader_laws;
mod segment_bytes;
mod segments;
mod table;
mod table_reader;
mod take;

pub use body::validate_block;
pub use bw_io::{Failed, FromRead, Sink, Source, ToWrite};
pub use bw_planes::Planes;
pub use bw_slices::Slices;
pub use encoder::Encoder;
pub use header::{Header, ParsedHeader, parse_header};
pub use laws::{
    a_file_is_of_one_table, bytes_are_read_in_one_way, what_is_read_is_a_file,
    what_is_spelled_is_read,
};
pub use layout::Layout;
pub use memory::Memory;
pub use order::FileOrder;
pub use reader_laws::{a_file_is_read_whole, bytes_were_taken};
pub use segments::{AnySegment, block_size, placement_of, segment_size};
pub use table::{Table, decode, encode};
pub use table_reader::TableReader;
