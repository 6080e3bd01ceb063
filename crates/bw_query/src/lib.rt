//! Runs queries over table files, and over tables in memory.
//!
//! The contract that the crates above use is that of [`answer`] and [`dump`]: if they return `Ok`,
//! the bytes that were read are a table file, and the sink took the CSV text of the meaning over
//! its rows. [`answer_in_memory`] does the same over a table that was read before, and
//! [`answer_with_programs`] keeps programs for many statements. [`answer_by_columns`] and
//! [`dump_by_columns`] do it over a file by columns, and read only the columns that are needed, some
//! segments at a time.
//!
//! Read `specs/TableAnswer.antt` first, then `table_calls.rt`; and `memory_calls.rt` with
//! `specs/MemoryAnswer.antt`, and `columnar_calls.rt` with `specs/ColumnarAnswer.antt`.
#![tactic(auto)]

mod answer_consumer;
mod columnar_calls;
mod columnar_segments;
mod consumer;
mod file_segments;
mod file_text;
mod match_counter;
mod memory_calls;
mod memory_segments;
mod named_columns;
mod program_cache;
mod scan;
mod segments;
mod served;
mod settled;
mod stored_columns;
mod table_calls;
mod table_text;
mod trial;

pub use columnar_calls::{answer_by_columns, dump_by_columns};
pub use memory_calls::{answer_in_memory, answer_with_programs};
pub use program_cache::{ProgramCache, RejectedFile};
pub use served::StoreServed;
pub use table_calls::{answer, dump};
