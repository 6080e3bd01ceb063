//! The calls of `bw`, from end to end over sources and sinks of bytes. Those of program files are
//! here, [`check_text`], [`plan_text`] and [`certify_text`], and [`encode`], which makes a table file
//! of a CSV text of any fields; each other is re-exported from the crate that has it:
//!
//! - over a CSV text: [`load`], [`load_in_order`], [`direct`]
//! - over a table file: [`answer`], [`dump`]
//! - over a file by columns: [`answer_by_columns`], [`dump_by_columns`]
//! - over a table file, to another one: [`recode`]; over a file by columns: [`recode_by_columns`]
//! - over a table that is read once, for many statements: [`MemoryTable`], [`answer_in_memory`],
//! [`ProgramCache`], [`answer_with_programs`], [`answer_statements`]
//! - to write a schema text: [`infer`], [`info`], [`info_by_columns`]
//!
//! All of these share [`read_limited`], which reads an input up to a limit, [`split_file`], which
//! returns the parts of a program file, and the lines of an error, of scan statistics and of an
//! accepted program file ([`report`], [`stats_line`], [`settled_line`], [`accepted_line`]).
//!
//! Read `specs/CheckText.antt` and `specs/Plan.antt` first, then `check_call.rt` and
//! `plan_call.rt`.
//!
//! A program uses the contract of each call. A failed call has written nothing, unless a write
//! failed. An error that names an I/O device is returned only if that device has counted a failure.
#![tactic(auto)]

mod certify_call;
mod check_call;
mod encode_call;
mod plan_call;
mod statement;

pub use bw_cert::{Accepted, MAX_PROGRAM_FILE_LEN, ProgramFile, split_file};
pub use bw_csv_calls::{direct, infer, info, info_by_columns, load, load_in_order};
pub use bw_encode::{Dialect, Selection};
pub use bw_io::{Input, read_limited};
pub use bw_memory::MemoryTable;
pub use bw_query::{
    ProgramCache, RejectedFile, StoreServed, answer, answer_by_columns, answer_in_memory,
    answer_with_programs, dump, dump_by_columns,
};
pub use bw_recode::{recode, recode_by_columns};
pub use bw_report::{By, Served, accepted_line, report, settled_line, stats_line};
pub use bw_session::{Listener, answer_statements};
pub use certify_call::certify_text;
pub use check_call::check_text;
pub use encode_call::{FileForm, encode};
pub use plan_call::plan_text;
