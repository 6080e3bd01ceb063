//! The calls of `bw` that read a CSV text or write a schema text, complete over sources and sinks
//! of bytes.
//!
//! [`load`] writes the table file of a CSV's rows, [`load_in_order`] its file by columns too, and [`direct`] a query's result over them.
//! [`infer`] writes a schema text under which a CSV text has its rows without an error, and whose
//! columns are as narrow as those rows. [`print_schema`] returns the text of a schema, one line for
//! each column, which spells that schema, also if comment lines follow. [`info`] reads only a table
//! file's header. It writes the schema text that spells the table's schema, and then the header's
//! other numbers as comment lines, so all of it is a schema text.
//!
//! An error that names a device is returned only if that device has counted a failure. A law of
//! `bw_laws` relates loading and querying.
//!
//! Read `specs/Direct.antt`, `specs/InferredSchema.antt`, `specs/PrintedSchema.antt` and
//! `specs/Info.antt` first, then `direct_call.rt`, `infer_call.rt`, `print.rt` and `info_call.rt`.
//! Sources and sinks are those of `bw_io`.
#![tactic(auto)]

mod column_stats;
mod columns;
mod direct_call;
mod heading;
mod infer_call;
mod info_call;
mod inputs;
mod load_call;
mod print;
mod schema;
mod text;

pub use direct_call::direct;
pub use infer_call::infer;
pub use info_call::{info, info_by_columns, tables_have_their_size};
pub use load_call::{load, load_in_order};
pub use print::print_schema;
pub use schema::inferred_schemas_are_exact;
