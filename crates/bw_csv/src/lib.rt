//! The rows that a CSV text spells under a schema.
//!
//! The contract that the crates above use is that of [`read_rows`]: in one pass it delivers a
//! text's rows to a [`RowConsumer`](bw_model::RowConsumer), one after another, or returns the
//! text's first error. `specs/Rows.antt` defines the rows of a text, over the records that the
//! `csv` crate defines for its bytes. A [`FieldRule`] says what a field may
//! spell. Without a schema, [`Records`] reads the heading, and [`Rest`] the rows, with rules that
//! allow every number of 64 bits.
//!
//! Read `specs/Rows.antt` first, then `rows.rt`, `row.rt` and `field.rt`. `records.rt` has the
//! `csv` crate's reader behind a few calls. Records without a quotation mark are read from the text itself, in one pass over its bytes (`plain_row.rt`,
//! `plain_field.rt`). `rest.rt` has both ways behind one call, by `specs/Plain.antt` and
//! `specs/Rest.antt`.
#![tactic(auto)]

mod field;
mod heading_end;
mod input;
mod long_line;
mod many_fields;
mod marks;
mod plain_field;
mod plain_row;
mod records;
mod rest;
mod row;
mod rows;
mod rule;

pub use field::{value_of, without_blanks};
pub use heading_end::after_byte_order_mark;
pub use input::read_csv;
pub use many_fields::without_more_fields;
pub use records::Records;
pub use rest::Rest;
pub use rows::{bare_rows_are_rows, faults_stand_as_listed, read_rows, rows_are_admitted};
pub use rule::{FieldRule, rules_without_schema};
