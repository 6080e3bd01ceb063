//! The model of a table: names, columns and schemas, values and rows, conditions and queries, and
//! the errors that all crates return.
//!
//! The contract that the crates above use: [`Schema::parse`] accepts schema texts. Every [`Schema`]
//! has 1 to 64 columns; their names differ, ignoring case, and their bounds are in order.
//!
//! `specs/` defines conditions and queries: three-valued truth, after SQL-92, in `Truth`, the truth
//! of a condition in `Cond`, and aggregates in `Total`.
//!
//! Read `schema.rt` first, then `specs/Cond.antt`.
#![tactic(auto)]

mod coding;
mod column;
mod cond;
mod copy;
mod equality;
mod fault;
mod groups;
mod junction;
mod laws;
mod limits;
mod name;
mod parse;
mod query;
mod row;
mod row_consumer;
mod schema;
mod total;
mod variable;

pub use column::Column;
pub use cond::{Cond, Op, Operand, Truth};
pub use fault::{Fault, Place, code, constants_are_listed, words_of};
pub use groups::{
    admitted_rows_have_each_value, groups_make_the_table, kept_rows_are_selected,
    lanes_are_rows_and_zeros,
};
pub use junction::Junction;
pub use laws::schema_faults_stand_as_listed;
pub use limits::{MAX_COLUMNS, MAX_CSV_LEN, MAX_ROWS, MAX_SCHEMA_LEN};
pub use name::{Name, is_name};
pub use parse::{has_name, is_range};
pub use query::{Item, Query};
pub use row::{Row, Value};
pub use row_consumer::RowConsumer;
pub use schema::Schema;
pub use total::totals_join;
