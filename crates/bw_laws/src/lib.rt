//! Laws across crates, for users of the store: a statement over a CSV text has one answer; a
//! loaded table gives the answers of `direct`, and so does a file by columns; a table in memory gives the answers of its file; a
//! dump is a backup; a stored plan is used; a truncated table file is rejected; a schema text
//! spells one schema or has one error; an inferred schema is spelled by its text; an answer depends
//! only on the columns that its query names. No other crate
//! depends on them.
//!
//! Read `load_then_query.rt` with `specs/LoadThenQuery.antt` first, then `as_direct.rt` with
//! `specs/AsDirect.antt`.
#![tactic(auto)]

mod as_direct;
mod backup;
mod cut_file;
mod in_memory;
mod inferred_text;
mod kept_plan;
mod load_by_columns;
mod load_then_query;
mod named_columns;
mod one_answer;
mod one_file;
mod one_meaning;
mod one_table;
mod printed_plan;
mod schema_text;
mod sound_schema;

pub use as_direct::what_is_loaded_is_answered_as_direct;
pub use backup::{
    a_dump_is_a_backup, a_file_is_restored, a_load_is_restored, what_is_dumped_is_loaded,
};
pub use cut_file::a_cut_file_is_refused;
pub use in_memory::a_table_in_memory_is_answered_as_its_file;
pub use inferred_text::an_inferred_schema_text_spells_its_schema;
pub use kept_plan::a_kept_plan_is_used;
pub use load_by_columns::{
    a_session_by_columns_answers_what_was_loaded, what_is_dumped_by_columns_is_loaded,
    what_is_loaded_by_columns_is_answered,
};
pub use load_then_query::what_is_loaded_is_answered;
pub use named_columns::an_answer_depends_on_named_columns;
pub use one_answer::{one_reading_under_one_shape, there_is_one_answer};
pub use one_file::there_is_one_file;
pub use one_meaning::one_meaning_of_what_is_asked;
pub use one_table::a_table_has_one_answer;
pub use printed_plan::{a_certified_program_is_the_given_one, a_plan_prints_its_program};
pub use schema_text::a_schema_text_spells_one_schema_or_has_one_fault;
pub use sound_schema::a_schema_text_spells_names_and_bounds;
