//! The lines below an error: where it is, what is there, and what was expected.
//!
//! [`explain`] is a function from an error and the bytes of the input to text. [`explain_fallback`]
//! explains why a query has no scan program, [`explain_name`] what is wrong with a table's name, and
//! [`explain_ignored`] that a certificate wasn't read. Each explanation is a text of lines, each
//! ended by a line feed; it is empty if there is nothing to add. Nothing depends on these lines:
//! only that the calls return is proved.
//!
//! Read `explanation.rt` first, which chooses by the error's number, and `text.rt`, to which all
//! append. `csv_text.rt` explains errors of CSV texts, with `heading.rt` for the heading;
//! `statement.rt` explains errors of statements, with `foreign.rt` for other dialects;
//! `program_file.rt` explains errors of program files, with `instruction_form.rt` for their lines, and
//! `uncertified.rt` why there is no certificate, with `samples.rt` and `trial.rt` for the rows that a
//! program is tried on, and `turn.rt` for comparisons to turn round.
#![tactic(auto)]

mod claim;
mod csv_text;
mod explanation;
mod fallback;
mod file_kind;
mod foreign;
mod heading;
mod instruction_form;
mod program_file;
mod samples;
mod statement;
mod text;
mod trial;
mod turn;
mod uncertified;

pub use explanation::{Inputs, explain, explain_ignored, explain_name};
pub use fallback::explain_fallback;
