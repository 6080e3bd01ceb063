//! The result of a query, as CSV text.
//!
//! The contracts that the crates above use: [`Answer`] consumes the rows of a table segment by
//! segment, [`GatheredAnswer`] those of a CSV text one by one, and both return the text of the
//! query's meaning over them. `specs/Answer.antt` defines what a query means, and its text.
//!
//! Read `specs/Answer.antt` first, then `answer.rt`. `listing.rt` lists rows, and `records.rt`
//! writes them.
#![tactic(auto)]

mod answer;
mod csv_text;
mod gathered;
mod heading;
mod listing;
mod output;
mod record;
mod records;
mod selected;
mod totals;

pub use answer::Answer;
pub use gathered::GatheredAnswer;
