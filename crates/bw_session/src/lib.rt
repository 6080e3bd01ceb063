//! Sessions: the statements of a source, run one after another over a table.
#![tactic(auto)]

mod listener;
mod reading;
mod session;
mod statement_state;

pub use listener::Listener;
pub use session::answer_statements;
