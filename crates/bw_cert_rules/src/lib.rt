//! The two parts of a certificate's body: the lines of the condition, and those of the program's
//! instructions and joins.
//!
//! The contract that the crates above use, of the first part: [`pair`] accepts a condition's lines
//! if and only if each step has its line and the line references the product rows and chains that
//! `specs/Pair.antt` demands; else it fails by the first other line. It returns the condition's
//! *truth pair*, two nodes. By the law [`pairs_tell_truths`], under every assignment the first is 1
//! exactly if the condition is TRUE on the assignment's row, and the second exactly if it is FALSE.
//! The three-valued logic is SQL-92's; the lines are this project's own.
//!
//! Of the second part: [`known_at_end`] accepts the lines of a program's instructions and joins if
//! and only if each shows what `specs/Walk.antt` demands; else it fails by the first other line.
//! The lines state each register's node at each place. Accepted lines are those of parts that
//! satisfy their rules, by `specs/Accepted.antt`, which mentions no walk. By [`skip_soundness`],
//! what is known is true in every run, whichever skips it takes.
//!
//! The parts are independent. Read `steps.rt` first, then `specs/Pair.antt`; for the second part
//! `walk.rt`, then `specs/Accepted.antt`.
#![tactic(auto)]

mod comparison;
mod edge;
mod join;
mod known;
mod known_laws;
mod line_checker;
mod nodes;
mod pair_laws;
mod steps;
mod walk;

pub use edge::Edge;
pub use known::Known;
pub use known_laws::{
    accepted_lines_are_valid, lines_are_checked_by_their_fields, skip_soundness,
    valid_lines_are_accepted,
};
pub use nodes::TruthNodes;
pub use pair_laws::{pairs_are_of_trees, pairs_tell_truths};
pub use steps::pair;
pub use walk::{AtEnd, known_at_end};
