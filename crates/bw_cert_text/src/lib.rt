//! Certificates as their lines, read from a text and printed line by line: the nodes, chains and
//! product rows that a certificate states, and the lines that reference them for a condition, a
//! program's instructions and its joins.
//!
//! The contract that the crates above use: [`Certificate::parse`] reads a text if and only if its
//! lines spell a certificate, and returns that; else it returns the first wrong line, always as
//! 605. [`Certificate::print`] returns a certificate's canonical text, which spells it, under a
//! schema that has the columns that its chains name. A planner makes one by [`Certificate::new`].
//! This crate doesn't check what a line states.
//!
//! Read `lines.rt` first, which has a line of each kind. `specs/Token.antt` is the table of how
//! these lines are written, and `specs/CertificateText.antt` has their order.
#![tactic(auto)]

mod body;
mod certificate;
mod connective;
mod edge_pairs;
mod line;
mod lines;
mod operand;
mod parse;
mod print;
mod stored_form;

pub use body::{Body, BodyLines};
pub use certificate::Certificate;
pub use edge_pairs::EdgePairs;
pub use lines::{
    BodyLine, ChainLine, ConditionEntry, EdgeProducts, EndLine, Entry, InstructionEntry, Keep,
    NodeLine, ProductLine,
};
pub use parse::certificates_are_read_as_spelled;
pub use print::{canonical_texts_spell_certificates, spelled_numbers_fit};
