//! The parts of texts: words, numbers and lines, read and written.
//!
//! Schemas, programs and certificates are texts of lines of words; statements and CSV fields have
//! the same words and numbers. The contract that the crates above use:
//!
//! - a text is cut into numbered lines, without blank lines and comments ([`Lines`])
//! - a word of a table ([`Keyword`], [`Opcode`], [`LineKind`], [`Form`]) is found by its spelling,
//!   ignoring case
//! - digits are read as the number that they spell, or rejected
//! - a line that is written ([`push_line`]) is cut into its words again
//!   ([`written_lines_are_read`])
//!
//! Read `specs/Lines.antt` first, then `specs/Printing.antt`.
#![tactic(auto)]

mod form;
mod keyword;
mod laws;
mod line_kind;
mod lines;
mod number;
mod opcode;
mod printed_word;
mod register;
mod text;

pub use form::Form;
pub use keyword::Keyword;
pub use laws::{written_lines_are_read, written_numbers_are_read};
pub use line_kind::{ConditionKind, InstructionKind, LineKind};
pub use lines::{Line, Lines, only_word};
pub use number::{natural_number, number_in, whole_number, with_sign};
pub use opcode::Opcode;
pub use printed_word::{PrintedWord, push_line, push_spaced};
pub use register::{REGISTERS, register_of};
pub use text::{begins_word, goes_on_in_word, is_same_text, is_word};
