//! The certificate checker: if it accepts, a scan program selects exactly the rows on which its
//! condition is TRUE, on every table of the schema, early skips included.
//!
//! The contract that the crates above use: [`check`] returns a [`Certified`] if and only if a
//! [`Certificate`], which `bw_cert_text` reads and prints, is valid by `specs/Valid.antt`; else it
//! returns the first line that breaks a rule. [`Certified::run_segment`] returns, for each row of a
//! segment, whether the condition is TRUE on it.
//!
//! A program file is the text of both. [`check_file`] accepts it if and only if it spells a program
//! and a certificate that is valid for it and the condition; else it returns the first error.
//!
//! Read `specs/Valid.antt` first, then `checker.rt`. For program files, read
//! `specs/ProgramFile.antt` and `specs/FileVerdict.antt`, then `certified_file.rt`.
#![tactic(auto)]

mod accepted;
mod certified;
mod certified_file;
mod checker;
mod file_laws;
mod laws;
mod program_file;
mod stated_facts;

pub use accepted::Accepted;
pub use bw_cert_text::Certificate;
pub use certified::Certified;
pub use certified_file::{CertifiedFile, check_file};
pub use checker::check;
pub use file_laws::one_verdict;
pub use laws::{
    certificates_are_checked_by_their_fields, refused_certificates_have_a_first_fault,
    refused_lines_have_a_first_fault, valid_exactly_where_checked, valid_programs_select,
};
pub use program_file::{MAX_PROGRAM_FILE_LEN, ProgramFile, split_file};
