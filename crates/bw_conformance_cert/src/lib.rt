//! Tests of certificates and program files: texts that are read and printed; diagrams, which a
//! rejected line doesn't change; accepted program files, what they select and which skips they
//! take; conditions and totals over rows in memory; and lines with numbers that no call reaches.
//! `cases/certificates.md` and `cases/certificate_lines.md` have what the checker says of program
//! files, `cases/programs.md` what queries return by them. No crate depends on this one.
//!
//! Read `selections.rt`: a table of segments with the skips that are taken on them.
#![tactic(auto)]

#[cfg(test)]
mod cert_text;
#[cfg(test)]
mod diagram;
#[cfg(test)]
mod files;
#[cfg(test)]
mod lines;
#[cfg(test)]
mod lines_after_others;
#[cfg(test)]
mod rows_in_memory;
#[cfg(test)]
mod selections;
#[cfg(test)]
mod texts;
