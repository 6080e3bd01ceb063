//! Chooses the explanation of an error by its number.
use crate::csv_text::put_csv;
use crate::fallback::put_unplanned;
use crate::file_kind::put_kind;
use crate::heading::put_name_reason;
use crate::program_file::put_program;
use crate::statement::put_statement;
use crate::text::{Shown, Text, put};
use crate::uncertified::put_uncertified;
use bw_cert::split_file;
use bw_model::{Fault, Schema, code};
use std::alloc::{AllocError, Global};

/// What a call read, as far as an explanation needs it.
#[derive(Clone, Copy)]
pub struct Inputs<'a> {
    /// The schema of the call, if it has a valid one.
    pub schema: Option<&'a Schema>,
    /// The statement, if the call has one.
    pub sql: Option<&'a [u8]>,
    /// The bytes of the file with the error, if a file has it. Of a table file the first ones serve.
    pub file: &'a [u8],
    /// How the call is written, for one that has a file of another kind.
    pub usage: &'a str,
}

/// Returns the lines that explain an error.
pub fn explain(alloc: Global, fault: &Fault, inputs: &Inputs<'_>) -> Result<String, AllocError> {
    let mut text = Text::new(alloc);
    if !put_kind(&mut text, fault, inputs) {
        put_reason(&mut text, fault, inputs);
    }
    text.finish()
}

/// Appends the reason of an error in a file of the right kind.
fn put_reason(text: &mut Text, fault: &Fault, inputs: &Inputs<'_>) {
    let (schema, file) = (inputs.schema, inputs.file);
    match (fault.code, inputs.sql) {
        (100..300, _) => put_csv(text, file, schema, fault),
        (400..500, Some(sql)) => put_statement(text, schema, sql, fault),
        (500..651 | code::NO_CERTIFICATE, _) => put_program(text, schema, file, fault),
        (code::NO_PROGRAM, Some(sql)) => put_unplanned(text, schema, sql, ""),
        _ => {}
    }
    if let (code::NO_CERTIFICATE, Some(sql), Some(schema)) = (fault.code, inputs.sql, schema) {
        put_uncertified(text, schema, sql, file);
    }
}

/// Returns what is wrong with a table's name.
pub fn explain_name(alloc: Global, name: &[u8]) -> Result<String, AllocError> {
    let mut text = Text::new(alloc);
    put!(text; Shown(name), ": ");
    put_name_reason(&mut text, name);
    text.put("a name is a letter or _, then letters, digits and _, and not a reserved word\n");
    text.finish()
}

/// Returns that the certificate of a program file is ignored, if it has one.
pub fn explain_ignored(alloc: Global, file: &[u8]) -> Result<String, AllocError> {
    let mut text = Text::new(alloc);
    let parts = split_file(file);
    if parts.program.len() < file.len() {
        put!(text; "line ", parts.first_line - 1, ": this certificate is ignored, another is found\n");
    }
    text.finish()
}
