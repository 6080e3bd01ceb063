//! Prints explanations below an error's line. The files are read again; what can't be read again,
//! or doesn't fit in memory, is left out.
use crate::failure::{CommandFailure, Reads};
use crate::file_at::FileAt;
use crate::in_file::InFile;
use bw_cli::CommandArgs;
use bw_explain::Inputs;
use bw_file::{FromRead, TableReader};
use bw_memory::{ColumnarTable, is_by_columns};
use bw_model::{Fault, MAX_CSV_LEN, Place, Schema, code};
use bw_shell::{Input, read_limited};
use std::fs::File;
use std::io::{self, Read};

/// So many first bytes of a table file show what it seems to be.
const BEGINNING: usize = 4096;

/// Prints on standard error what is wrong, by the input or by its place.
pub fn explain_failure(rt: &HostRuntime, words: &CommandArgs<'_>, ended: &CommandFailure<'_>) {
    let file = file_of(words, ended);
    let said = explanation(rt, words, file, &ended.fault);
    if !print_lines(rt, file.unwrap_or(""), said)
        && let Some(file) = file
    {
        explain_place(rt, ended, file);
    }
}

/// Prints on standard error what is wrong with a statement that was rejected under a schema.
pub fn explain_statement(rt: &HostRuntime, schema: &Schema, sql: &[u8], fault: &Fault) {
    let inputs = Inputs {
        schema: Some(schema),
        sql: Some(sql),
        file: b"",
        usage: "",
    };
    print_lines(rt, "", bw_explain::explain(rt.alloc(), fault, &inputs).ok());
}

/// Prints on standard error why a query used the fallback, if the table can be read again.
pub fn explain_fallback(rt: &HostRuntime, words: &CommandArgs<'_>) {
    print_lines(rt, "", fallback_of(rt, words));
}

/// Prints on standard error why segments weren't scanned, below the line that counts them.
pub fn explain_settled(rt: &HostRuntime) {
    let said = "the ranges of their values show that none of their rows match, or, if a \
                program only counts rows, that all do";
    let _ = eprintln!(rt; "    {}", said);
}

/// Prints on standard error that the certificate of a program file is ignored, if it has one.
pub fn explain_ignored(rt: &HostRuntime, path: &str, file: &[u8]) {
    print_lines(rt, path, bw_explain::explain_ignored(rt.alloc(), file).ok());
}

fn fallback_of(rt: &HostRuntime, words: &CommandArgs<'_>) -> Option<String> {
    let schema = schema_again(rt, words)?;
    bw_explain::explain_fallback(rt.alloc(), &schema, words.sql()?.as_bytes()).ok()
}

/// Returns the explanation of an error, given the file that has it.
fn explanation(
    rt: &HostRuntime,
    words: &CommandArgs<'_>,
    file: Option<&str>,
    fault: &Fault,
) -> Option<String> {
    if let (Some(name), code::SCHEMA_NAME, None) = (words.name(), fault.code, file) {
        return explain_name(rt, name);
    }
    let is_in_numbers = words.numbers().is_some() && (200..300).contains(&fault.code);
    if is_in_numbers || !(100..700).contains(&fault.code) {
        return None;
    }
    let schema = schema_again(rt, words);
    if schema.is_none() && words.schema().is_some() && (200..300).contains(&fault.code) {
        return None;
    }
    let bytes = match file {
        Some(path) => bytes_again(rt, path, fault)?,
        None => Vec::new(rt.alloc()),
    };
    let inputs = Inputs {
        schema: schema.as_ref(),
        sql: words.sql().map(|sql| sql.as_bytes()),
        file: &bytes,
        usage: words.usage(),
    };
    bw_explain::explain(rt.alloc(), fault, &inputs).ok()
}

/// Returns what is wrong with the name after `--table`.
fn explain_name(rt: &HostRuntime, name: &str) -> Option<String> {
    let said = bw_explain::explain_name(rt.alloc(), name.as_bytes()).ok()?;
    format!(in rt.alloc(); "--table is {said}").ok()
}

/// Prints lines on standard error, each after the name of its file. Returns whether there was one.
fn print_lines(rt: &HostRuntime, file: &str, said: Option<String>) -> bool {
    let Some(said) = said else {
        return false;
    };
    let blank = if file.is_empty() { "" } else { " " };
    for line in said.lines() {
        let _ = eprintln!(rt; "    {}{}{}", file, blank, line);
    }
    !said.is_empty()
}

/// Prints where in a file an error is, or why the system failed to read or to write it.
fn explain_place(rt: &HostRuntime, ended: &CommandFailure<'_>, file: &str) {
    let _ = match (ended.fault.code, ended.fault.place, ended.failed_file) {
        (code::READ_FAILED, _, Some((_, Reads::Changed))) => {
            eprintln!(rt; "    {} changed while it was read", file)
        }
        (code::READ_FAILED, _, Some((_, Reads::OfPipe))) => {
            eprintln!(rt;
                "    {} is a pipe; a file by columns is read at places",
                file
            )
        }
        (code::READ_FAILED, _, Some((_, Reads::Failed(error)))) => {
            return print_failure(rt, file, "opened or read", Some(error));
        }
        (code::READ_FAILED, ..) => return print_failure(rt, file, "opened or read", None),
        (code::WRITE_FAILED, ..) => return print_failure(rt, file, "written", ended.write_error),
        (_, Place::Byte(byte), _) => eprintln!(rt; "    byte {} of {}, from 0", byte, file),
        (_, Place::Line(line), _) => eprintln!(rt; "    line {} of {}", line, file),
        (_, Place::Rec(0), _) => eprintln!(rt; "    the heading of {}", file),
        (_, Place::Rec(record), _) => eprintln!(rt;
            "    record {} of {}: the heading is record 0; empty lines don't count",
            record, file
        ),
        (_, Place::Nowhere, _) => eprintln!(rt; "    in {}", file),
    };
}

/// Prints what couldn't be done with a file, and the system's reason if it gave one.
fn print_failure(rt: &HostRuntime, file: &str, done: &str, error: Option<io::Error>) {
    let _ = match error {
        Some(error) => eprintln!(rt; "    {} can't be {}: {}", file, done, error),
        None => eprintln!(rt; "    {} can't be {}", file, done),
    };
}

/// Returns the file with the error, among those that the command line names.
fn file_of<'a>(words: &CommandArgs<'a>, ended: &CommandFailure<'a>) -> Option<&'a str> {
    match (ended.fault.code, ended.fault.place) {
        // of `bw infer`: a name that the command line gave, or one of the heading
        (100..200, Place::Nowhere) => words.schema(),
        (100..200, _) => words.schema().or(words.csv()),
        (200..300, _) => words.csv().or(words.numbers()),
        (300..400, _) => words.table(),
        (code::NO_PROGRAM, _) => None,
        (500..700, _) => ended.program.or(words.program()),
        (code::READ_FAILED, _) => ended.failed_file.map(|(path, _)| path),
        (code::WRITE_FAILED, _) => Some(words.out().unwrap_or("standard output")),
        _ => None,
    }
}

/// Returns the schema of a command, by its schema file or its table file.
fn schema_again(rt: &HostRuntime, words: &CommandArgs<'_>) -> Option<Schema> {
    match words.schema() {
        Some(path) => Schema::parse(rt.alloc(), &whole_again(rt, path)?).ok(),
        None => schema_of_table(rt, words.table()?),
    }
}

fn schema_of_table(rt: &HostRuntime, path: &str) -> Option<Schema> {
    let mut file = InFile::new(regular_file(rt, path)?);
    if is_by_columns(&mut FileAt::new(&mut file)) {
        let columnar = ColumnarTable::open(rt.alloc(), &mut FileAt::new(&mut file)).ok()?;
        return columnar.table().schema().copy(rt.alloc()).ok();
    }
    let mut table = FromRead::new(&mut file);
    let reader = TableReader::begin(rt.alloc(), &mut table).ok()?;
    reader.schema().copy(rt.alloc()).ok()
}

/// Returns the bytes of a file with an error: all, or the first ones of a table file.
fn bytes_again(rt: &HostRuntime, path: &str, fault: &Fault) -> Option<Vec<u8>> {
    if !(300..400).contains(&fault.code) {
        return whole_again(rt, path);
    }
    let mut file = regular_file(rt, path)?;
    let mut buffer = [0u8; BEGINNING];
    let count = file.read(&mut buffer).ok()?;
    Vec::from_slice(rt.alloc(), buffer.get(..count)?).ok()
}

/// Returns all bytes of a file that was read before.
fn whole_again(rt: &HostRuntime, path: &str) -> Option<Vec<u8>> {
    let mut source = FromRead::new(regular_file(rt, path)?);
    match read_limited(rt.alloc(), &mut source, MAX_CSV_LEN).ok()? {
        Input::Whole(bytes) => Some(bytes),
        Input::Over => None,
    }
}

/// Returns a file that can be read again, which a pipe can't.
fn regular_file(rt: &HostRuntime, path: &str) -> Option<File> {
    let file = File::open(rt, path).ok()?;
    file.metadata().ok()?.is_file().then_some(file)
}
