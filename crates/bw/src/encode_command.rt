//! The command `bw encode`.
use crate::failure::{CommandFailure, or_write_failure};
use crate::opened::open;
use crate::out_file::OutFile;
use bw_cli::{Marks, Selected};
use bw_file::FromRead;
use bw_model::{Fault, MAX_COLUMNS, MAX_ROWS, code};
use bw_shell::{Dialect, FileForm, Selection, encode};
use std::alloc::{AllocError, Global};
use std::hash::RandomState;

/// Runs `bw encode`. The CSV is opened first; what its codes stand for is created by the first write,
/// and then the table.
pub fn run_encode<'a>(
    rt: &HostRuntime,
    marks: Marks<'a>,
    selected: Selected<'a>,
    form: FileForm,
    csv_path: &'a str,
    out: &str,
    fields: &str,
) -> Result<(), CommandFailure<'a>> {
    let Some(dialect) = dialect_of(marks) else {
        return Ok(());
    };
    let places = match places_of(rt.alloc(), selected.columns) {
        Ok(places) => places,
        Err(_) => return Err(CommandFailure::new(Fault::new(code::OUT_OF_MEMORY))),
    };
    let selection = Selection {
        rows: selected.rows.and_then(rows_of),
        columns: selected.columns.and(Some(&places)),
        is_filled: selected.is_filled,
    };
    let mut csv = open(rt, csv_path)?;
    let hasher = match RandomState::new(rt) {
        Ok(hasher) => hasher,
        Err(error) => return Err(CommandFailure::unreadable("random bytes", error)),
    };
    let mut source = FromRead::new(&mut csv);
    let mut fields = OutFile::new(rt, fields);
    let mut out = OutFile::new(rt, out);
    let done = encode(
        rt.alloc(),
        hasher,
        dialect,
        selection,
        form,
        &mut source,
        &mut fields,
        &mut out,
    );
    let error = fields.error().or(out.error());
    or_write_failure(done, &[(csv_path, csv.reads())], error)
}

/// Returns the dialect of marks, each of one byte that is no line end. The comma and the quotation
/// mark are the marks of fields that aren't given. No two may be the same.
pub fn dialect_of(marks: Marks<'_>) -> Option<Dialect> {
    let separator = byte_of(marks.separator.unwrap_or(","))?;
    let quote = byte_of(marks.quote.unwrap_or("\""))?;
    let escape = optional_byte(marks.escape)?;
    let comment = optional_byte(marks.comment)?;
    let is_taken = |mark: Option<u8>| mark == Some(separator) || mark == Some(quote);
    if separator == quote || is_taken(escape) || is_taken(comment) {
        return None;
    }
    if escape.is_some() && escape == comment {
        return None;
    }
    Some(Dialect {
        separator,
        quote,
        escape,
        comment,
        is_lenient: marks.is_lenient,
    })
}

/// Returns the byte of a mark that may be absent, or None if it isn't one byte.
fn optional_byte(mark: Option<&str>) -> Option<Option<u8>> {
    match mark {
        Some(mark) => Some(Some(byte_of(mark)?)),
        None => Some(None),
    }
}

/// Returns the byte of a mark, which must be one byte and no line end.
fn byte_of(mark: &str) -> Option<u8> {
    match mark.as_bytes() {
        [byte] if *byte != b'\n' && *byte != b'\r' => Some(*byte),
        _ => None,
    }
}

/// Returns whether `--rows` is a number of rows that a table can have.
pub fn is_row_limit(selected: Selected<'_>) -> bool {
    match selected.rows {
        Some(rows) => rows_of(rows).is_some(),
        None => true,
    }
}

/// Returns whether `--columns` numbers 1 to 64 fields from 1, each once.
pub fn is_column_list(selected: Selected<'_>) -> bool {
    let Some(list) = selected.columns else {
        return true;
    };
    let is_again = |at: usize, place: Option<u32>| {
        list.split(',').take(at).any(|word| place_of(word) == place)
    };
    list.split(',').count() <= MAX_COLUMNS
        && list.split(',').enumerate().all(|(at, word)| place_of(word).is_some()
            && !is_again(at, place_of(word)))
}

/// Returns the places of the fields that a list numbers; none, if there is no list.
fn places_of(alloc: Global, list: Option<&str>) -> Result<Vec<u32>, AllocError> {
    let mut places = Vec::new(alloc);
    for word in list.unwrap_or("").split(',') {
        if let Some(place) = place_of(word) {
            places.push(place)?;
        }
    }
    Ok(places)
}

/// Returns the place, from 0, of a field that is numbered from 1.
fn place_of(word: &str) -> Option<u32> {
    whole_number(word)?.checked_sub(1)
}

/// Returns a number of rows that a table can have.
fn rows_of(word: &str) -> Option<u32> {
    whole_number(word).filter(|rows| *rows <= MAX_ROWS)
}

/// Returns the number that digits spell, if it has 32 bits.
fn whole_number(word: &str) -> Option<u32> {
    if word.bytes().all(|byte| byte.is_ascii_digit()) {
        word.parse().ok()
    } else {
        None
    }
}
