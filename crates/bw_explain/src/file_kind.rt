//! What a file seems to be, by its first bytes.
use crate::explanation::Inputs;
use crate::program_file::first_word;
use crate::text::{Text, put};
use bw_model::{Fault, Place};
use bw_text::{Lines, Opcode, is_same_text};

/// So many first bytes show what a file seems to be.
const BEGINNING: usize = 4096;

const TABLE: &str = "a table file";

const COLUMNAR: &str = "a file by columns";

const SCHEMA: &str = "a schema";

const PROGRAM: &str = "a program file";

const CSV: &str = "a CSV file";

/// Appends what the file with an error seems to be, if that isn't what the call expects. Returns
/// whether it isn't.
pub(crate) fn put_kind(text: &mut Text, fault: &Fault, inputs: &Inputs<'_>) -> bool {
    let wanted = match (fault.code, fault.place) {
        (100..200, Place::Rec(_)) => return false,
        (100..200, _) => SCHEMA,
        (200..300, _) => CSV,
        (300..310, _) => TABLE,
        (500..600, _) => PROGRAM,
        _ => return false,
    };
    let kind = kind_of(inputs.file.get(..BEGINNING).unwrap_or(inputs.file)).unwrap_or(wanted);
    if kind == wanted || kind == COLUMNAR && wanted == TABLE {
        return false;
    }
    put!(text; "seems to be ", kind, ": expected ", wanted, ": ", inputs.usage, "\n");
    true
}

/// Returns what a file seems to be by its first bytes, if they show it: by the first line that
/// isn't blank or a comment, which in other languages begins with `;`.
fn kind_of(bytes: &[u8]) -> Option<&'static str> {
    if bytes.starts_with(b"BWCOLUMN") {
        return Some(TABLE);
    }
    if bytes.starts_with(b"BWBYCOLS") {
        return Some(COLUMNAR);
    }
    let mut lines = Lines::new(bytes);
    for _ in 0..bytes.len() {
        let line = lines.cut_line()?;
        let word = first_word(line);
        if is_same_text(word, b"TABLE") || is_same_text(word, b"COLUMN") {
            return Some(SCHEMA);
        } else if Opcode::of(word).is_some() {
            return Some(PROGRAM);
        } else if !word.is_empty() && !line.starts_with(b"#") && !word.starts_with(b";") {
            return has_separator(line).then_some(CSV);
        }
    }
    None
}

/// Returns whether a line has a comma, or what other files have in its place.
fn has_separator(line: &[u8]) -> bool {
    line.contains(&b',') || line.contains(&b';') || line.contains(&b'\t') || line.contains(&b'|')
}
