//! Explains an error of the heading of a CSV text.
use crate::text::{Shown, Text, name_text, put};
use bw_csv::without_blanks;
use bw_model::{Column, MAX_COLUMNS, code, is_name};
use bw_text::is_word;
use csv::ByteRecord;

/// Appends what is wrong with the heading of a CSV text that is read for a schema's columns, or for
/// none, as `bw infer` does: which heading, what it is and what it should be, and the separator
/// that a heading of one field seems to have in place of a comma.
pub(crate) fn put_heading(text: &mut Text, heading: &ByteRecord, columns: &[Column], code: u16) {
    put_wrong(text, heading, columns, code);
    let first = heading.get(0).unwrap_or(b"");
    for (byte, name) in [(b';', "a semicolon"), (b'\t', "a tab"), (b'|', "a bar")] {
        if heading.len() == 1 && first.contains(&byte) {
            put!(text; "fields seem to be separated by ", name, ": bw-import loads such files\n");
        }
    }
}

/// Appends the first heading that has the error of this number, and what it should be; or else how
/// many headings there are.
fn put_wrong(text: &mut Text, heading: &ByteRecord, columns: &[Column], code: u16) {
    for (at, field) in heading.iter().enumerate() {
        let name = without_blanks(field);
        match (code, columns.get(at)) {
            (code::HEADING, Some(column)) if !column.name.is(name) => {
                put_which(text, at, name);
                return put!(text; ": expected ", name_text(column.name.as_bytes()), "\n");
            }
            (code::SCHEMA_NAME, _) if !is_name(name) => {
                put_which(text, at, name);
                text.put(": ");
                return put_name_reason(text, name);
            }
            (code::NAME_TWICE, _) if place_of(heading, name) < at => {
                put_which(text, at, name);
                return put!(text; ", as heading ", place_of(heading, name).saturating_add(1), " is\n");
            }
            _ => {}
        }
    }
    put!(text; heading.len(), " headings: ");
    match columns.len() {
        0 => put!(text; "a table has 1 to ", MAX_COLUMNS, " columns\n"),
        wanted => put!(text; "expected ", wanted, "\n"),
    }
}

/// Appends a heading after so many others.
fn put_which(text: &mut Text, others: usize, name: &[u8]) {
    put!(text; "heading ", others.saturating_add(1), " is ", Shown(name));
}

/// Returns after how many headings a name is first.
fn place_of(heading: &ByteRecord, name: &[u8]) -> usize {
    for (at, field) in heading.iter().enumerate() {
        if without_blanks(field).eq_ignore_ascii_case(name) {
            return at;
        }
    }
    heading.len()
}

/// Appends why a text is not a valid name of a column.
pub(crate) fn put_name_reason(text: &mut Text, name: &[u8]) {
    match name.len() {
        0 => return text.put("a name can't be empty\n"),
        64.. if is_word(name) => return text.put("a name has at most 63 bytes\n"),
        _ if is_word(name) => return text.put("it is a reserved word\n"),
        _ => {}
    }
    for byte in name {
        match byte {
            b' ' => return text.put("a name must not contain spaces\n"),
            b'_' | b'0'..=b'9' | b'A'..=b'Z' | b'a'..=b'z' => {}
            _ => return put!(text; "a name must not contain ", Shown(&[*byte]), "\n"),
        }
    }
    text.put("a name begins with a letter or _\n");
}

/// Returns what a file is that isn't comma-separated text, if its first bytes show it.
pub(crate) fn other_kind(csv: &[u8]) -> Option<&'static str> {
    match csv {
        [0x1f, 0x8b, ..] => Some("compressed by gzip: gunzip it"),
        [b'P', b'K', 3, 4, ..] => Some("a zip archive, or a workbook: unzip it, or save it as CSV"),
        [0xff, 0xfe, ..] | [0xfe, 0xff, ..] | [_, 0, _, 0, ..] | [0, _, 0, _, ..] => Some(
            "UTF-16: bw-import loads it",
        ),
        _ => None,
    }
}
