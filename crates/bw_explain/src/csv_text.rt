//! Explains an error of a CSV text, and reads its records again.
use crate::heading::{other_kind, put_heading};
use crate::text::{Shown, Text, name_text, put};
use bw_csv::{FieldRule, value_of, without_blanks};
use bw_model::{Column, Fault, MAX_COLUMNS, MAX_ROWS, Place, Schema, code};
use csv::{ByteRecord, Reader, ReaderBuilder};
use std::alloc::Global;

/// Appends what is wrong with a CSV text that is read under a schema, or without one, as `bw infer`
/// reads it: of a record, the line of the file, the column, the field, and what was expected; of a
/// heading, which one it is and what it should be; for `bw infer`, each column that doesn't fit.
/// Appends nothing for errors without a record.
pub(crate) fn put_csv(text: &mut Text, csv: &[u8], schema: Option<&Schema>, fault: &Fault) {
    let Place::Rec(number) = fault.place else {
        return;
    };
    let columns: &[Column] = match schema {
        Some(schema) => &schema.columns,
        None => &[],
    };
    match other_kind(csv) {
        Some(kind) if number == 0 => put!(text; "the file is ", kind, "\n"),
        _ => put_place(text, csv, columns, number, fault.code),
    }
}

/// Appends what is wrong with a record, and at which line a quotation mark opens a field that
/// nothing closes, if there is one.
fn put_place(text: &mut Text, csv: &[u8], columns: &[Column], number: u32, code: u16) {
    let mut records = RecordReader::new(text.alloc, csv);
    if !records.read_heading() {
        text.put("the file has no record\n");
    } else if columns.is_empty() && (number > 0 || code == code::SCHEMA_RANGE) {
        put_columns(text, &mut records);
    } else if number == 0 {
        put!(text; "line ", line_of(csv, &records.heading), ": ");
        put_heading(text, &records.heading, columns, code);
    } else {
        put_record(text, &mut records, columns, number, code);
    }
    if let Some(line) = open_quote(csv) {
        put!(text; "line ", line, ": a quotation mark opens a field there, but none closes it\n");
    }
}

/// The records of a CSV text: its heading, and another one.
#[derive(Drop)]
struct RecordReader<'a> {
    csv: &'a [u8],
    reader: Reader<&'a [u8]>,
    heading: ByteRecord,
    record: ByteRecord,
}

impl<'a> RecordReader<'a> {
    /// Returns the records of a text, with the settings of the calls.
    fn new(alloc: Global, csv: &'a [u8]) -> Self {
        let mut builder = ReaderBuilder::new();
        let builder = builder.has_headers(false).flexible(true);
        RecordReader {
            csv,
            reader: builder.from_reader(alloc, csv),
            heading: ByteRecord::new(alloc),
            record: ByteRecord::new(alloc),
        }
    }

    /// Reads the heading. Returns whether there is one.
    fn read_heading(&mut self) -> bool {
        matches!(self.reader.read_byte_record(&mut self.heading), Ok(true))
    }

    /// Reads the next record. Returns whether there is one.
    fn read(&mut self) -> bool {
        matches!(self.reader.read_byte_record(&mut self.record), Ok(true))
    }
}

/// Returns the line of the file at which a record begins. Empty lines before it count, and line
/// feeds in quotes.
fn line_of(csv: &[u8], record: &ByteRecord) -> u64 {
    let Some(position) = record.position() else {
        return 1;
    };
    let begin = usize::try_from(position.byte()).unwrap_or(csv.len());
    let mut line = position.line();
    for byte in csv.get(begin..).unwrap_or(b"") {
        match byte {
            b'\n' => line = line.saturating_add(1),
            b'\r' => {}
            _ => break,
        }
    }
    line
}

/// Appends what is wrong with a record of a CSV text that is read under a schema: the line of the
/// file, from 1, the column, the field, and what was expected.
fn put_record(
    text: &mut Text,
    rows: &mut RecordReader<'_>,
    columns: &[Column],
    number: u32,
    code: u16,
) {
    for _ in 0..number {
        if !rows.read() {
            return;
        }
    }
    put!(text; "line ", line_of(rows.csv, &rows.record));
    match code {
        code::RECORD_LENGTH => put_length(text, rows.record.len(), columns.len()),
        code::TOO_MANY_ROWS =>
            put!(text; ": row ", number, ": a table has at most ", MAX_ROWS, "\n"),
        code::CSV_FAULT => text.put(": the CSV reader can't continue there\n"),
        _ => put_field(text, &rows.record, columns),
    }
}

/// Appends how many fields a record has, and how many it should have.
fn put_length(text: &mut Text, here: usize, wanted: usize) {
    put!(text; ": ", here, " fields: expected ", wanted, "\n");
}

/// Appends what is wrong with the first field that isn't what its column accepts.
fn put_field(text: &mut Text, record: &ByteRecord, columns: &[Column]) {
    for (column, field) in columns.iter().zip(record.iter()) {
        if let Err(fault) = value_of(&FieldRule::of(column), field, 0) {
            put_shown(text, column.name.as_bytes(), field);
            return match fault.code {
                code::OUT_OF_RANGE =>
                    put!(text; "is not from ", column.lo, " to ", column.hi, "\n"),
                code::NULL_NOT_ALLOWED => text.put("is null, but the column is NOT NULL\n"),
                _ => text.put("is not a whole number\n"),
            };
        }
    }
    text.put("\n");
}

/// Appends a field of a column, after its line.
fn put_shown(text: &mut Text, column: &[u8], field: &[u8]) {
    put!(text; ", column ", name_text(without_blanks(column)), ": ", Shown(without_blanks(field)), " ");
}

/// Returns the line at which a quotation mark opens a field that is still open at the end of the
/// text. Two marks in such a field are one of its text, so a mark that closes it may be followed by
/// one that opens it again.
fn open_quote(csv: &[u8]) -> Option<u64> {
    let (mut quoted, mut is_open, mut begins_field, mut line) = (None, false, true, 1u64);
    for byte in csv {
        match byte {
            b'"' if quoted.is_some() => is_open = !is_open,
            b'"' if begins_field => (quoted, is_open) = (Some(line), true),
            _ if !is_open => quoted = None,
            _ => {}
        }
        begins_field = !is_open && matches!(byte, b',' | b'\n' | b'\r');
        line = line.saturating_add(u64::from(*byte == b'\n'));
    }
    if is_open { quoted } else { None }
}

/// What was read of a column: whether one of its fields is not a whole number, and its minimum and
/// maximum.
#[derive(Clone, Copy, Default)]
struct Seen {
    is_unfit: bool,
    range: Option<(i64, i64)>,
}

/// Appends which columns aren't of whole numbers, each with its first field that isn't one, or have
/// numbers too far apart; which record is the first with another number of fields; and how columns
/// can be made to fit.
fn put_columns(text: &mut Text, records: &mut RecordReader<'_>) {
    let mut seen = [Seen::default(); MAX_COLUMNS];
    read_rows(text, records, &mut seen);
    put_ranges(text, &records.heading, &seen);
}

/// Appends which columns have numbers too far apart, and how columns can be made to fit.
fn put_ranges(text: &mut Text, heading: &ByteRecord, seen: &[Seen]) {
    let mut is_unfit = false;
    for (seen, name) in seen.iter().zip(heading.iter()) {
        is_unfit = is_unfit || seen.is_unfit;
        if let Some((least, most)) = seen.range
            && most.checked_sub(least).is_none()
        {
            put!(text; "column ", name_text(without_blanks(name)), ": from ", least, " to ", most);
            text.put(" is 2^63 or more\n");
        }
    }
    if is_unfit {
        text.put("bw-import loads texts, decimals and dates\n");
    }
}

/// Reads the records after the heading, and reports the first with another number of fields.
fn read_rows(text: &mut Text, records: &mut RecordReader<'_>, seen: &mut [Seen]) {
    let mut is_ragged = false;
    for _ in 0..MAX_ROWS {
        if !records.read() {
            return;
        }
        let (heading, record) = (&records.heading, &records.record);
        let line = line_of(records.csv, record);
        if record.len() != heading.len() && !is_ragged {
            is_ragged = true;
            put!(text; "line ", line);
            put_length(text, record.len(), heading.len());
        }
        read_row(text, line, heading, record, seen);
    }
}

/// Reads the fields of a record, and reports each column's first one that isn't a whole number.
fn read_row(text: &mut Text, line: u64, heading: &ByteRecord, row: &ByteRecord, seen: &mut [Seen]) {
    for ((seen, name), field) in seen.iter_mut().zip(heading.iter()).zip(row.iter()) {
        match value_of(&FieldRule::any_number(), field, 0) {
            Ok(Some(n)) => {
                let (least, most) = seen.range.unwrap_or((n, n));
                seen.range = Some((least.min(n), most.max(n)));
            }
            Err(fault) if !seen.is_unfit => {
                seen.is_unfit = true;
                put!(text; "line ", line);
                put_shown(text, name, field);
                text.put(match fault.code {
                    code::OUT_OF_RANGE => "doesn't fit 64 bits\n",
                    _ => "is not a whole number\n",
                });
            }
            _ => {}
        }
    }
}
