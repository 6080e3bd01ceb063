//! The columns of a CSV text.
ghost use Rattle.std.specs.Prelude.{◌≡◌, ◌+◌, ◌-◌, ◌<◌, ◌≤◌, ◌∷◌, ◌++◌, ◌&&◌, [], ℕ, List, length};
ghost use Rattle.std.specs.Prelude.{not, slice_index_or, OnOk, IfOk, IfErr, replicate, drop, Ok};
ghost use Rattle.std.specs.Prelude.{Err};
ghost use Rattle.std.specs.Prelude.{false};
ghost use Rattle.bw_model.specs.Fault.{is_memory};
ghost use Rattle.bw_model.specs.Limits.{most_columns, most_rows};
ghost use Rattle.bw_encode.specs.Dialect.{loose_in, records_in};
ghost use Rattle.bw_encode.specs.Place.{state_of};
ghost use Rattle.bw_encode.specs.Rows.{rows_of, rows_from, record_checked, FieldRows};
ghost use Rattle.bw_encode.specs.Rows.{AddsRow, AreColumnsOf, heading_checked, is_device_fault};
ghost use Rattle.bw_encode.specs.Rest.{bytes_read, text_past};
ghost use Rattle.bw_encode.specs.Selection.{count_in, row_of, up_to};

use crate::column_fields::ColumnFields;
use crate::dialect::Dialect;
use crate::place::Place;
use crate::record_fields::RecordFields;
use crate::records::After;
use crate::selection::Selection;
use bw_csv::after_byte_order_mark;
use bw_model::{Fault, MAX_COLUMNS, MAX_ROWS, code};
use std::alloc::{AllocError, Global};

/// The columns of a text, and how many of its bytes were read.
#[derive(Drop)]
pub(crate) struct ReadColumns {
    pub(crate) columns: Vec<ColumnFields>,
    pub(crate) bytes_read: usize,
}

/// Returns the selected columns of a text: the fields of the records after its heading, up to the
/// limit of rows.
///
/// Errors, each at its record: 201 if there is no record; 209 for a loose quotation mark, unless
/// the dialect is lenient; 105 if the columns aren't 1 to 64, or the heading lacks one of them; for
/// each record after it, 209, then 203 for a wrong number of fields, and 207 past 2^24 rows. 801 if
/// memory is refused.
pub(crate) fn read_columns(
    alloc: Global,
    dialect: Dialect,
    selection: Selection<'_>,
    text: &[u8],
) -> Result<ReadColumns, Fault>
    ensures columns { IfOk result (λ read. (table : FieldRows)
        × (rows_of dialect selection.entry text.now ≡ Ok table)
        × AreColumnsOf table.width table.rows read.columns.items
        × (length table.rows ≤ most_rows) × (1 ≤ table.width)
        × (table.width ≤ most_columns)) }
    ensures end { IfOk result (λ read. read.bytes_read
        ≡ bytes_read dialect selection.entry.rows text.now) }
    ensures fault { IfErr result (λ fault. is_memory fault ≡ false
        → rows_of dialect selection.entry text.now ≡ Err fault) }
    ensures device { IfErr result (λ fault. is_device_fault fault ≡ false) }
{
    let mut record = RecordFields::new(alloc);
    let records = after_byte_order_mark(text);
    let Some(heading) = record.read(dialect, records, Place::Before)? else {
        return Err(Fault::at_record(code::NO_HEADING, 0));
    };
    let width = record.len();
    check_heading(selection, is_rejected(dialect, heading.is_loose), width)?;
    let mut columns = empty_columns(alloc, selection.count(width))?;
    let left = read_rows(
        dialect,
        selection,
        width,
        heading,
        &mut record,
        &mut columns,
    )?;
    Ok(ReadColumns {
        columns,
        bytes_read: text.len().saturating_sub(left),
    })
}

/// Reads the records after a heading of `width` fields into columns, which are empty. Returns how
/// many bytes follow the last record that is read; none, if no record follows it.
fn read_rows<'a>(
    dialect: Dialect,
    selection: Selection<'_>,
    width: usize,
    heading: After<'a>,
    row: &mut RecordFields<'a>,
    columns: &mut Vec<ColumnFields>,
) -> Result<usize, Fault>
    requires { columns.old.items ≡ replicate (count_in selection.columns width) [] }
    ensures rows { OnOk result ((rows : List (List (List ℕ)))
        × (rows_from selection.entry width
        (loose_in dialect 1 (state_of heading.entry.place) heading.entry.text.now) 1
        (up_to selection.entry.rows (records_in dialect (state_of heading.entry.place)
        heading.entry.text.now)) ≡ Ok rows)
        × AreColumnsOf (count_in selection.entry.columns width) rows columns.new.items
        × (length rows ≤ most_rows)) }
    ensures left { IfOk result (λ left. left ≡ length (text_past dialect selection.entry.rows
        (state_of heading.entry.place) heading.entry.text.now)) }
    ensures fault { IfErr result (λ fault. is_memory fault ≡ false
        → rows_from selection.entry width
        (loose_in dialect 1 (state_of heading.entry.place) heading.entry.text.now) 1
        (up_to selection.entry.rows (records_in dialect (state_of heading.entry.place)
        heading.entry.text.now)) ≡ Err fault) }
    ensures device { IfErr result (λ fault. is_device_fault fault ≡ false) }
{
    let mut text = heading.text;
    let mut place = heading.place;
    let mut number: u32 = 1;
    'rows: while let Some(after) = row.read(dialect, text, place)? {
        if selection.is_past(number) {
            return Ok(text.len());
        }
        let is_rejected = is_rejected(dialect, after.is_loose);
        let has_length = selection.has_length(row.len(), width);
        check_record(is_rejected, has_length, number)?;
        add_row(selection, width, row, columns)?;
        text = after.text;
        place = after.place;
        number += 1;
    }
    Ok(0)
}

/// Returns whether a dialect rejects a record for its quotation marks.
fn is_rejected(dialect: Dialect, is_loose: bool) -> bool
    ensures { result ≡ is_loose && not dialect.is_lenient }
{
    is_loose && !dialect.is_lenient
}

/// Checks a heading of `width` fields.
fn check_heading(selection: Selection<'_>, is_rejected: bool, width: usize) -> Result<(), Fault>
    ensures checked { result ≡ heading_checked selection.entry.columns is_rejected width }
    ensures device { IfErr result (λ fault. is_device_fault fault ≡ false) }
{
    let count = selection.count(width);
    let are_there = selection.are_there(width);
    if is_rejected {
        Err(Fault::at_record(code::CSV_FAULT, 0))
    } else if count < 1 || count > MAX_COLUMNS || !are_there {
        Err(Fault::at_record(code::COLUMN_COUNT, 0))
    } else {
        Ok(())
    }
}

/// Checks a record of this number.
fn check_record(is_rejected: bool, has_length: bool, number: u32) -> Result<(), Fault>
    ensures checked { result ≡ record_checked is_rejected has_length number }
    ensures device { IfErr result (λ fault. is_device_fault fault ≡ false) }
{
    if is_rejected {
        Err(Fault::at_record(code::CSV_FAULT, number))
    } else if !has_length {
        Err(Fault::at_record(code::RECORD_LENGTH, number))
    } else if number > MAX_ROWS {
        Err(Fault::at_record(code::TOO_MANY_ROWS, number))
    } else {
        Ok(())
    }
}

/// Adds the row of a record to the columns. Fails only if memory is refused.
fn add_row(
    selection: Selection<'_>,
    width: usize,
    fields: &RecordFields<'_>,
    columns: &mut Vec<ColumnFields>,
) -> Result<(), AllocError>
    requires { length columns.old.items ≡ count_in selection.columns width }
    ensures { OnOk result (AddsRow (row_of selection.entry width fields.now) columns.old.items
        columns.new.items) }
{
    for k in 0..columns.len() {
        columns[k].push(fields.get_or_empty(selection.place(k)))?;
    }
    Ok(())
}

/// Returns columns without rows. Fails only if memory is refused.
fn empty_columns(alloc: Global, width: usize) -> Result<Vec<ColumnFields>, AllocError>
    ensures { IfOk result (λ columns. columns.items ≡ replicate width []) }
{
    let mut columns = Vec::with_capacity(alloc, width)?;
    for _ in 0..width {
        columns.push(ColumnFields::new(alloc))?;
    }
    Ok(columns)
}
