//! The text of numbers: what the codes of each column become.
ghost use Rattle.std.specs.Prelude.{◌≡◌, ◌+◌, ◌<◌, ◌^◌, Ok, None, drop, length, not, IfOk};
ghost use Rattle.std.specs.Option.{option_map};
ghost use Rattle.bw_text.specs.Lines.{cut_lines};
ghost use Rattle.bw_model.specs.Code.{span_of};
ghost use Rattle.bw_model.specs.Fault.{MatchesUnlessOom, at_line, refused_if};
ghost use Rattle.bw_model.specs.FaultTable.{OUT_OF_RANGE};
ghost use Rattle.bw_csv.specs.Rule.{rule_of};
ghost use Rattle.bw_recode.specs.Numbers.{keeps_nulls, is_narrower, lines_of};
ghost use Rattle.bw_recode.specs.Numbers.{value_of_line, values_of_lines, replacement_at};
ghost use Rattle.bw_recode.specs.Recode.{replacements_in, replacements_of};

use bw_csv::{FieldRule, value_of};
use bw_model::{Column, Fault, Value, code};
use bw_text::{Lines, is_same_text};
use std::alloc::Global;

/// What the values of a column become: the same values, or for each code in order a number or null.
pub(crate) type Replacement = Option<Vec<Value>>;

/// Returns how many codes a column has.
fn code_count(column: &Column) -> u64
    ensures { result ≡ span_of column.now + 1 }
{
    column.hi.abs_diff(column.lo) + 1
}

/// Returns the values of the next `count` lines. Errors: those of a field (204 to 206), or 203 if the
/// text ends before, at the line's number.
fn read_values(
    alloc: Global,
    rule: &FieldRule,
    count: u64,
    lines: &mut Lines<'_>,
) -> Result<Vec<Value>, Fault>
    ensures values { MatchesUnlessOom (λ values. values.items) result (values_of_lines rule.now
        count lines.old.number (cut_lines lines.old.text)) }
    ensures rest { IfOk result (λ values. (cut_lines lines.new.text
        ≡ drop (length values.items) (cut_lines lines.old.text))
        × (lines.new.number ≡ lines.old.number + length values.items)) }
{
    let mut values = Vec::new(alloc);
    while (values.len() as u64) < count {
        let number = lines.number();
        let Some(line) = lines.cut_line() else {
            return Err(Fault::at_line(code::RECORD_LENGTH, number));
        };
        values.push(value_of_line(rule, number, line)?)?;
    }
    Ok(values)
}

/// Returns the value that a line spells as a field. Errors: 204 to 206, at the line of this number.
fn value_of_line(rule: &FieldRule, number: u64, line: &[u8]) -> Result<Value, Fault>
    ensures { result ≡ value_of_line rule.now number line.now }
{
    match value_of(rule, line, 0) {
        Ok(value) => Ok(value),
        Err(fault) => Err(Fault::at_line(fault.code, number)),
    }
}

/// Returns what the values of a column become in a new one. Errors, at the number of a line: 206 if
/// the column may have nulls and the new one may not, 205 if it is kept and the new one lacks its
/// numbers, 203 if the line isn't KEEP or CODES, and those of the values.
fn read_replacement(
    alloc: Global,
    old: &Column,
    new: &Column,
    lines: &mut Lines<'_>,
) -> Result<Replacement, Fault>
    ensures read { MatchesUnlessOom (option_map (λ values. values.items)) result
        (replacement_at old.now new.now lines.old.number (cut_lines lines.old.text)) }
    ensures rest { IfOk result (λ read. (cut_lines lines.new.text
        ≡ drop (lines_of (option_map (λ values. values.items) read)) (cut_lines lines.old.text))
        × (lines.new.number
        ≡ lines.old.number + lines_of (option_map (λ values. values.items) read))) }
{
    let number = lines.number();
    let Some(line) = lines.cut_line() else {
        return Err(Fault::at_line(code::RECORD_LENGTH, number));
    };
    if !keeps_nulls(old, new) {
        return Err(Fault::at_line(code::NULL_NOT_ALLOWED, number));
    }
    if is_same_text(line, b"KEEP") {
        return keep_values(old, new, number);
    }
    if !is_same_text(line, b"CODES") {
        return Err(Fault::at_line(code::RECORD_LENGTH, number));
    }
    Ok(Some(read_values(alloc, &FieldRule::of(new), code_count(old), lines)?))
}

/// Keeps a column's values, if the new column has all its numbers.
fn keep_values(old: &Column, new: &Column, number: u64) -> Result<Replacement, Fault>
    ensures { result ≡ refused_if (not (is_narrower old.now new.now))
        (at_line OUT_OF_RANGE number) (Ok None) }
{
    if new.lo <= old.lo && old.hi <= new.hi {
        Ok(None)
    } else {
        Err(Fault::at_line(code::OUT_OF_RANGE, number))
    }
}

/// Returns whether the nulls that a column may have are allowed in a new one.
fn keeps_nulls(old: &Column, new: &Column) -> bool
    ensures { result ≡ keeps_nulls old.now new.now }
{
    !old.nullable || new.nullable
}

/// Returns what the values of each column become in the column of the same place, in order. Errors:
/// those of a column, or 203 if the columns aren't equally many, or if a line follows.
pub(crate) fn read_replacements(
    alloc: Global,
    olds: &[Column],
    news: &[Column],
    numbers: &[u8],
) -> Result<Vec<Replacement>, Fault>
    requires { length numbers.now < 2 ^ 63 }
    ensures { MatchesUnlessOom (λ found. replacements_in found.items) result
        (replacements_of olds.now news.now numbers.now) }
{
    let mut lines = Lines::new(numbers);
    let mut replacements = Vec::new(alloc);
    for (i, old) in olds.iter().enumerate() {
        if i >= news.len() {
            return Err(Fault::at_line(code::RECORD_LENGTH, lines.number()));
        }
        replacements.push(read_replacement(alloc, old, &news[i], &mut lines)?)?;
    }
    if olds.len() < news.len() {
        return Err(Fault::at_line(code::RECORD_LENGTH, lines.number()));
    }
    if !lines.rest().is_empty() {
        return Err(Fault::at_line(code::RECORD_LENGTH, lines.number()));
    }
    Ok(replacements)
}
