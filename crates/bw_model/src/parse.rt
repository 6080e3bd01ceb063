//! Schema texts: a line `TABLE name`, then for each column a line `COLUMN name lo hi` or
//! `COLUMN name lo hi NOT NULL`. `lines.rt` of `bw_text` has the rules of lines. The case of
//! keywords is ignored.
ghost use Rattle.std.specs.Prelude.{◌≡◌, ◌<◌, Ok, false, map, length, option_map, pos, ◌≤ℤ◌, ◌<ℤ◌};
ghost use Rattle.std.specs.Prelude.{◌-ℤ◌, ◌^◌, IfOk, IfErr, IsTrue};
ghost use Rattle.std.specs.List.{list_any};
ghost use Rattle.bw_model.specs.Column.{names_of};
ghost use Rattle.bw_model.specs.Fault.{MatchesUnlessOom};
ghost use Rattle.bw_text.specs.Lines.{line_of};
ghost use Rattle.bw_model.specs.SchemaText.{schema_of, schema_shape, SchemaShape, IsSchemaText};
ghost use Rattle.bw_model.specs.SchemaText.{IsSchemaFault, column_shape, column_words, with_bounds};
ghost use Rattle.bw_model.specs.SchemaText.{are_not_null, column_on, table_on, is_range, bound_of};
ghost use Rattle.bw_model.specs.SchemaText.{signed_digits, words_shape};
ghost use Rattle.bw_text.specs.Text.{same_text};

use crate::column::Column;
use crate::fault::{Fault, code};
use crate::limits::{MAX_COLUMNS, MAX_SCHEMA_LEN};
use crate::name::{Name, is_name};
use crate::schema::Schema;
use bw_text::{Line, Lines, is_same_text, number_in};
use std::alloc::Global;

impl Schema {
    /// Reads a schema text.
    ///
    /// Errors: 106 if the text has more than 65,536 bytes. Otherwise the first wrong line is
    /// reported, with the first of these that applies:
    ///
    /// - 101: another form than those above, or a bound that isn't an optional `-` and digits
    ///   within 64 bits
    /// - 105: the 65th column
    /// - 102: an invalid name
    /// - 104: the name of an earlier column
    /// - 103: bounds out of order, or 2^63 or more apart
    ///
    /// At the end of the text, one line after the last, a missing table is 101, and a table without
    /// columns 105. 801 if memory is refused.
    pub fn parse(alloc: Global, text: &[u8]) -> Result<Schema, Fault>
        // A text that is read spells the schema, and every text that spells one is read.
        ensures spelled { IfOk result (λ schema. IsSchemaText text.now (schema_shape schema)) }
        ensures accepted { (schema : SchemaShape) → IsSchemaText text.now schema
            → MatchesUnlessOom schema_shape result (Ok schema) }

        // A failed call returns the first error of the text.
        ensures fault { MatchesUnlessOom schema_shape result (schema_of text.now) }
        ensures code { IfErr result IsSchemaFault }
    {
        read_schema(alloc, text)
    }
}

/// Reads a schema text line by line.
#[tactic(auto, unfolding(crate::specs::SchemaText::schema_of, crate::specs::SchemaText::schema_on, crate::specs::SchemaText::columns_on))]
fn read_schema(alloc: Global, text: &[u8]) -> Result<Schema, Fault>
    ensures { MatchesUnlessOom schema_shape result (schema_of text.now) }
{
    if text.len() > MAX_SCHEMA_LEN {
        return Err(Fault::new(code::SCHEMA_TOO_LONG));
    }
    let mut lines = Lines::new(text);
    let Some(first) = lines.next_line(alloc)? else {
        return Err(Fault::at_line(code::SCHEMA_FORM, lines.number()));
    };
    let name = table_of(alloc, &first)?;
    let mut columns: Vec<Column> = Vec::new(alloc);
    while let Some(line) = lines.next_line(alloc)? {
        let column = column_of(alloc, &line, &columns)?;
        columns.push(column)?;
    }
    if columns.is_empty() {
        return Err(Fault::at_line(code::COLUMN_COUNT, lines.number()));
    }
    Ok(Schema { name, columns })
}

/// Returns the table's name from the line `TABLE name`.
#[tactic(auto, unfolding(crate::specs::SchemaText::table_words))]
fn table_of(alloc: Global, line: &Line) -> Result<Name, Fault>
    ensures { MatchesUnlessOom (λ name. name) result (table_on (line_of line.now)) }
{
    let [keyword, name] = line.words.as_slice() else {
        return Err(Fault::at_line(code::SCHEMA_FORM, line.number));
    };
    if !is_same_text(keyword, b"TABLE") {
        return Err(Fault::at_line(code::SCHEMA_FORM, line.number));
    }
    if !is_name(name) {
        return Err(Fault::at_line(code::SCHEMA_NAME, line.number));
    }
    Ok(Name::new(alloc, name)?)
}

/// The words of a column's line.
#[derive(Drop)]
struct Words<'a> {
    name: &'a [u8],
    lo: i64,
    hi: i64,
    nullable: bool,
}

/// Returns the words of a line of a column's form, or None for another line.
#[tactic(auto, unfolding(crate::specs::SchemaText::column_words))]
fn words_of_column<'a>(words: &[&'a [u8]]) -> Option<Words<'a>>
    ensures { option_map words_shape result ≡ column_words (map (λ word. word.now) words.now) }
{
    match words {
        [keyword, name, lo, hi] => {
            if !is_same_text(keyword, b"COLUMN") {
                return None;
            }
            with_bounds(name, bound_of(lo), bound_of(hi), true)
        }
        [keyword, name, lo, hi, not, null] => {
            if !is_same_text(keyword, b"COLUMN") || !is_not_null(not, null) {
                return None;
            }
            with_bounds(name, bound_of(lo), bound_of(hi), false)
        }
        _ => None,
    }
}

fn is_not_null(not: &[u8], null: &[u8]) -> bool
    ensures { result ≡ are_not_null not.now null.now }
{
    is_same_text(not, b"NOT") && is_same_text(null, b"NULL")
}

fn with_bounds<'a>(
    name: &'a [u8],
    lo: Option<i64>,
    hi: Option<i64>,
    nullable: bool,
) -> Option<Words<'a>>
    ensures { option_map words_shape result ≡ with_bounds name.now lo hi nullable }
{
    let (Some(lo), Some(hi)) = (lo, hi) else {
        return None;
    };
    Some(Words {
        name,
        lo,
        hi,
        nullable,
    })
}

/// Returns a bound: an optional `-` and digits, within 64 bits.
#[tactic(auto, unfolding(crate::specs::SchemaText::bound_of))]
fn bound_of(text: &[u8]) -> Option<i64>
    ensures { result ≡ bound_of text.now }
{
    match text {
        [b'-', digits @ ..] => signed_digits(true, digits),
        _ => signed_digits(false, text),
    }
}

fn signed_digits(is_negative: bool, digits: &[u8]) -> Option<i64>
    ensures { result ≡ signed_digits is_negative digits.now }
{
    number_in(is_negative, digits)?
}

/// Returns whether a column has this name, ignoring case.
pub fn has_name(columns: &[Column], name: &[u8]) -> bool
    ensures { result ≡ list_any (λ column. same_text column.name name.now) columns.now }
{
    columns.iter().any(|column| column.name.is(name))
}

/// Returns whether the bounds are in order, and less than 2^63 apart.
#[tactic(auto, unfolding(crate::specs::SchemaText::is_range))]
pub fn is_range(lo: i64, hi: i64) -> bool
    ensures test { result ≡ is_range lo hi }
    ensures ordered { IsTrue result → lo ≤ℤ hi }
    ensures narrow { IsTrue result → (hi -ℤ lo) <ℤ pos (2 ^ 63) }
{
    lo <= hi && hi.checked_sub(lo).is_some()
}

/// Returns the column of a line that follows these columns, or the line's first error.
#[tactic(auto, using(crate::proofs::SchemaLemmas::list_any_names))]
fn column_of(alloc: Global, line: &Line, before: &[Column]) -> Result<Column, Fault>
    ensures column { MatchesUnlessOom column_shape result
        (column_on (names_of before.now) (line_of line.now)) }
    ensures capacity { IfOk result (λ column. length before.now < 64) }
    ensures apart { IfOk result (λ column. list_any (λ name. same_text name column.name)
        (names_of before.now) ≡ false) }
{
    let Some(words) = words_of_column(line.words.as_slice()) else {
        return Err(Fault::at_line(code::SCHEMA_FORM, line.number));
    };
    if before.len() >= MAX_COLUMNS {
        return Err(Fault::at_line(code::COLUMN_COUNT, line.number));
    }
    if !is_name(words.name) {
        return Err(Fault::at_line(code::SCHEMA_NAME, line.number));
    }
    if has_name(before, words.name) {
        return Err(Fault::at_line(code::NAME_TWICE, line.number));
    }
    if !is_range(words.lo, words.hi) {
        return Err(Fault::at_line(code::SCHEMA_RANGE, line.number));
    }
    Ok(Column {
        name: Name::new(alloc, words.name)?,
        lo: words.lo,
        hi: words.hi,
        nullable: words.nullable,
    })
}
