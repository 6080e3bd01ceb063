//! Columns of numbers, and columns of codes.
ghost use Rattle.std.specs.Prelude.{◌≡◌, ◌≤◌, ◌<◌, All, IfOk, length, map, None, slice_index_or};
ghost use Rattle.bw_model.specs.Limits.{most_rows};
ghost use Rattle.bw_encode.specs.Coded.{IsCoded, encoding_of, fields_in};
ghost use Rattle.bw_encode.specs.Column.{values_in};

use crate::column_fields::{ColumnFields, Content};
use crate::dictionary::{Dictionary, dictionary_of};
use crate::seen::Seen;
use bw_model::Value;
use std::alloc::{AllocError, Global};
use std::hash::RandomState;

/// What a column has: numbers, or codes.
#[derive(Drop)]
pub(crate) enum Coding<'a> {
    Numbers(&'a [Value]),
    Codes(Dictionary<'a>),
}

/// A column with its fields, and what is seen of its values.
#[derive(Drop)]
pub(crate) struct Coded<'a> {
    pub(crate) fields: &'a ColumnFields,
    pub(crate) seen: Seen,
    pub(crate) coding: Coding<'a>,
}

impl Coded<'_> {
    /// Returns the value of a row, which the column must have.
    pub(crate) fn value(&self, row: usize) -> Value
        requires coded { IsCoded self.now }
        requires within { row < length (fields_in self.now) }
        ensures { result ≡ slice_index_or (values_in (encoding_of self.now)) row None }
    {
        match &self.coding {
            Coding::Numbers(values) => values.get(row).copied().unwrap_or(None),
            Coding::Codes(dictionary) => Some(i64::from(dictionary.codes[row])),
        }
    }
}

/// Returns the columns of fields, each of at most 2^24 rows. Fails only if memory is refused.
pub(crate) fn coded_columns<'a>(
    alloc: Global,
    hasher: RandomState,
    columns: &'a [ColumnFields],
) -> Result<Vec<Coded<'a>>, AllocError>
    requires { All (λ fields. length fields ≤ most_rows) columns.now }
    ensures fields { IfOk result (λ coded. map fields_in coded.items ≡ columns.now) }
    ensures coded { IfOk result (λ coded. All IsCoded coded.items) }
{
    let mut coded = Vec::with_capacity(alloc, columns.len())?;
    for fields in columns {
        coded.push(coded_column(alloc, hasher, fields)?)?;
    }
    Ok(coded)
}

/// Returns the column of fields, of at most 2^24 rows. Fails only if memory is refused.
fn coded_column<'a>(
    alloc: Global,
    hasher: RandomState,
    fields: &'a ColumnFields,
) -> Result<Coded<'a>, AllocError>
    requires { length fields.now ≤ most_rows }
    ensures fields { IfOk result (λ column. fields_in column ≡ fields.now) }
    ensures coded { IfOk result IsCoded }
{
    match fields.content() {
        Content::Numbers(values, seen) => Ok(Coded {
            fields,
            seen,
            coding: Coding::Numbers(values),
        }),
        Content::Texts(texts) => {
            let dictionary = dictionary_of(alloc, hasher, texts)?;
            Ok(Coded {
                fields,
                seen: Seen::of_codes(dictionary.fields.len()),
                coding: Coding::Codes(dictionary),
            })
        }
    }
}
