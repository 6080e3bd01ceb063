//! The text that says what the codes of a table's columns stand for.
ghost use Rattle.std.specs.Prelude.{◌≡◌, ◌++◌, IfOk, OnOk, length, map};
ghost use Rattle.std.specs.List.{flat_map};
ghost use Rattle.bw_encode.specs.Coded.{encoding_of};
ghost use Rattle.bw_encode.specs.Fields.{texts_under};
ghost use Rattle.bw_encode.specs.FieldsText.{encoding_bytes, end_bytes, fields_bytes, fields_text};
ghost use Rattle.bw_encode.specs.FieldsText.{lengths_bytes};
ghost use Rattle.bw_encode.specs.FieldsText.{list_bytes, number_bytes, numbers_bytes};

use crate::coded::{Coded, Coding};
use crate::dictionary::Dictionary;
use std::alloc::{AllocError, Global};

/// Returns the text for columns. Fails only if memory is refused.
#[tactic(auto, unfolding(crate::specs::FieldsText::fields_text, crate::specs::FieldsText::magic))]
pub(crate) fn fields_text(alloc: Global, columns: &[Coded<'_>]) -> Result<Vec<u8>, AllocError>
    ensures { IfOk result (λ text. text.items ≡ fields_text (map encoding_of columns.now)) }
{
    let mut text = Vec::from_slice(alloc, b"BWFIELDS")?;
    push_number(&mut text, columns.len() as u64)?;
    push_columns(&mut text, columns)?;
    Ok(text)
}

/// Adds how many bytes of the CSV text were read, if there is a limit of rows.
pub(crate) fn push_end(
    text: &mut Vec<u8>,
    rows: Option<u32>,
    bytes_read: usize,
) -> Result<(), AllocError>
    ensures { OnOk result (text.new.items ≡ text.old.items ++ end_bytes rows bytes_read) }
{
    match rows {
        Some(_) => push_number(text, bytes_read as u64),
        None => Ok(()),
    }
}

/// Adds what each column is.
fn push_columns(text: &mut Vec<u8>, columns: &[Coded<'_>]) -> Result<(), AllocError>
    ensures { OnOk result (text.new.items ≡ text.old.items
        ++ flat_map (λ column. encoding_bytes (encoding_of column)) columns.now) }
{
    for column in columns {
        push_column(text, column)?;
    }
    Ok(())
}

/// Adds what a column is.
fn push_column(text: &mut Vec<u8>, column: &Coded<'_>) -> Result<(), AllocError>
    ensures { OnOk result (text.new.items ≡ text.old.items
        ++ encoding_bytes (encoding_of column.now)) }
{
    match &column.coding {
        Coding::Numbers(_) => {
            text.push(0)?;
            Ok(())
        }
        Coding::Codes(dictionary) => {
            text.push(1)?;
            push_list(text, dictionary)
        }
    }
}

/// Adds a list of distinct fields.
fn push_list(text: &mut Vec<u8>, dictionary: &Dictionary<'_>) -> Result<(), AllocError>
    ensures { OnOk result (text.new.items ≡ text.old.items
        ++ list_bytes (texts_under dictionary.now.fields.items) dictionary.now.counts.items) }
{
    push_number(text, dictionary.fields.len() as u64)?;
    push_counts(text, &dictionary.counts)?;
    push_lengths(text, &dictionary.fields)?;
    push_fields(text, &dictionary.fields)
}

/// Adds counts.
fn push_counts(text: &mut Vec<u8>, counts: &[u32]) -> Result<(), AllocError>
    ensures { OnOk result (text.new.items ≡ text.old.items ++ numbers_bytes counts.now) }
{
    for count in counts {
        push_number(text, u64::from(*count))?;
    }
    Ok(())
}

/// Adds the lengths of fields.
fn push_lengths(text: &mut Vec<u8>, fields: &[&[u8]]) -> Result<(), AllocError>
    ensures { OnOk result (text.new.items ≡ text.old.items
        ++ lengths_bytes (texts_under fields.now)) }
{
    for field in fields {
        push_number(text, field.len() as u64)?;
    }
    Ok(())
}

/// Adds the bytes of fields.
fn push_fields(text: &mut Vec<u8>, fields: &[&[u8]]) -> Result<(), AllocError>
    ensures { OnOk result (text.new.items ≡ text.old.items
        ++ fields_bytes (texts_under fields.now)) }
{
    for field in fields {
        text.extend_from_slice(field)?;
    }
    Ok(())
}

/// Adds a number.
fn push_number(text: &mut Vec<u8>, n: u64) -> Result<(), AllocError>
    ensures { OnOk result (text.new.items ≡ text.old.items ++ number_bytes n) }
{
    text.extend_from_slice(&n.to_le_bytes())
}
