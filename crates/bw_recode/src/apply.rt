//! Rows with other values.
ghost use Rattle.std.specs.Prelude.{◌≡◌, ◌++◌, ◌∷◌, ◌<◌, ◌≤◌, ◌+◌, [], List, true, length, map};
ghost use Rattle.std.specs.Prelude.{slice_index_or, IfOk, OnOk, IsOkUnless};
ghost use Rattle.std.specs.Option.{option_map};
ghost use Rattle.bw_model.specs.Fault.{no_memory};
ghost use Rattle.bw_model.specs.Limits.{most_rows};
ghost use Rattle.bw_model.specs.Row.{Value, values_of};
ghost use Rattle.bw_file.specs.Encoder.{Holds, encoder_layout, encoder_schema, rows_in};
ghost use Rattle.bw_recode.specs.Recode.{IsReplacing, entry_of, replaced_at, replaced_row};
ghost use Rattle.bw_recode.specs.Recode.{replacements_in};

use crate::numbers::Replacement;
use bw_file::Encoder;
use bw_model::{Fault, Row, Schema, Value};
use bw_segment::Segment;
use std::alloc::Global;

/// Adds the rows of a segment, with their values replaced, to a table.
pub(crate) fn add_segment<S: Segment>(
    alloc: Global,
    segment: &S,
    replacements: &[Replacement],
    encoder: &mut Encoder,
) -> Result<(), Fault>
    requires replacing { IsReplacing (S.meaning segment.now).columns
        (encoder_schema encoder.old).columns.items (replacements_in replacements.now) }
    requires capacity { rows_in encoder.old + length (S.meaning segment.now).rows ≤ most_rows }
    ensures holds { OnOk result ((rows : List (List Value)) → Holds encoder.old rows
        → Holds encoder.new (rows ++ map (replaced_row (S.meaning segment.now).columns
        (replacements_in replacements.now)) (S.meaning segment.now).rows)) }
    ensures rows { OnOk result (rows_in encoder.new
        ≡ rows_in encoder.old + length (S.meaning segment.now).rows) }
    ensures same { (encoder_layout encoder.new ≡ encoder_layout encoder.old)
        × (encoder_schema encoder.new ≡ encoder_schema encoder.old) }
    ensures only_oom { IsOkUnless result no_memory }
{
    let mut row = Row {
        values: Vec::new(alloc),
    };
    for i in 0..segment.rows_in() as usize {
        replace_values(segment, replacements, i, &mut row)?;
        encoder.add(&row)?;
    }
    Ok(())
}

/// Writes a row of a segment, with its values replaced, into `row`.
fn replace_values<S: Segment>(
    segment: &S,
    replacements: &[Replacement],
    i: usize,
    row: &mut Row,
) -> Result<(), Fault>
    requires row { i < length (S.meaning segment.now).rows }
    requires columns { length replacements.now ≡ length (S.meaning segment.now).columns }
    ensures row { OnOk result (values_of row.new
        ≡ replaced_row (S.meaning segment.now).columns (replacements_in replacements.now)
        (slice_index_or (S.meaning segment.now).rows i [])) }
    ensures only_oom { IsOkUnless result no_memory }
{
    row.values.clear();
    let schema = segment.schema();
    for (col, replacement) in replacements.iter().enumerate() {
        let value = segment.value(col, i);
        row.values
            .push(replace_value(schema, col, replacement, value))?;
    }
    Ok(())
}

/// Returns what a value of a column becomes.
fn replace_value(schema: &Schema, col: usize, replacement: &Replacement, value: Value) -> Value
    requires { col < length schema.now.columns.items }
    ensures { result ≡ replaced_at schema.now.columns.items col
        (option_map (λ values. values.items) replacement.now) value }
{
    match replacement {
        None => value,
        Some(values) => entry_of(values, schema.code(col, value)),
    }
}

/// Returns a list's entry for a code. Null has no code, and stays null.
fn entry_of(values: &[Value], code: Option<u64>) -> Value
    ensures { result ≡ entry_of values.now code }
{
    match code {
        Some(code) => values.get(code as usize).copied().unwrap_or(None),
        None => None,
    }
}
