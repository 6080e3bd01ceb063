//! Rows of a group, stored by columns as they come.
ghost use Rattle.std.specs.Prelude.{◌≡◌, ◌<◌, ◌++◌, ◌∷◌, [], ℕ, List, true, length, map, IfOk};
ghost use Rattle.std.specs.Prelude.{IsOkUnless};
ghost use Rattle.bw_model.specs.declared.column.Column.{Column};
ghost use Rattle.bw_model.specs.Column.{admits_values};
ghost use Rattle.bw_model.specs.Fault.{no_memory};
ghost use Rattle.bw_model.specs.Row.{Value, values_of};
ghost use Rattle.bw_segment.specs.Columns.{KeepRows};
ghost use Rattle.bw_segment.specs.Meaning.{meaning_of, IsGroup};

use bw_lanes::LANES;
use bw_model::{Fault, Row, Schema};
use std::alloc::Global;

/// The stored codes of a column in the 512 lanes of a group, and for each lane 1 if it is null,
/// else 0.
#[derive(Drop)]
pub struct ColumnCodes {
    pub codes: [u64; LANES],
    pub nulls: [u8; LANES],
}

impl ColumnCodes {
    ghost use Rattle.std.specs.Prelude.{◌≡◌, ◌<◌, replicate, slice_set, if◌then◌else◌};

    /// Returns a column of no rows.
    pub(crate) fn empty() -> Self
        ensures codes { result.codes ≡ replicate 512 0 }
        ensures nulls { result.nulls ≡ replicate 512 0 }
    {
        ColumnCodes {
            codes: [0; LANES],
            nulls: [0; LANES],
        }
    }

    /// Sets the code of a lane, and whether it is null's.
    fn put(&mut self, lane: usize, code: u64, null: bool)
        requires { lane < 512 }
        ensures codes { self.new.codes ≡ slice_set self.old.codes lane code }
        ensures nulls { self.new.nulls ≡ slice_set self.old.nulls lane (if null then 1 else 0) }
    {
        self.codes[lane] = code;
        self.nulls[lane] = null as u8;
    }
}

/// Returns `count` columns of no rows. Errors: 801 if memory is refused.
pub fn no_rows(alloc: Global, count: usize) -> Result<Vec<ColumnCodes>, Fault>
    ensures keeps { IfOk result (λ kept. (columns : List Column) → length columns ≡ count
        → KeepRows columns [] kept.items) }
    ensures only_oom { IsOkUnless result no_memory }
{
    let mut kept = Vec::with_capacity(alloc, count)?;
    for _ in 0..count {
        kept.push(ColumnCodes::empty())?;
    }
    Ok(kept)
}

/// Removes all rows.
pub fn clear_rows(kept: &mut [ColumnCodes])
    ensures { (columns : List Column) → length columns ≡ length kept.old
        → KeepRows columns [] kept.new }
{
    for column in kept.iter_mut() {
        *column = ColumnCodes::empty();
    }
}

/// Stores a row, which the schema must admit, in the lane after those of earlier rows. Allocates no
/// memory.
pub fn keep_row(kept: &mut [ColumnCodes], schema: &Schema, lane: usize, row: &Row)
    requires all { length kept.old ≡ length schema.now.columns.items }
    requires lane { lane < 512 }
    requires admitted { admits_values schema.now.columns.items (values_of row.now) ≡ true }
    ensures { (rows : List (List Value)) → length rows ≡ lane
        → KeepRows schema.now.columns.items rows kept.old
        → KeepRows schema.now.columns.items (rows ++ values_of row.now ∷ []) kept.new }
{
    for (col, column) in kept.iter_mut().enumerate() {
        let value = row.values[col];
        let code = schema.code(col, value).unwrap_or(0);
        column.put(lane, code, value.is_none());
    }
}

/// Returns the rows of a group, stored by columns. Errors: 801 if memory is refused.
pub fn columns_of(alloc: Global, schema: &Schema, rows: &[Row]) -> Result<Vec<ColumnCodes>, Fault>
    requires { IsGroup (meaning_of schema.now rows.now) }
    ensures keeps { IfOk result (λ kept.
        KeepRows schema.now.columns.items (map values_of rows.now) kept.items) }
    ensures only_oom { IsOkUnless result no_memory }
{
    let mut kept = no_rows(alloc, schema.columns.len())?;
    for (lane, row) in rows.iter().enumerate() {
        keep_row(&mut kept, schema, lane, row);
    }
    Ok(kept)
}
