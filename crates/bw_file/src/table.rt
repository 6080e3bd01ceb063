//! Whole tables in memory, to the bytes of a table file and back.
ghost use Rattle.std.specs.Prelude.{◌≡◌, ◌-◌, ◌^◌, ◌<◌, ◌++◌, ◌∷◌, [], List, map, false, length};
ghost use Rattle.std.specs.Prelude.{slice_index_or, Ok, Err, OnOk, IfOk, IfErr, IsOkUnless};
ghost use Rattle.bw_model.specs.Fault.{no_memory, is_memory, MatchesUnlessOom};
ghost use Rattle.bw_model.specs.Row.{Value, values_of};
ghost use Rattle.bw_model.specs.SchemaText.{schema_shape};
ghost use Rattle.bw_file.specs.AnySegment.{any_meaning};
ghost use Rattle.bw_file.specs.FileBytes.{AreRows, IsFileBytes, file_bytes};
ghost use Rattle.bw_file.specs.Table.{found_of};
ghost use Rattle.bw_file.specs.TableReading.{found_as, IsReadAs, IsTableFault};

use crate::encoder::Encoder;
use crate::layout::Layout;
use crate::memory::Memory;
use crate::segments::AnySegment;
use crate::table_reader::TableReader;
use bw_model::{Fault, Row, Schema, Value};
use bw_segment::Segment;
use std::alloc::Global;

/// A table, and the layout of its file.
#[derive(Drop)]
pub struct Table {
    pub layout: Layout,
    pub schema: Schema,
    pub rows: Vec<Row>,
}

/// Returns the table file of at most 2^24 rows, which the schema must admit: version 1 if every
/// column fits it, else version 2. Errors: 801 if memory is refused.
pub fn encode(
    alloc: Global,
    layout: Layout,
    schema: &Schema,
    rows: &[Row],
) -> Result<Vec<u8>, Fault>
    requires { AreRows schema.now.columns.items (map values_of rows.now) }
    ensures bytes { IfOk result
        (λ bytes. bytes.items ≡ file_bytes layout schema.now (map values_of rows.now)) }
    ensures file { IfOk result
        (λ bytes. IsFileBytes bytes.items layout schema.now (map values_of rows.now)) }
    ensures only_oom { IsOkUnless result no_memory }
{
    schema.has_names_and_bounds();
    let mut encoder = Encoder::new(alloc, layout, schema)?;
    for row in rows {
        encoder.add(row)?;
    }
    encoder.finish()
}

/// Returns the table of a table file, of either version. Errors: the first in the order of the
/// format, 301 to 304, 310, and 305 to 309; 801 if memory is refused.
pub fn decode(alloc: Global, bytes: &[u8]) -> Result<Table, Fault>
    ensures table { IfOk result
        (λ table. IsFileBytes bytes.now table.layout table.schema
        (map values_of table.rows.items)) }
    ensures accepted { (layout : Layout) (schema : Schema) (rows : List (List Value))
        → IsFileBytes bytes.now layout schema rows
        → MatchesUnlessOom found_of result (Ok (found_as layout (schema_shape schema) rows)) }
    ensures read { IfOk result (λ table. IsReadAs bytes.now (Ok (found_of table))) }
    ensures fault { IfErr result
        (λ fault. is_memory fault ≡ false → IsReadAs bytes.now (Err fault)) }
    ensures code { IfErr result IsTableFault }
{
    let mut source = Memory { rest: bytes };
    let mut reader = TableReader::begin(alloc, &mut source)?;
    let mut rows = Vec::new(alloc);
    while let Some(segment) = reader.next_segment(&mut source)? {
        push_rows(alloc, &segment, &mut rows)?;
    }
    Ok(Table {
        layout: reader.layout(),
        schema: reader.schema().copy(alloc)?,
        rows,
    })
}

/// Adds the rows of a segment.
fn push_rows(alloc: Global, segment: &AnySegment, rows: &mut Vec<Row>) -> Result<(), Fault>
    ensures rows { OnOk result (map values_of rows.new.items ≡ map values_of rows.old.items
        ++ (any_meaning segment.now).rows) }
    ensures only_oom { IsOkUnless result no_memory }
{
    for i in 0..segment.rows_in() as usize {
        rows.push(row_of(alloc, segment, i)?)?;
    }
    Ok(())
}

/// Returns a row of a segment.
fn row_of(alloc: Global, segment: &AnySegment, i: usize) -> Result<Row, Fault>
    requires { i < length (any_meaning segment.now).rows }
    ensures row { IfOk result
        (λ row. values_of row ≡ slice_index_or (any_meaning segment.now).rows i []) }
    ensures only_oom { IsOkUnless result no_memory }
{
    let count = segment.schema().columns.len();
    let mut values: Vec<Value> = Vec::with_capacity(alloc, count)?;
    for col in 0..count {
        values.push(segment.value(col, i))?;
    }
    Ok(Row { values })
}
