//! A table file written row by row.
ghost use Rattle.std.specs.Prelude.{◌≡◌, ◌+◌, ◌-◌, ◌<◌, ◌≤◌, ◌++◌, ◌∷◌, [], List, true, take, drop};
ghost use Rattle.std.specs.Prelude.{length, OnOk, OnErr, IfOk, IsOkUnless};
ghost use Rattle.std.specs.List.{list_all, flat_map};
ghost use Rattle.std.specs.Int.{w32, to_le_bytes};
ghost use Rattle.bw_model.specs.Column.{admits_values};
ghost use Rattle.bw_model.specs.Fault.{no_memory};
ghost use Rattle.bw_model.specs.Limits.{most_rows};
ghost use Rattle.bw_model.specs.Row.{Value, values_of};
ghost use Rattle.bw_file.specs.Blocks.{segment_bytes, IsPlaced};
ghost use Rattle.bw_file.specs.Columnar.{bytes_in_order, columnar_bytes};
ghost use Rattle.bw_file.specs.FileBytes.{are_bounds, AreRows, file_bytes, front_bytes};
ghost use Rattle.bw_file.specs.FileBytes.{header_bytes, name_bytes, column_bytes, bound_bytes};
ghost use Rattle.bw_file.specs.FileBytes.{layout_byte, flag_byte, version_for};

use crate::columnar::by_columns;
use crate::fields::{are_bounds, magic_bytes};
use crate::layout::Layout;
use crate::order::FileOrder;
use crate::segments::{append, placement_of};
use bw_lanes::LANES;
use bw_model::{Column, Fault, Name, Row, RowConsumer, Schema};
use bw_segment::{ColumnCodes, Placement, clear_rows, keep_row, no_rows};
use byteorder::{ByteOrder, LittleEndian};
use std::alloc::Global;

/// The offset of the number of rows in a file.
const ROW_COUNT_AT: usize = 12;

/// A table file that is written row by row. It stores whole segments as their bytes, and by columns
/// only the rows of the last one.
#[derive(Drop)]
pub struct Encoder {
    alloc: Global,
    layout: Layout,
    placement: Placement,
    bytes: Vec<u8>,
    /// The `filled` rows that aren't in `bytes` yet.
    kept: Vec<ColumnCodes>,
    filled: usize,
    rows: u32,
    ghost placed: { IsPlaced layout placement },
    ghost headed: { 16 ≤ length bytes.items },
    ghost all: { length kept.items ≡ length placement.schema.columns.items },
    ghost within_limit: { filled ≤ 512 },
    ghost counter_fits: { rows ≤ most_rows },
}

impl Encoder {
    ghost use Rattle.bw_file.specs.Encoder.{Holds, IsAsBefore, IsBytesOf, encoder_schema};
    ghost use Rattle.bw_file.specs.Encoder.{encoder_layout, rows_in};

    /// Returns an encoder of an empty table of this schema, which it copies. Errors: 801 if memory
    /// is refused.
    pub fn new(alloc: Global, layout: Layout, schema: &Schema) -> Result<Self, Fault>
        ensures layout { IfOk result (λ encoder. encoder_layout encoder ≡ layout) }
        ensures name { IfOk result (λ encoder. (encoder_schema encoder).name ≡ schema.now.name) }
        ensures columns { IfOk result
            (λ encoder. (encoder_schema encoder).columns.items ≡ schema.now.columns.items) }
        ensures rows { IfOk result (λ encoder. rows_in encoder ≡ 0) }
        ensures holds { IfOk result (λ encoder. Holds encoder []) }
        ensures only_oom { IsOkUnless result no_memory }
    {
        let placement = placement_of(alloc, layout, schema)?;
        let mut bytes = Vec::new(alloc);
        let version = version_of(&placement.schema.columns);
        push_header(
            &mut bytes,
            FileOrder::ByRows,
            version,
            layout,
            &placement.schema,
        )?;
        let kept = no_rows(alloc, placement.schema.columns.len())?;
        Ok(Encoder {
            alloc,
            layout,
            placement,
            bytes,
            kept,
            filled: 0,
            rows: 0,
        })
    }

    /// Adds a row, which the schema must admit; the table must have less than 2^24 rows. Errors:
    /// 801 if memory is refused. The encoder then has the rows that it had, and the row can be
    /// added again.
    pub fn add(&mut self, row: &Row) -> Result<(), Fault>
        requires admitted { admits_values (encoder_schema self.old).columns.items
            (values_of row.now) ≡ true }
        requires capacity { rows_in self.old < most_rows }
        ensures holds { OnOk result ((rows : List (List Value)) → Holds self.old rows
            → Holds self.new (rows ++ values_of row.now ∷ [])) }
        ensures rows { OnOk result (rows_in self.new ≡ rows_in self.old + 1) }
        ensures refused { OnErr result ((rows_in self.new ≡ rows_in self.old)
            × ((rows : List (List Value)) → Holds self.old rows → Holds self.new rows)) }
        ensures same { (encoder_layout self.new ≡ encoder_layout self.old)
            × (encoder_schema self.new ≡ encoder_schema self.old) }
        ensures only_oom { IsOkUnless result no_memory }
    {
        if self.filled == LANES {
            self.flush()?;
        }
        self.keep(row);
        Ok(())
    }

    /// Stores a row after those that aren't in the bytes yet.
    fn keep(&mut self, row: &Row)
        requires admitted { admits_values (encoder_schema self.old).columns.items
            (values_of row.now) ≡ true }
        requires capacity { rows_in self.old < most_rows }
        requires within_limit { self.old.filled < 512 }
        ensures holds { (rows : List (List Value)) → Holds self.old rows
            → Holds self.new (rows ++ values_of row.now ∷ []) }
        ensures rows { rows_in self.new ≡ rows_in self.old + 1 }
        ensures same { (encoder_layout self.new ≡ encoder_layout self.old)
            × (encoder_schema self.new ≡ encoder_schema self.old) }
    {
        keep_row(&mut self.kept, &self.placement.schema, self.filled, row);
        self.filled += 1;
        self.rows += 1;
    }

    /// Writes the rows that aren't in the bytes yet. Errors: 801 if memory is refused; the encoder
    /// is then as it was.
    fn flush(&mut self) -> Result<(), Fault>
        requires { 0 < self.old.filled }
        ensures bytes { OnOk result ((rows : List (List Value)) → Holds self.old rows
            → IsBytesOf (encoder_layout self.old) (encoder_schema self.old)
            self.new.bytes.items rows) }
        ensures holds { OnOk result ((rows : List (List Value)) → Holds self.old rows
            → self.old.filled ≡ 512 → Holds self.new rows) }
        ensures rows { OnOk result (rows_in self.new ≡ rows_in self.old) }
        ensures empty { OnOk result (self.new.filled ≡ 0) }
        ensures refused { OnErr result (IsAsBefore self.old self.new) }
        ensures same { (encoder_layout self.new ≡ encoder_layout self.old)
            × (encoder_schema self.new ≡ encoder_schema self.old) }
        ensures only_oom { IsOkUnless result no_memory }
    {
        append(
            self.alloc,
            self.layout,
            &mut self.bytes,
            &self.placement,
            &self.kept,
        )?;
        clear_rows(&mut self.kept);
        self.filled = 0;
        Ok(())
    }

    /// Writes the rows and their number, so that the bytes are the table file of the rows that were
    /// added. Errors: 801 if memory is refused.
    fn complete(&mut self) -> Result<(), Fault>
        ensures bytes { OnOk result ((rows : List (List Value)) → Holds self.old rows
            → self.new.bytes.items
            ≡ file_bytes (encoder_layout self.old) (encoder_schema self.old) rows) }
        ensures rows { OnOk result (rows_in self.new ≡ rows_in self.old) }
        ensures same { (encoder_layout self.new ≡ encoder_layout self.old)
            × (encoder_schema self.new ≡ encoder_schema self.old) }
        ensures only_oom { IsOkUnless result no_memory }
    {
        if self.filled > 0 {
            self.flush()?;
        }
        let rows = self.rows;
        set_row_count(&mut self.bytes, rows);
        Ok(())
    }

    /// Returns the table file of the rows that were added: version 1 if every column fits it, else
    /// version 2. Errors: 801 if memory is refused.
    pub fn finish(mut self) -> Result<Vec<u8>, Fault>
        ensures bytes { IfOk result
            (λ bytes. (rows : List (List Value)) → Holds self rows
            → bytes.items ≡ file_bytes (encoder_layout self) (encoder_schema self) rows) }
        ensures only_oom { IsOkUnless result no_memory }
    {
        self.complete()?;
        Ok(self.bytes)
    }

    /// Returns the file by columns of the rows that were added. Errors: 801 if memory is refused.
    pub fn finish_by_columns(mut self) -> Result<Vec<u8>, Fault>
        ensures bytes { IfOk result
            (λ bytes. (rows : List (List Value)) → Holds self rows
            → bytes.items ≡ columnar_bytes (encoder_layout self) (encoder_schema self) rows) }
        ensures only_oom { IsOkUnless result no_memory }
    {
        self.complete()?;
        by_columns(
            self.alloc,
            self.layout,
            &self.placement,
            self.rows,
            &self.bytes,
        )
    }

    /// Returns the file of the rows that were added, by rows as [`Encoder::finish`] does or by
    /// columns. Errors: 801 if memory is refused.
    pub fn finish_in_order(self, order: FileOrder) -> Result<Vec<u8>, Fault>
        ensures bytes { IfOk result
            (λ bytes. (rows : List (List Value)) → Holds self rows
            → bytes.items ≡ bytes_in_order order (encoder_layout self) (encoder_schema self) rows) }
        ensures only_oom { IsOkUnless result no_memory }
    {
        match order {
            FileOrder::ByRows => self.finish(),
            FileOrder::ByColumns => self.finish_by_columns(),
        }
    }
}

impl RowConsumer for Encoder {
    ghost use Rattle.bw_file.specs.Encoder.{HasEncoded, encoder_schema, rows_in};

    ghost takes = { λ encoder row. admits_values (encoder_schema encoder).columns.items row };

    ghost rows = { λ encoder. rows_in encoder };

    ghost led = { HasEncoded };

    fn take(&mut self, row: &Row) -> Result<(), Fault> {
        self.add(row)
    }
}

/// Writes the number of rows into a header.
pub(crate) fn set_row_count(bytes: &mut Vec<u8>, rows: u32)
    requires { 16 ≤ length bytes.old.items }
    ensures { bytes.new.items
        ≡ take 12 bytes.old.items ++ to_le_bytes w32 rows ++ drop 16 bytes.old.items }
{
    LittleEndian::write_u32(&mut bytes[ROW_COUNT_AT..], rows);
}

/// Adds the header of an empty table.
pub(crate) fn push_header(
    bytes: &mut Vec<u8>,
    order: FileOrder,
    version: u8,
    layout: Layout,
    schema: &Schema,
) -> Result<(), Fault>
    ensures header { OnOk result (bytes.new.items ≡ bytes.old.items
        ++ header_bytes order version layout schema.now.name schema.now.columns.items 0) }
    ensures only_oom { IsOkUnless result no_memory }
{
    push_front(bytes, order, version, layout, schema.columns.len() as u16)?;
    push_name(bytes, &schema.name)?;
    push_columns(bytes, &schema.columns)
}

/// Returns the version of a table's file: 1 if every column fits it, else 2.
fn version_of(columns: &[Column]) -> u8
    ensures { result ≡ version_for columns.now }
{
    if are_narrow(columns) { 1 } else { 2 }
}

/// Returns whether every column fits version 1.
fn are_narrow(columns: &[Column]) -> bool
    ensures { result ≡ list_all (λ column. are_bounds 1 column.lo column.hi) columns.now }
{
    columns
        .iter()
        .all(|column| are_bounds(1, column.lo, column.hi))
}

/// Adds the first sixteen bytes of an empty table.
#[tactic(auto, unfolding(crate::specs::FileBytes::front_bytes))]
fn push_front(
    bytes: &mut Vec<u8>,
    order: FileOrder,
    version: u8,
    layout: Layout,
    columns: u16,
) -> Result<(), Fault>
    ensures front { OnOk result (bytes.new.items ≡ bytes.old.items
        ++ front_bytes order version layout columns 0) }
    ensures only_oom { IsOkUnless result no_memory }
{
    bytes.extend_from_slice(magic_bytes(order))?;
    bytes.push(version)?;
    bytes.push(byte_of(layout))?;
    let mut number = [0; 2];
    LittleEndian::write_u16(&mut number, columns);
    bytes.extend_from_slice(&number)?;
    bytes.extend_from_slice(&[0; 4])?;
    Ok(())
}

/// Returns the byte of a layout.
fn byte_of(layout: Layout) -> u8
    ensures { result ≡ layout_byte layout }
{
    match layout {
        Layout::Planes => 0,
        Layout::Slices => 1,
    }
}

/// Adds a name, preceded by a byte for its length.
#[tactic(auto, using(crate::proofs::EncoderLemmas::short_name))]
fn push_name(bytes: &mut Vec<u8>, name: &Name) -> Result<(), Fault>
    ensures name { OnOk result (bytes.new.items ≡ bytes.old.items ++ name_bytes name.now) }
    ensures only_oom { IsOkUnless result no_memory }
{
    let text = name.as_bytes();
    bytes.push(text.len() as u8)?;
    bytes.extend_from_slice(text)?;
    Ok(())
}

/// Adds the columns.
fn push_columns(bytes: &mut Vec<u8>, columns: &[Column]) -> Result<(), Fault>
    ensures columns { OnOk result (bytes.new.items ≡ bytes.old.items
        ++ flat_map (λ column. column_bytes column.name column.lo column.hi column.nullable)
        columns.now) }
    ensures only_oom { IsOkUnless result no_memory }
{
    for column in columns {
        push_column(bytes, column)?;
    }
    Ok(())
}

/// Adds a column.
#[tactic(auto, unfolding(crate::specs::FileBytes::column_bytes))]
fn push_column(bytes: &mut Vec<u8>, column: &Column) -> Result<(), Fault>
    ensures column { OnOk result (bytes.new.items ≡ bytes.old.items
        ++ column_bytes column.now.name column.now.lo column.now.hi column.now.nullable) }
    ensures only_oom { IsOkUnless result no_memory }
{
    push_name(bytes, &column.name)?;
    push_bound(bytes, column.lo)?;
    push_bound(bytes, column.hi)?;
    bytes.push(flag_of(column.nullable))?;
    Ok(())
}

/// Returns 1 for a nullable column, else 0.
fn flag_of(nullable: bool) -> u8
    ensures { result ≡ flag_byte nullable }
{
    if nullable { 1 } else { 0 }
}

/// Adds a bound, in two's complement.
fn push_bound(bytes: &mut Vec<u8>, bound: i64) -> Result<(), Fault>
    ensures bound { OnOk result (bytes.new.items ≡ bytes.old.items ++ bound_bytes bound) }
    ensures only_oom { IsOkUnless result no_memory }
{
    let mut number = [0; 8];
    LittleEndian::write_i64(&mut number, bound);
    bytes.extend_from_slice(&number)?;
    Ok(())
}
