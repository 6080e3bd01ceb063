//! A file by columns with other numbers in place of its codes.
ghost use Rattle.std.specs.Prelude.{◌≡◌, ◌<◌, ◌^◌, ◌≤◌, ◌+◌, ◌++◌, List, Ok, Err, false, length, map};
ghost use Rattle.std.specs.Prelude.{IfOk, IfErr, IsOkUnless, OnOk};
ghost use Rattle.bw_model.specs.Fault.{is_memory, no_memory};
ghost use Rattle.bw_model.specs.Limits.{most_rows};
ghost use Rattle.bw_model.specs.Row.{Value};
ghost use Rattle.bw_file.specs.Blocks.{form_of};
ghost use Rattle.bw_file.specs.Columnar.{bytes_in_order};
ghost use Rattle.bw_file.specs.Encoder.{Holds, encoder_layout, encoder_schema, rows_in};
ghost use Rattle.bw_memory.specs.MemoryTable.{layout_of, meaning_numbered, rows_of, schema_of};
ghost use Rattle.bw_memory.specs.MemoryTable.{segments_in};
ghost use Rattle.bw_recode.specs.ColumnarRecode.{IsColumnarRecoding, IsRecodedColumns};
ghost use Rattle.bw_recode.specs.ColumnarRecode.{IsRefusedColumns};
ghost use Rattle.bw_recode.specs.Recode.{IsReplacing, replaced_row, replacements_in};

use crate::apply::add_segment;
use crate::numbers::{Replacement, read_replacements};
use bw_file::{Encoder, FileOrder, in_layout};
use bw_io::BytesAt;
use bw_memory::{ColumnarTable, MemoryTable};
use bw_model::{Fault, Schema};
use bw_segment::CodeLayout;
use std::alloc::Global;

/// Returns the file, by rows or by columns, under the schema of a schema text and in the layout of a
/// file by columns, whose rows are those of the file by columns with each value replaced as a text
/// of numbers says. In memory are the lists of numbers and the blocks of both files.
///
/// Errors, in this order: the schema text's (106, 101 to 105); the file's header and its length (301
/// to 305, 309, 310); those of the text of numbers, as of [`crate::recode`]; and then the columns'
/// (306 to 308), of the first column that has one. 801 at any time, if memory is refused.
pub fn recode_by_columns(
    alloc: Global,
    order: FileOrder,
    table: &[u8],
    schema: &[u8],
    numbers: &[u8],
) -> Result<Vec<u8>, Fault>
    requires { length numbers.now < 2 ^ 63 }
    ensures recoded { IfOk result (λ file.
        IsColumnarRecoding order table.now schema.now numbers.now (Ok file.items)) }
    ensures refused { IfErr result (λ fault. is_memory fault ≡ false
        → IsColumnarRecoding order table.now schema.now numbers.now (Err fault)) }
{
    let schema = Schema::parse(alloc, schema)?;
    recode_under(alloc, order, table, &schema, numbers)
}

/// Returns the same under a schema. Errors: those of the file and of the text of numbers.
fn recode_under(
    alloc: Global,
    order: FileOrder,
    table: &[u8],
    schema: &Schema,
    numbers: &[u8],
) -> Result<Vec<u8>, Fault>
    requires { length numbers.now < 2 ^ 63 }
    ensures recoded { IfOk result (λ file.
        IsRecodedColumns order schema.now table.now numbers.now file.items) }
    ensures refused { IfErr result (λ fault. is_memory fault ≡ false
        → IsRefusedColumns schema.now table.now numbers.now fault) }
{
    let mut device = BytesAt::new(table);
    let mut columnar = ColumnarTable::open(alloc, &mut device)?;
    let replacements = read_replacements(
        alloc,
        &columnar.table().schema().columns,
        &schema.columns,
        numbers,
    )?;
    columnar.read_all(alloc, &mut device)?;
    encode_table(alloc, order, columnar.table(), schema, &replacements)
}

/// Returns the file of a table's rows, with their values replaced. Errors: 801 if memory is refused.
fn encode_table(
    alloc: Global,
    order: FileOrder,
    table: &MemoryTable,
    schema: &Schema,
    replacements: &[Replacement],
) -> Result<Vec<u8>, Fault>
    requires { IsReplacing (schema_of table.now).columns.items schema.now.columns.items
        (replacements_in replacements.now) }
    ensures file { IfOk result (λ file. file.items ≡ bytes_in_order order (layout_of table.now)
        schema.now (map (replaced_row (schema_of table.now).columns.items
        (replacements_in replacements.now)) (rows_of table.now))) }
    ensures only_oom { IsOkUnless result no_memory }
{
    let mut encoder = Encoder::new(alloc, table.layout(), schema)?;
    for number in 0..table.segments() {
        add_numbered(alloc, table, number, replacements, &mut encoder)?;
    }
    encoder.finish_in_order(order)
}

/// Adds the rows of a table's segment, with their values replaced. Errors: 801 if memory is refused.
#[tactic(auto, unfolding(bw_file::specs::Blocks::form_of))]
fn add_numbered(
    alloc: Global,
    table: &MemoryTable,
    number: u32,
    replacements: &[Replacement],
    encoder: &mut Encoder,
) -> Result<(), Fault>
    requires number { number < segments_in table.now }
    requires replacing { IsReplacing (schema_of table.now).columns.items
        (encoder_schema encoder.old).columns.items (replacements_in replacements.now) }
    requires capacity { rows_in encoder.old + length (meaning_numbered table.now number).rows
        ≤ most_rows }
    ensures holds { OnOk result ((rows : List (List Value)) → Holds encoder.old rows
        → Holds encoder.new (rows ++ map (replaced_row (schema_of table.now).columns.items
        (replacements_in replacements.now)) (meaning_numbered table.now number).rows)) }
    ensures rows { OnOk result (rows_in encoder.new
        ≡ rows_in encoder.old + length (meaning_numbered table.now number).rows) }
    ensures same { (encoder_layout encoder.new ≡ encoder_layout encoder.old)
        × (encoder_schema encoder.new ≡ encoder_schema encoder.old) }
    ensures only_oom { IsOkUnless result no_memory }
{
    in_layout!(
        table.layout(),
        add_in_layout::<_>(alloc, table, number, replacements, encoder)
    )
}

/// Adds the same in the table's layout. Errors: 801 if memory is refused.
fn add_in_layout<L: CodeLayout>(
    alloc: Global,
    table: &MemoryTable,
    number: u32,
    replacements: &[Replacement],
    encoder: &mut Encoder,
) -> Result<(), Fault>
    requires layout { form_of (layout_of table.now) ≡ L.packing }
    requires number { number < segments_in table.now }
    requires replacing { IsReplacing (schema_of table.now).columns.items
        (encoder_schema encoder.old).columns.items (replacements_in replacements.now) }
    requires capacity { rows_in encoder.old + length (meaning_numbered table.now number).rows
        ≤ most_rows }
    ensures holds { OnOk result ((rows : List (List Value)) → Holds encoder.old rows
        → Holds encoder.new (rows ++ map (replaced_row (schema_of table.now).columns.items
        (replacements_in replacements.now)) (meaning_numbered table.now number).rows)) }
    ensures rows { OnOk result (rows_in encoder.new
        ≡ rows_in encoder.old + length (meaning_numbered table.now number).rows) }
    ensures same { (encoder_layout encoder.new ≡ encoder_layout encoder.old)
        × (encoder_schema encoder.new ≡ encoder_schema encoder.old) }
    ensures only_oom { IsOkUnless result no_memory }
{
    let segment = table.segment::<L>(number)?;
    add_segment(alloc, &segment, replacements, encoder)
}
