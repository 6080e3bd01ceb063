//! A table file with other numbers in place of its codes.
ghost use Rattle.std.specs.Prelude.{◌≡◌, ◌<◌, ◌^◌, [], ℕ, List, None, Ok, Err, length, false};
ghost use Rattle.std.specs.Prelude.{IfOk, IfErr};
ghost use Rattle.bw_model.specs.Fault.{is_memory};
ghost use Rattle.bw_file.specs.Memory.{memory_state};
ghost use Rattle.bw_file.specs.Reading.{state_at};
ghost use Rattle.bw_file.specs.TableReader.{ReadProgress, bytes_taken, final_result};
ghost use Rattle.bw_file.specs.TableReader.{rows_given, schema_in};
ghost use Rattle.bw_recode.specs.Recode.{IsEncoded, IsRecodedUnder, IsRecoding, IsRefusedUnder};
ghost use Rattle.bw_recode.specs.Recode.{IsReplacing, replacements_in, start_of};
ghost use Rattle.bw_file.specs.TableReading.{IsReadAs};

use crate::apply::add_segment;
use crate::numbers::{Replacement, read_replacements};
use bw_file::{Encoder, FileOrder, Memory, TableReader};
use bw_model::{Fault, Schema};
use std::alloc::Global;

/// Returns the file, by rows or by columns, under the schema of a schema text and in the layout of a
/// table file, whose rows are those of the table file with each value replaced as a text of numbers
/// says. In memory are the lists of numbers, the file's bytes, and one segment; by columns also the
/// blocks of all segments.
///
/// Errors, in this order: the schema text's (106, 101 to 105); the table's header (301 to 305, 310);
/// the text of numbers, at the number of a line: 203, if a column or a list of its codes lacks lines,
/// or other lines are there; 206, if a column that may have nulls becomes one that may not, or a
/// list has a null that may not be; 205, if a number is outside the new column's bounds, or numbers
/// of a column that is kept may be; 204, if a line is no number; and then the table's segments (305
/// to 309). 801 at any time, if memory is refused.
pub fn recode(
    alloc: Global,
    order: FileOrder,
    table: &[u8],
    schema: &[u8],
    numbers: &[u8],
) -> Result<Vec<u8>, Fault>
    requires { length numbers.now < 2 ^ 63 }
    ensures recoded { IfOk result (λ file.
        IsRecoding order table.now schema.now numbers.now (Ok file.items)) }
    ensures refused { IfErr result (λ fault. is_memory fault ≡ false
        → IsRecoding order table.now schema.now numbers.now (Err fault)) }
{
    let schema = Schema::parse(alloc, schema)?;
    recode_under(alloc, order, table, &schema, numbers)
}

/// Returns the same under a schema. Errors: those of the table and of the text of numbers.
fn recode_under(
    alloc: Global,
    order: FileOrder,
    table: &[u8],
    schema: &Schema,
    numbers: &[u8],
) -> Result<Vec<u8>, Fault>
    requires { length numbers.now < 2 ^ 63 }
    ensures recoded { IfOk result (λ file. IsRecodedUnder order schema.now table.now numbers.now
        file.items) }
    ensures refused { IfErr result (λ fault. is_memory fault ≡ false
        → IsRefusedUnder schema.now table.now numbers.now fault) }
{
    let mut source = Memory::new(table);
    let mut reader = TableReader::begin(alloc, &mut source)?;
    let replacements = read_replacements(
        alloc,
        &reader.schema().columns,
        &schema.columns,
        numbers,
    )?;
    encode_rest(
        alloc,
        order,
        &mut source,
        &mut reader,
        schema,
        &replacements,
    )
}

/// Returns the file of the rows of a reader that has returned none, with their values
/// replaced. Errors: those of the table's segments.
fn encode_rest(
    alloc: Global,
    order: FileOrder,
    source: &mut Memory<'_>,
    reader: &mut TableReader,
    schema: &Schema,
    replacements: &[Replacement],
) -> Result<Vec<u8>, Fault>
    requires replacing { IsReplacing (schema_in reader.old).columns.items schema.now.columns.items
        (replacements_in replacements.now) }
    requires open { final_result reader.old ≡ None }
    requires fresh { rows_given reader.old ≡ 0 }
    ensures file { IfOk result (λ file. (table : List ℕ) → ReadProgress (start_of table)
        (state_at (memory_state source.old) (bytes_taken reader.old)) reader.old []
        → IsEncoded order table reader.old schema.now (replacements_in replacements.now) file.items) }
    ensures refused { IfErr result (λ fault. is_memory fault ≡ false → (table : List ℕ)
        → ReadProgress (start_of table)
        (state_at (memory_state source.old) (bytes_taken reader.old)) reader.old []
        → IsReadAs table (Err fault)) }
{
    let mut encoder = Encoder::new(alloc, reader.layout(), schema)?;
    while let Some(segment) = reader.next_segment(source)? {
        add_segment(alloc, &segment, replacements, &mut encoder)?;
    }
    encoder.finish_in_order(order)
}
