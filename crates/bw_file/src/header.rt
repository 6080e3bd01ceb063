//! A table file's header, read field by field from a source.
ghost use Rattle.std.specs.Prelude.{◌≡◌, ◌+◌, ◌-◌, ◌*◌, ◌^◌, ◌<◌, ◌≤◌, [], map, length, false};
ghost use Rattle.std.specs.Prelude.{true, Ok, Err, if◌then◌else◌, OnOk, IfErr, IfOk, IsTrue, drop, ℕ, List};
ghost use Rattle.std.specs.Prelude.{◌++◌};
ghost use Rattle.std.specs.List.{list_any};
ghost use Rattle.bw_io.specs.Source.{is_read_fault};
ghost use Rattle.bw_model.specs.Fault.{is_memory};
ghost use Rattle.bw_model.specs.FaultTable.{HEADER};
ghost use Rattle.bw_model.specs.Column.{names_of};
ghost use Rattle.bw_model.specs.Limits.{most_rows};
ghost use Rattle.bw_model.specs.Name.{is_name, are_apart};
ghost use Rattle.bw_model.specs.SchemaText.{column_shape};
ghost use Rattle.bw_text.specs.Text.{same_text};
ghost use Rattle.bw_file.specs.Header.{header_shape};
ghost use Rattle.bw_file.specs.Reading.{Reads, state_at, read_field, tail};
ghost use Rattle.bw_file.specs.TableReading.{parse_name, name, column, columns, front_of, front};
ghost use Rattle.bw_file.specs.TableReading.{header_in, IsTableFault};

use crate::fields::{
    ColumnBounds, ColumnCount, Field, LayoutByte, Magic, Nullable, RowCount, Version, at_offset,
};
use crate::layout::Layout;
use crate::memory::Memory;
use crate::order::FileOrder;
use crate::take::take;
use bw_io::Source;
use bw_model::{Column, Fault, Name, Schema, code, has_name, is_name};
use std::alloc::Global;

/// Reads a field. Errors: its own, at its first byte.
fn read_field<F: Field<N>, S: Source, const N: usize>(
    field: &F,
    source: &mut S,
    offset: &mut u64,
) -> Result<F::Contents, Fault>
    requires counter_fits { (S.state source.old).failures < 2 ^ 64 - 1 }
    requires capacity { offset.old < 2 ^ 63 }
    requires small { N ≤ 16 }
    ensures reads { Reads (λ x. x) (read_field N (F.value_of field.now))
        (state_at (S.state source.old) offset.old)
        (state_at (S.state source.new) offset.new) result }
    ensures advanced { OnOk result (offset.new ≡ offset.old + N) }
    ensures valid { IfOk result F.valid }
{
    let at = *offset;
    let mut bytes = [0; N];
    take(source, offset, &mut bytes)?;
    at_offset(at, field.parse(&bytes))
}

/// Reads a name, which follows a byte for its length. Errors: 304 at that byte, if the text isn't a
/// valid name or is the name of an earlier column, ignoring case.
#[tactic(auto, unfolding(crate::specs::TableReading::parse_name))]
fn read_name<S: Source>(
    alloc: Global,
    before: &[Column],
    source: &mut S,
    offset: &mut u64,
) -> Result<Name, Fault>
    requires counter_fits { (S.state source.old).failures < 2 ^ 64 - 1 }
    requires capacity { offset.old < 2 ^ 63 }
    ensures reads { Reads (λ x. x) (name (names_of before.now))
        (state_at (S.state source.old) offset.old)
        (state_at (S.state source.new) offset.new) result }
    ensures advanced { OnOk result (offset.new ≤ offset.old + 256) }
    ensures apart { IfOk result
        (λ text. list_any (λ other. same_text other text) (names_of before.now) ≡ false) }
{
    let at = *offset;
    let mut size = [0; 1];
    take(source, offset, &mut size)?;
    let mut room = [0; 255];
    let text = &mut room[..usize::from(size[0])];
    take(source, offset, text)?;
    if !is_new_name(before, text) {
        return Err(Fault::at_byte(code::HEADER, at));
    }
    Ok(Name::new(alloc, text)?)
}

/// Returns whether the text is a valid name, and no column has it, ignoring case.
#[tactic(auto, using(crate::proofs::HeaderLemmas::list_any_names), unfolding(crate::specs::TableReading::parse_name))]
fn is_new_name(before: &[Column], text: &[u8]) -> bool
    ensures name { IsTrue result → is_name text.now ≡ true }
    ensures apart { IsTrue result
        → list_any (λ other. same_text other text.now) (names_of before.now) ≡ false }
    ensures says { parse_name (names_of before.now) text.now
        ≡ (if result then Ok text.now else Err HEADER) }
{
    is_name(text) && !has_name(before, text)
}

/// Reads a column that follows these.
#[tactic(auto, unfolding(crate::specs::TableReading::column))]
fn read_column<S: Source>(
    alloc: Global,
    version: u8,
    before: &[Column],
    source: &mut S,
    offset: &mut u64,
) -> Result<Column, Fault>
    requires counter_fits { (S.state source.old).failures < 2 ^ 64 - 1 }
    requires capacity { offset.old < 2 ^ 62 }
    ensures reads { Reads column_shape (column version (names_of before.now))
        (state_at (S.state source.old) offset.old)
        (state_at (S.state source.new) offset.new) result }
    ensures advanced { OnOk result (offset.new ≤ offset.old + 273) }
    ensures apart { IfOk result
        (λ found. list_any (λ other. same_text other found.name) (names_of before.now) ≡ false) }
{
    let name = read_name(alloc, before, source, offset)?;
    let bounds = read_field(&ColumnBounds(version), source, offset)?;
    let nullable = read_field(&Nullable, source, offset)?;
    Ok(Column {
        name,
        lo: bounds.lo,
        hi: bounds.hi,
        nullable,
    })
}
/// Reads `count` columns.
fn read_columns<S: Source>(
    alloc: Global,
    version: u8,
    count: u16,
    source: &mut S,
    offset: &mut u64,
) -> Result<Vec<Column>, Fault>
    requires counter_fits { (S.state source.old).failures < 2 ^ 64 - 1 }
    requires capacity { offset.old < 2 ^ 32 }
    ensures reads { Reads (λ found. map column_shape found.items) (columns version [] count)
        (state_at (S.state source.old) offset.old)
        (state_at (S.state source.new) offset.new) result }
    ensures advanced { OnOk result (offset.new ≤ offset.old + 273 * count) }
    ensures many { IfOk result (λ found. length found.items ≡ count) }
    ensures apart { IfOk result (λ found. are_apart (names_of found.items) ≡ true) }
{
    let mut found = Vec::new(alloc);
    for _ in 0..count {
        let column = read_column(alloc, version, &found, source, offset)?;
        found.push(column)?;
    }
    Ok(found)
}

/// The first sixteen bytes of a table file.
#[derive(Clone, Copy, PartialEq, Eq)]
struct Front {
    version: u8,
    layout: Layout,
    columns: u16,
    rows: u32,
}

fn read_front<S: Source>(order: FileOrder, source: &mut S, offset: &mut u64) -> Result<Front, Fault>
    requires counter_fits { (S.state source.old).failures < 2 ^ 64 - 1 }
    requires capacity { offset.old < 2 ^ 32 }
    ensures reads { Reads (λ found. front_of found.version found.layout found.columns found.rows)
        (front order) (state_at (S.state source.old) offset.old)
        (state_at (S.state source.new) offset.new) result }
    ensures advanced { OnOk result (offset.new ≡ offset.old + 16) }
    ensures bounds { IfOk result (λ found. (1 ≤ found.columns) × (found.columns ≤ 64)) }
    ensures within_limit { IfOk result (λ found. found.rows ≤ most_rows) }
{
    read_field(&Magic(order), source, offset)?;
    let version = read_field(&Version(order), source, offset)?;
    let layout = read_field(&LayoutByte, source, offset)?;
    let columns = read_field(&ColumnCount, source, offset)?;
    let rows = read_field(&RowCount, source, offset)?;
    Ok(Front {
        version,
        layout,
        columns,
        rows,
    })
}

/// The fields of a header.
#[derive(Drop)]
pub struct Header {
    pub version: u8,
    pub layout: Layout,
    pub rows: u32,
    pub schema: Schema,
}

/// A header, and how many bytes it has.
#[derive(Drop)]
pub struct ParsedHeader {
    pub header: Header,
    pub size: u64,
}

/// Reads the header that bytes begin with, that of a file in this order, whatever follows them. No
/// header has over 20,000 bytes. Errors, each at the first byte of its field: 301 to 304 and 310; 305 at the end of the
/// bytes; 801 if memory is refused.
pub fn parse_header(alloc: Global, order: FileOrder, bytes: &[u8]) -> Result<ParsedHeader, Fault>
    ensures parsed { IfOk result (λ found. (rest : List ℕ)
        → header_in order (tail 0 (bytes.now ++ rest)) ≡ Ok (
          header_shape found.header,
          tail found.size (drop found.size (bytes.now ++ rest)),
        )) }
    ensures within_limit { IfOk result (λ found. found.header.rows ≤ most_rows) }
    ensures short { IfOk result (λ found. found.size ≤ 20000) }
    ensures refused { IfErr result (λ fault. is_memory fault ≡ false
        → header_in order (tail 0 bytes.now) ≡ Err fault) }
    ensures fault { IfErr result IsTableFault }
    ensures unread { IfErr result (λ fault. is_read_fault fault ≡ false) }
{
    let mut source = Memory::new(bytes);
    let mut offset = 0;
    let header = read_header(alloc, order, &mut source, &mut offset)?;
    Ok(ParsedHeader {
        header,
        size: offset,
    })
}

/// Reads the header of a file in this order from its first byte. Errors, each at the first byte of its
/// field: 301 to 304 and 310. 305 is at the end of the file; 701 if a read fails, 801 if memory is
/// refused.
pub(crate) fn read_header<S: Source>(
    alloc: Global,
    order: FileOrder,
    source: &mut S,
    offset: &mut u64,
) -> Result<Header, Fault>
    requires counter_fits { (S.state source.old).failures < 2 ^ 64 - 1 }
    requires capacity { offset.old < 2 ^ 31 }
    ensures reads { Reads header_shape (header_in order) (state_at (S.state source.old) offset.old)
        (state_at (S.state source.new) offset.new) result }
    ensures advanced { OnOk result (offset.new ≤ offset.old + 20000) }
    ensures within_limit { IfOk result (λ found. found.rows ≤ most_rows) }
{
    let front = read_front(order, source, offset)?;
    let name = read_name(alloc, &[], source, offset)?;
    let columns = read_columns(alloc, front.version, front.columns, source, offset)?;
    Ok(Header {
        version: front.version,
        layout: front.layout,
        rows: front.rows,
        schema: Schema { name, columns },
    })
}
