//! Table files worked out byte by byte, and their tables.
ghost use Rattle.std.specs.Prelude.{map};
ghost use Rattle.bw_file.specs.FileBytes.{AreRows};
ghost use Rattle.bw_model.specs.Row.{values_of};

use bw_file::{Layout, Table, decode, encode};
use bw_model::{Fault, Row, Schema, Value};
use std::alloc::Global;
use std::process::Abort;
use std::test::Fail;

/// A table with a column from 0 to 255 and a nullable one from -10 to 10.
const SCHEMA: &[u8] = b"TABLE t\nCOLUMN a 0 255 NOT NULL\nCOLUMN b -10 10\n";

/// Five rows of it.
const ROWS: [[Value; 2]; 5] = [
    [Some(0), Some(-10)],
    [Some(255), Some(10)],
    [Some(7), None],
    [Some(7), None],
    [Some(8), Some(0)],
];

/// The header of their file in planes.
const HEADER: [u8; 56] = [
    0x42, 0x57, 0x43, 0x4F, 0x4C, 0x55, 0x4D, 0x4E, 0x01, 0x00, 0x02, 0x00, 0x05, 0x00, 0x00, 0x00,
    0x01, 0x74, 0x01, 0x61, 0x00, 0x00, 0x00, 0x00, 0x00, 0x00, 0x00, 0x00, 0xFF, 0x00, 0x00, 0x00,
    0x00, 0x00, 0x00, 0x00, 0x00, 0x01, 0x62, 0xF6, 0xFF, 0xFF, 0xFF, 0xFF, 0xFF, 0xFF, 0xFF, 0x0A,
    0x00, 0x00, 0x00, 0x00, 0x00, 0x00, 0x00, 0x01,
];

/// The first byte of each plane; the others are 0.
const PLANES: [u8; 14] = [
    0x02, 0x02, 0x02, 0x02, 0x12, 0x0E, 0x0E, 0x0E, 0x0C, 0x02, 0x10, 0x02, 0x10, 0x00,
];

/// Returns a file of this many bytes: these after a header, and zeros elsewhere.
fn file(alloc: Global, layout: u8, len: usize, parts: &[(usize, u8)]) -> Result<Vec<u8>, Fail> {
    let mut bytes = Vec::from_slice(alloc, &HEADER)?;
    bytes.resize(len, 0)?;
    put(&mut bytes, 9, layout);
    for (at, byte) in parts {
        put(&mut bytes, *at, *byte);
    }
    Ok(bytes)
}

/// Changes a byte, if there is one.
pub(crate) fn put(bytes: &mut Vec<u8>, at: usize, byte: u8) {
    if at < bytes.len() {
        bytes[at] = byte;
    }
}

/// Returns the five rows' file in planes: 952 bytes.
pub(crate) fn planes_file(alloc: Global) -> Result<Vec<u8>, Fail> {
    let mut bytes = file(alloc, 0, 952, &[])?;
    for (i, byte) in PLANES.iter().enumerate() {
        put(&mut bytes, 56 + 64 * i, *byte);
    }
    Ok(bytes)
}

/// Returns the five rows' file in slices: 1,144 bytes.
pub(crate) fn slices_file(alloc: Global) -> Result<Vec<u8>, Fail> {
    let parts = [
        (57, 0xFF),
        (58, 0x07),
        (59, 0x07),
        (60, 0x08),
        (568, 0x0C),
        (633, 0x14),
        (636, 0x0A),
    ];
    file(alloc, 1, 1144, &parts)
}

/// Returns the file of a nullable column of 63 bits, with its maximum twice and a null.
pub(crate) fn wide_file(rt: &(impl Abort + AllocGlobal), layout: Layout) -> Result<Vec<u8>, Fail> {
    let schema = b"TABLE g\nCOLUMN x 0 9223372036854775807\n";
    file_of(
        rt,
        layout,
        schema,
        &[[Some(i64::MAX)], [Some(i64::MAX)], [None]],
    )
}

/// Returns the file of a column of 11 bits, in which row i has i, of this many rows.
pub(crate) fn long_file(
    rt: &(impl Abort + AllocGlobal),
    layout: Layout,
    count: i64,
) -> Result<Vec<u8>, Fail> {
    let mut table = Vec::new(rt.alloc());
    for number in 0..count {
        table.push([Some(number)])?;
    }
    file_of(rt, layout, b"TABLE l\nCOLUMN x 0 2000 NOT NULL\n", &table)
}

/// Returns the five rows' files and the wide column's, in planes and in slices.
pub(crate) fn worked_files(rt: &(impl Abort + AllocGlobal)) -> Result<Vec<Vec<u8>>, Fail> {
    let files = vec![in rt.alloc();
        planes_file(rt.alloc())?,
        slices_file(rt.alloc())?,
        wide_file(rt, Layout::Planes)?,
        wide_file(rt, Layout::Slices)?,
    ]?;
    Ok(files)
}

/// Ends the test if the schema doesn't admit the rows, or if there are too many.
fn assert_rows(rt: &impl Abort, schema: &Schema, rows: &[Row])
    ensures { AreRows schema.now.columns.items (map values_of rows.now) }
{
    assert!(rt; rows.len() <= 16_777_216);
    for row in rows {
        assert!(rt; schema.admits(row), "{:?}", row.values);
    }
}

/// Returns the file of a table with rows of these values.
fn file_of<const N: usize>(
    rt: &(impl Abort + AllocGlobal),
    layout: Layout,
    schema: &[u8],
    table: &[[Value; N]],
) -> Result<Vec<u8>, Fail> {
    let schema = Schema::parse(rt.alloc(), schema)?;
    let mut rows = Vec::new(rt.alloc());
    for values in table {
        let values = Vec::from_slice(rt.alloc(), values.as_slice())?;
        rows.push(Row { values })?;
    }
    assert_rows(rt, &schema, &rows);
    Ok(encode(rt.alloc(), layout, &schema, &rows)?)
}

/// Returns the same file again for a table that was read.
pub(crate) fn again(rt: &impl Abort, alloc: Global, table: &Table) -> Result<Vec<u8>, Fault> {
    assert_rows(rt, &table.schema, &table.rows);
    encode(alloc, table.layout, &table.schema, &table.rows)
}

#[test]
fn five_rows_are_written_and_read(rt: HostRuntime) -> Result<(), Fail> {
    let alloc = rt.alloc();
    for (layout, file) in [
        (Layout::Planes, planes_file(alloc)?),
        (Layout::Slices, slices_file(alloc)?),
    ] {
        let written = file_of(&rt, layout, SCHEMA, &ROWS)?;
        assert_eq!(rt; written.as_slice(), file.as_slice());
        let table = decode(alloc, &file)?;
        assert_eq!(rt; table.rows.len(), 5);
        for (row, values) in table.rows.iter().zip(&ROWS) {
            assert_eq!(rt; row.values.as_slice(), values.as_slice());
        }
        assert_eq!(rt; again(&rt, alloc, &table)?.as_slice(), file.as_slice());
    }
    Ok(())
}
