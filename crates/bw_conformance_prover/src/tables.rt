//! Tables, numbers, and rows.
ghost use Rattle.std.specs.Prelude.{◌<◌};

use bw_model::{Row, Schema, Value};
use std::alloc::Global;
use std::test::Fail;

/// A table of 336 rows that differ: two columns of one minimum, of which one takes null, and a
/// third column. The bit patterns of all but the third spell more codes than they have.
pub(crate) const SMALL: &str = "\
    TABLE t\n\
    COLUMN a 0 11 NOT NULL\n\
    COLUMN b 0 5\n\
    COLUMN c -2 1 NOT NULL\n\
    ";

/// Columns of up to three bytes, two of which take null.
pub(crate) const WIDE: &str = "\
    TABLE t\n\
    COLUMN a 0 255 NOT NULL\n\
    COLUMN b 0 1048575\n\
    COLUMN c -10 600 NOT NULL\n\
    COLUMN d 0 70000\n\
    ";

/// A source of pseudo-random numbers, the same in every run.
#[derive(Drop)]
pub(crate) struct NumberSource(u64);

impl NumberSource {
    pub(crate) fn new(seed: u64) -> Self {
        NumberSource(seed | 1)
    }

    /// Returns a number below a limit, or 0 if the limit is 0.
    pub(crate) fn below(&mut self, limit: u64) -> u64
        ensures { 0 < limit → result < limit }
    {
        let mut x = self.0;
        x ^= x << 13;
        x ^= x >> 7;
        x ^= x << 17;
        self.0 = x;
        if limit == 0 { 0 } else { (x >> 11) % limit }
    }
}

/// Adds a row.
fn push_row(alloc: Global, rows: &mut Vec<Row>, values: &[Value]) -> Result<(), Fail> {
    let values = Vec::from_slice(alloc, values)?;
    rows.push(Row { values })?;
    Ok(())
}

/// Returns all rows of the small table.
pub(crate) fn small_rows(alloc: Global) -> Result<Vec<Row>, Fail> {
    let mut rows = Vec::new(alloc);
    for a in 0..12i64 {
        for b in 0..7i64 {
            for c in -2..2i64 {
                let b = if b == 6 { None } else { Some(b) };
                push_row(alloc, &mut rows, &[Some(a), b, Some(c)])?;
            }
        }
    }
    Ok(rows)
}

/// Returns 512 rows of the wide table.
pub(crate) fn wide_rows(alloc: Global, numbers: &mut NumberSource) -> Result<Vec<Row>, Fail> {
    let mut rows = Vec::new(alloc);
    for _ in 0..512 {
        let a = number_up_to(numbers, 255);
        let b = number_up_to(numbers, 1_048_575);
        let c = number_up_to(numbers, 600);
        let d = number_up_to(numbers, 70_000);
        let b = if numbers.below(6) == 0 { None } else { Some(b) };
        let d = if numbers.below(6) == 0 { None } else { Some(d) };
        push_row(alloc, &mut rows, &[Some(a), b, Some(c), d])?;
    }
    Ok(rows)
}

/// Returns a number up to a greatest one, often a small one.
fn number_up_to(numbers: &mut NumberSource, most: u64) -> i64 {
    let limit = match numbers.below(3) {
        0 => 9,
        1 => 256,
        _ => most,
    };
    let number = numbers.below(limit.min(most));
    i64::try_from(number).unwrap_or(0)
}

/// Returns the table of a text.
pub(crate) fn table(alloc: Global, text: &str) -> Result<Schema, Fail> {
    Ok(Schema::parse(alloc, text.as_bytes())?)
}
