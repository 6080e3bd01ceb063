//! Rows on which a program is tried: of values at and beside the literals of a condition and the
//! numbers of a program, and of null.
ghost use Rattle.std.specs.Prelude.{◌≤◌};

use crate::claim::Claim;
use bw_lanes::LANES;
use bw_model::{Column, Cond, Operand, Row, Value};
use bw_program::{Instr, Program};
use indexmap::IndexSet;
use std::alloc::{AllocError, Global};

/// All combinations of values are tried if they are at most so many. A column has at most so many
/// values besides its bounds and null: no statement has room for literals that need more.
const MOST_ROWS: u64 = 1 << 16;

/// So many rows are drawn, besides.
const DRAWN_ROWS: u64 = 4 * LANES as u64;

/// So many values of a column are also tried of one that is compared with it.
const MOST_SHARED: usize = 32;

/// The values of a column, each once, those of a condition first.
#[derive(Drop)]
struct Values {
    lo: i64,
    hi: i64,
    of: IndexSet<Value>,
    /// Whether the condition or the program reads the column.
    is_read: bool,
}

impl Values {
    /// Returns no values of a column.
    fn new(alloc: Global, column: &Column) -> Self {
        Values {
            lo: column.lo,
            hi: column.hi,
            of: IndexSet::new(alloc),
            is_read: false,
        }
    }

    /// Adds a number and its neighbours, those that the column can have, unless it has the most.
    fn add(&mut self, number: i64) -> Result<(), AllocError> {
        self.is_read = true;
        if self.of.len() as u64 >= MOST_ROWS {
            return Ok(());
        }
        for near in [number, number.saturating_sub(1), number.saturating_add(1)] {
            if self.lo <= near && near <= self.hi {
                self.of.insert(Some(near))?;
            }
        }
        Ok(())
    }

    /// Adds the first and the last values, and null, if the column may be null; the first alone, if
    /// the column isn't read.
    fn add_bounds(&mut self, is_nullable: bool) -> Result<(), AllocError> {
        self.of.insert(Some(self.lo))?;
        if self.is_read {
            self.of.insert(Some(self.hi))?;
        }
        if self.is_read && is_nullable {
            self.of.insert(None)?;
        }
        Ok(())
    }

    /// Adds the value of a code, and its neighbours.
    fn add_code(&mut self, code: u64) -> Result<(), AllocError> {
        self.is_read = true;
        match self.lo.checked_add_unsigned(code) {
            Some(value) => self.add(value),
            None => Ok(()),
        }
    }
}

/// How the values of a row are chosen: the next combination of them, or by chance.
#[derive(Clone, Copy)]
enum Choice {
    Next,
    Drawn,
}

/// Segments of rows, the next one of which is made by a count and by drawn numbers, which are the
/// same in each call.
#[derive(Drop)]
pub(crate) struct Samples {
    alloc: Global,
    columns: Vec<Values>,
    /// How many combinations of values are to be made, all or none, and which column has the most
    /// values.
    combinations: u64,
    widest: usize,
    /// How many rows are made, and the last number that was drawn.
    count: u64,
    drawn: u64,
}

impl Samples {
    /// Returns samples for a program and its condition.
    pub(crate) fn new(alloc: Global, claim: &Claim<'_>) -> Result<Self, AllocError> {
        let mut samples = Samples {
            alloc,
            columns: Vec::new(alloc),
            combinations: 0,
            widest: 0,
            count: 0,
            drawn: 1,
        };
        for column in &claim.schema.columns {
            samples.columns.push(Values::new(alloc, column))?;
        }
        // twice: the values of a column that is compared with another are added to that
        samples.read(claim.cond)?;
        samples.read(claim.cond)?;
        samples.read_program(claim.program)?;
        for (number, column) in claim.schema.columns.iter().enumerate() {
            if let Some(values) = samples.columns.get_mut(number) {
                values.add_bounds(column.nullable)?;
            }
        }
        samples.measure();
        Ok(samples)
    }

    /// Finds how many combinations are to be made, and the column with the most values.
    fn measure(&mut self) {
        let (mut count, mut most) = (1u64, 0);
        for (number, values) in self.columns.iter().enumerate() {
            count = count.saturating_mul(values.of.len() as u64);
            if values.of.len() > most {
                (self.widest, most) = (number, values.of.len());
            }
        }
        self.combinations = if count <= MOST_ROWS { count } else { 0 };
    }

    /// Returns how many segments there are: of all combinations, if they are few, or else of all
    /// values of a column, and of drawn rows.
    pub(crate) fn segments(&self) -> u64 {
        let values = self
            .columns
            .get(self.widest)
            .map_or(0, |found| found.of.len() as u64);
        (self.combinations.max(values).min(MOST_ROWS) + DRAWN_ROWS) / LANES as u64 + 1
    }

    /// Adds the values of a condition's comparisons.
    #[cycle(read)]
    fn read(&mut self, cond: &Cond) -> Result<(), AllocError> {
        match cond {
            Cond::Cmp(_, x, y) => self.compare(*x, *y)?,
            Cond::Between(x, y, z) => {
                self.compare(*x, *y)?;
                self.compare(*x, *z)?;
            }
            Cond::Among(x, items) => {
                for item in items {
                    self.compare(*x, *item)?;
                }
            }
            Cond::And(parts) | Cond::Or(parts) => {
                for part in parts {
                    self.read(part)?;
                }
            }
            Cond::Not(part) | Cond::Test(part, _) => self.read(part)?,
            Cond::IsNull(Operand::Col(column)) => self.note(*column),
            Cond::Always | Cond::IsNull(_) => {}
        }
        Ok(())
    }

    /// Adds the values of a comparison.
    fn compare(&mut self, x: Operand, y: Operand) -> Result<(), AllocError> {
        match (x, y) {
            (Operand::Col(c), Operand::Lit(n)) | (Operand::Lit(n), Operand::Col(c)) => {
                self.add(c, n)?;
            }
            (Operand::Col(c), Operand::Col(d)) => {
                self.share(c, d)?;
                self.share(d, c)?;
            }
            _ => {}
        }
        Ok(())
    }

    /// Notes that a column is read.
    fn note(&mut self, column: usize) {
        if let Some(values) = self.columns.get_mut(column) {
            values.is_read = true;
        }
    }

    /// Adds a literal to a column's values.
    fn add(&mut self, column: usize, number: i64) -> Result<(), AllocError> {
        match self.columns.get_mut(column) {
            Some(values) => values.add(number),
            None => Ok(()),
        }
    }

    /// Adds a column's first values and its bounds to another's.
    fn share(&mut self, from: usize, to: usize) -> Result<(), AllocError> {
        for place in 0..MOST_SHARED {
            let Some(values) = self.columns.get(from) else {
                return Ok(());
            };
            let number = match (place, values.of.get_index(place.wrapping_sub(2))) {
                (0, _) => values.lo,
                (1, _) => values.hi,
                (_, Some(Some(number))) => *number,
                _ => return Ok(()),
            };
            self.add(to, number)?;
        }
        Ok(())
    }

    /// Adds the values of the bits and bytes that a program reads. The bytes of one column that
    /// follow one another are also those of one number.
    fn read_program(&mut self, program: &Program) -> Result<(), AllocError> {
        let mut codes = [0u64; 64];
        for number in 0..program.len() {
            match program.instr(number) {
                Instr::Load(_, column, bit) => self.add_code(column.into(), 1 << (bit % 64))?,
                Instr::ByteLt(_, column, slice, byte) | Instr::ByteEq(_, column, slice, byte) => {
                    let (last, place) = (codes[usize::from(column % 64)], 8 * (slice % 8));
                    let code = last & !(255 << place) | u64::from(byte) << place;
                    codes[usize::from(column % 64)] = code;
                    self.add_code(column.into(), code)?;
                    self.add_bytes(column.into(), byte, place)?;
                }
                Instr::Nulls(_, column) => self.note(column.into()),
                _ => {}
            }
        }
        Ok(())
    }

    /// Adds the codes of a byte of a column, and of the bytes beside it, which are followed by so
    /// many bits of 0.
    fn add_bytes(&mut self, column: usize, byte: u8, place: u8) -> Result<(), AllocError>
        requires { place ≤ 56 }
    {
        for near in [byte, byte.wrapping_sub(1), byte.wrapping_add(1)] {
            self.add_code(column, u64::from(near) << place)?;
        }
        Ok(())
    }

    /// Adds the value of a code to a column's values.
    fn add_code(&mut self, column: usize, code: u64) -> Result<(), AllocError> {
        match self.columns.get_mut(column) {
            Some(values) => values.add_code(code),
            None => Ok(()),
        }
    }

    /// Returns the rows of the next segment: all combinations, one after another, and then drawn ones,
    /// of which some are as a row of `bases` in most columns.
    pub(crate) fn next(&mut self, bases: [Option<&Row>; 2]) -> Result<Vec<Row>, AllocError> {
        let mut rows = Vec::new(self.alloc);
        for _ in 0..LANES {
            let chance = self.draw() % 3;
            let row = if self.count < self.combinations {
                self.row(None, Choice::Next)?
            } else {
                let base = bases.get(chance as usize).copied().flatten();
                self.row(base, Choice::Drawn)?
            };
            rows.push(row)?;
            self.count = self.count.wrapping_add(1);
        }
        Ok(rows)
    }

    /// Returns a row: the next combination, or a drawn one, three of four values of which are those
    /// of the base, if there is one. Drawn ones have the values of the widest column in turn.
    fn row(&mut self, base: Option<&Row>, choice: Choice) -> Result<Row, AllocError> {
        let mut row = Vec::new(self.alloc);
        let mut rest = self.count;
        for column in 0..self.columns.len() {
            let drawn = self.draw();
            let own = base.and_then(|base| base.values.get(column).copied());
            let values = self
                .columns
                .get(column)
                .map_or(&[] as &[Value], |found| found.of.as_slice());
            let count = (values.len() as u64).max(1);
            let place = match choice {
                Choice::Next => rest,
                Choice::Drawn if column == self.widest => self.count,
                Choice::Drawn => drawn / 4,
            } % count;
            rest /= count;
            let other = values.get(place as usize).copied().flatten();
            row.push(if drawn % 4 > 0 {
                own.unwrap_or(other)
            } else {
                other
            })?;
        }
        Ok(Row { values: row })
    }

    /// Returns a number that looks as if it were drawn (Knuth, The Art of Computer Programming,
    /// 3.3.4).
    fn draw(&mut self) -> u64 {
        let next = self.drawn.wrapping_mul(6_364_136_223_846_793_005);
        self.drawn = next.wrapping_add(1_442_695_040_888_963_407);
        self.drawn >> 33
    }
}
