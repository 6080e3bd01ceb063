//! Runs of a program on sets of a segment's rows, by each way that its skips can take.
use crate::claim::Claim;
use bw_lanes::{LANES, Plane, and, is_zero, lane, mask, not, or, xor};
use bw_model::{Row, Truth};
use bw_planes::PlaneSegment;
use bw_program::{Instr, Program, Register};
use bw_run::{Registers, registers};
use bw_segment::Segment;
use std::alloc::{AllocError, Global};

/// The runs on sets of rows of a segment execute at most so many instructions, and those of one run.
/// Besides, each row is run alone, and, if the program is found wrong, beside one: all in all the
/// work grows as the program does.
const INSTRUCTIONS: usize = 1 << 17;

/// A set of rows, and the place from which on skips are to be taken by a part of it.
#[derive(Clone, Copy)]
struct RowSet {
    rows: Plane,
    from: usize,
}

impl RowSet {
    /// Returns a set of rows, of which no parts are to be found.
    fn whole(rows: Plane) -> Self {
        let from = usize::MAX;
        RowSet { rows, from }
    }
}

/// A program and a segment, and on which rows the condition is TRUE.
#[derive(Clone, Copy)]
pub(crate) struct Trial<'a> {
    program: &'a Program,
    segment: &'a PlaneSegment,
    wanted: Plane,
}

/// Returns which rows of a segment show a program wrong, the one that it gets wrong first: one row
/// alone, or a few, or none if none do. First all rows are tried together, and those on which a
/// skip is taken, on which then another one is, and so on; then each row alone.
pub(crate) fn wrong_rows(
    alloc: Global,
    claim: &Claim<'_>,
    segment: &PlaneSegment,
    rows: &[Row],
) -> Result<Vec<usize>, AllocError> {
    let mut wanted = mask(0);
    for (place, row) in rows.iter().enumerate() {
        if claim.truth_on(row) == Some(Truth::Yes) {
            wanted = or(&wanted, &set_of(place));
        }
    }
    let trial = Trial {
        program: claim.program,
        segment,
        wanted,
    };
    trial.wrong_rows(alloc)
}

impl Trial<'_> {
    /// Returns rows on which the program is wrong, as the function of this name does.
    fn wrong_rows(self, alloc: Global) -> Result<Vec<usize>, AllocError> {
        let (mut parts, mut beside) = (Vec::new(alloc), mask(0));
        parts.push(RowSet {
            rows: self.all_rows(),
            from: 0,
        })?;
        let runs = INSTRUCTIONS / (self.program.len() + 1) + 1;
        for number in 0..runs {
            let Some(part) = parts.get(number).copied() else {
                break;
            };
            let part = if parts.len() < runs {
                part
            } else {
                RowSet::whole(part.rows)
            };
            let wrong = self.run(part, &mut parts, &mut beside)?;
            if !is_zero(&wrong) {
                return self.fewest(alloc, &part.rows, &wrong);
            }
        }
        let all = self.all_rows();
        for place in 0..LANES {
            if lane(&all, place) && self.is_wrong(alloc, place, &mask(0))? {
                return Ok(Vec::from_slice(alloc, &[place])?);
            }
        }
        Ok(Vec::new(alloc))
    }

    /// Returns the set of all rows.
    #[tactic(auto, unfolding(bw_model::specs::Groups::group_size))]
    fn all_rows(self) -> Plane {
        mask(self.segment.rows_in())
    }

    /// Returns a row that the program gets wrong alone, or one that it gets wrong and one beside it;
    /// or else with as many beside it as make the skips those that all of these rows do.
    fn fewest(self, alloc: Global, rows: &Plane, wrong: &Plane) -> Result<Vec<usize>, AllocError> {
        for place in 0..LANES {
            if lane(wrong, place) && self.is_wrong(alloc, place, &mask(0))? {
                return Ok(Vec::from_slice(alloc, &[place])?);
            }
        }
        let first = first_of(wrong);
        for place in 0..LANES {
            if lane(rows, place) && self.is_wrong(alloc, first, &set_of(place))? {
                return Ok(Vec::from_slice(alloc, &[first, place])?);
            }
        }
        let mut beside = set_of(first);
        self.run(RowSet::whole(*rows), &mut Vec::new(alloc), &mut beside)?;
        let mut places = Vec::from_slice(alloc, &[first])?;
        for place in 0..LANES {
            if lane(&beside, place) && place != first {
                places.push(place)?;
            }
        }
        Ok(places)
    }

    /// Returns whether the program is wrong on a row beside others.
    fn is_wrong(self, alloc: Global, place: usize, beside: &Plane) -> Result<bool, AllocError> {
        let row = set_of(place);
        let part = RowSet::whole(or(&row, beside));
        let wrong = self.run(part, &mut Vec::new(alloc), &mut mask(0))?;
        Ok(!is_zero(&and(&wrong, &row)))
    }

    /// Runs the program on a set of rows, and returns those that it gets wrong. Appends the rows on
    /// which a skip would be taken, if there are some and it isn't, and adds to `beside` one of those
    /// on which it isn't, if that has none.
    fn run(
        self,
        part: RowSet,
        parts: &mut Vec<RowSet>,
        beside: &mut Plane,
    ) -> Result<Plane, AllocError> {
        let mut registers = registers();
        let mut next = 0;
        for number in 0..self.program.len() {
            if number < next {
                continue;
            }
            let instr = self.program.instr(number);
            let Instr::Skip(tested, target) = instr else {
                let (register, plane) = self.effect(&registers, instr);
                registers[usize::from(register % 64)] = plane;
                continue;
            };
            let ones = and(plane_in(&registers, tested), &part.rows);
            if is_zero(&ones) {
                next = target;
                continue;
            }
            if is_zero(&and(&ones, beside)) {
                *beside = or(beside, &set_of(first_of(&ones)));
            }
            let rows = xor(&ones, &part.rows);
            if number >= part.from && !is_zero(&rows) {
                let from = number + 1;
                parts.push(RowSet { rows, from })?;
            }
        }
        let result = plane_in(&registers, self.program.result());
        Ok(and(&xor(result, &self.wanted), &part.rows))
    }

    /// Returns the register that an instruction writes, and its plane. A skip writes none.
    fn effect(self, registers: &Registers, instr: Instr) -> (Register, Plane) {
        match instr {
            Instr::And(r, x, y) => (r, and(plane_in(registers, x), plane_in(registers, y))),
            Instr::Or(r, x, y) => (r, or(plane_in(registers, x), plane_in(registers, y))),
            Instr::Xor(r, x, y) => (r, xor(plane_in(registers, x), plane_in(registers, y))),
            Instr::Not(r, x) => (r, not(plane_in(registers, x))),
            Instr::Fill(r, false) => (r, mask(0)),
            Instr::Fill(r, true) => (r, not(&mask(0))),
            Instr::Load(r, column, bit) => (r, self.bit(column.into(), bit.into())),
            Instr::Nulls(r, column) => (r, self.nulls(column.into())),
            Instr::ByteLt(r, column, slice, byte) => {
                (r, self.byte_lt(column.into(), slice.into(), byte))
            }
            Instr::ByteEq(r, column, slice, byte) => {
                (r, self.byte_eq(column.into(), slice.into(), byte))
            }
            Instr::Skip(..) => (0, *plane_in(registers, 0)),
        }
    }

    /// Returns a bit of a column, if the segment has it.
    fn bit(self, column: usize, bit: u32) -> Plane {
        let schema = self.segment.schema();
        if column < schema.columns.len() && bit < schema.width(column) {
            self.segment.bit(column, bit)
        } else {
            mask(0)
        }
    }

    /// Returns where a column is null, if the segment has it.
    fn nulls(self, column: usize) -> Plane {
        if column < self.segment.schema().columns.len() {
            self.segment.nulls(column)
        } else {
            mask(0)
        }
    }

    /// Returns where a byte of a column is less than a number, if the segment has it.
    fn byte_lt(self, column: usize, slice: usize, byte: u8) -> Plane {
        let schema = self.segment.schema();
        if column < schema.columns.len() && slice < schema.slices(column) {
            self.segment.byte_lt(column, slice, byte)
        } else {
            mask(0)
        }
    }

    /// Returns where a byte of a column is a number, if the segment has it.
    fn byte_eq(self, column: usize, slice: usize, byte: u8) -> Plane {
        let schema = self.segment.schema();
        if column < schema.columns.len() && slice < schema.slices(column) {
            self.segment.byte_eq(column, slice, byte)
        } else {
            mask(0)
        }
    }
}

/// Returns the plane of a register.
fn plane_in(registers: &Registers, register: Register) -> &Plane {
    &registers[usize::from(register % 64)]
}

/// Returns the set of a row.
fn set_of(place: usize) -> Plane {
    let mut set = mask(0);
    if let Some(word) = set.get_mut(place / 64) {
        *word = 1 << (place % 64);
    }
    set
}

/// Returns the first row of a set, or 0.
fn first_of(set: &Plane) -> usize {
    for place in 0..LANES {
        if lane(set, place) {
            return place;
        }
    }
    0
}
