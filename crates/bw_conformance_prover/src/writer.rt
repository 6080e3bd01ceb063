//! A writer of programs that isn't the planner.
use crate::tables::NumberSource;
use bw_program::{ColumnIndex, Instr, Register};
use std::alloc::{AllocError, Global};

/// How a comparison is written.
#[derive(Clone, Copy)]
pub(crate) enum Style {
    /// Bit by bit from the top, with a skip after each.
    Down,
    /// Bit by bit from the lowest one up.
    Up,
    /// Byte by byte from the top, with a skip after each.
    Bytes,
}

/// A part of a condition: a column's code is less than a bound, or isn't if it is negated.
#[derive(Clone, Copy)]
pub(crate) struct Bound {
    pub(crate) column: ColumnIndex,
    pub(crate) width: u8,
    pub(crate) nullable: bool,
    pub(crate) bound: u64,
    pub(crate) negated: bool,
}

/// The registers that a writer uses, before they are shuffled: the result so far, a part's result,
/// which lanes are equal so far, two for other values, and one that is of no use.
const RESULT: u8 = 0;

const PART: u8 = 1;

const EQUAL: u8 = 2;

const BIT: u8 = 3;

const OTHER: u8 = 4;

const IDLE: u8 = 5;

/// The instructions so far.
#[derive(Drop)]
pub(crate) struct Writer {
    pub(crate) instrs: Vec<Instr>,
    numbers: NumberSource,
    shift: u8,
}

impl Writer {
    /// Returns no instructions, for a seed.
    pub(crate) fn new(alloc: Global, seed: u64) -> Self {
        Writer {
            instrs: Vec::new(alloc),
            numbers: NumberSource::new(seed),
            shift: (seed % 64) as u8,
        }
    }

    /// Returns a register's place among shuffled ones.
    pub(crate) fn register(&self, number: u8) -> Register {
        number.wrapping_mul(13).wrapping_add(self.shift) % 64
    }

    /// Returns the register of the result.
    pub(crate) fn result(&self) -> Register {
        self.register(RESULT)
    }

    /// Appends an instruction, at times after one of no use.
    fn put(&mut self, instr: Instr) -> Result<(), AllocError> {
        if self.numbers.below(4) == 0 {
            let idle = self.register(IDLE);
            self.instrs.push(Instr::Fill(idle, true))?;
            self.instrs.push(Instr::Xor(idle, idle, idle))?;
        }
        self.instrs.push(instr)?;
        Ok(())
    }

    /// Appends AND or OR of two registers, which the first of them becomes.
    fn join(&mut self, any: bool, to: u8, from: u8) -> Result<(), AllocError> {
        let (to, from) = (self.register(to), self.register(from));
        self.put(if any {
            Instr::Or(to, to, from)
        } else {
            Instr::And(to, from, to)
        })
    }

    /// Appends the complement of a register.
    fn oppose(&mut self, to: u8, from: u8) -> Result<(), AllocError> {
        let instr = Instr::Not(self.register(to), self.register(from));
        self.put(instr)
    }

    /// Appends a constant.
    fn fill(&mut self, to: u8, bit: bool) -> Result<(), AllocError> {
        let instr = Instr::Fill(self.register(to), bit);
        self.put(instr)
    }

    /// Appends a skip without a target at most places.
    fn skip(&mut self, tested: u8) -> Result<(), AllocError> {
        let instr = Instr::Skip(self.register(tested), usize::MAX);
        if self.numbers.below(4) > 0 {
            self.put(instr)?;
        }
        Ok(())
    }

    /// Lets the skips that have no target, from an instruction on, meet here.
    fn meet(&mut self, first: usize) {
        let end = self.instrs.len();
        for instr in self.instrs.iter_mut().skip(first) {
            if let Instr::Skip(_, target) = instr {
                *target = end.min(*target);
            }
        }
    }

    /// Appends a part, whose result is in its register.
    fn part(&mut self, part: Bound, style: Style) -> Result<(), AllocError> {
        let first = self.instrs.len();
        self.fill(PART, false)?;
        self.fill(EQUAL, true)?;
        match style {
            Style::Down => self.bits_down(part)?,
            Style::Up => self.bits_up(part)?,
            Style::Bytes => self.bytes_down(part)?,
        }
        self.meet(first);
        if part.negated {
            self.oppose(PART, PART)?;
        }
        if part.nullable {
            let null = Instr::Nulls(self.register(BIT), part.column);
            self.put(null)?;
            self.oppose(BIT, BIT)?;
            self.join(false, PART, BIT)?;
        }
        Ok(())
    }

    /// Compares a column's bits from the top.
    fn bits_down(&mut self, part: Bound) -> Result<(), AllocError> {
        for bit in (0..part.width).rev() {
            let load = Instr::Load(self.register(BIT), part.column, bit);
            self.put(load)?;
            self.oppose(OTHER, BIT)?;
            if part.bound >> (bit % 64) & 1 == 1 {
                self.join(false, OTHER, EQUAL)?;
                self.join(true, PART, OTHER)?;
                self.join(false, EQUAL, BIT)?;
            } else {
                self.join(false, EQUAL, OTHER)?;
            }
            self.skip(EQUAL)?;
        }
        Ok(())
    }

    /// Compares a column's bits from the lowest one up.
    fn bits_up(&mut self, part: Bound) -> Result<(), AllocError> {
        for bit in 0..part.width {
            let load = Instr::Load(self.register(BIT), part.column, bit);
            self.put(load)?;
            self.oppose(BIT, BIT)?;
            self.join(part.bound >> (bit % 64) & 1 == 1, PART, BIT)?;
        }
        Ok(())
    }

    /// Compares a column's bytes from the top.
    fn bytes_down(&mut self, part: Bound) -> Result<(), AllocError> {
        let slices = part.width.saturating_add(7) / 8;
        for slice in (0..slices.min(8)).rev() {
            let byte = (part.bound >> (8 * u32::from(slice)) & 255) as u8;
            let less = Instr::ByteLt(self.register(BIT), part.column, slice, byte);
            self.put(less)?;
            self.join(false, BIT, EQUAL)?;
            self.join(true, PART, BIT)?;
            let same = Instr::ByteEq(self.register(BIT), part.column, slice, byte);
            self.put(same)?;
            self.join(false, EQUAL, BIT)?;
            self.skip(EQUAL)?;
        }
        Ok(())
    }

    /// Appends the AND or OR of some parts, with a skip to the end after each.
    pub(crate) fn parts(
        &mut self,
        any: bool,
        parts: &[Bound],
        style: Style,
    ) -> Result<(), AllocError> {
        self.fill(RESULT, !any)?;
        for part in parts {
            self.part(*part, style)?;
            self.join(any, RESULT, PART)?;
            if any {
                self.oppose(OTHER, RESULT)?;
                self.skip(OTHER)?;
            } else {
                self.skip(RESULT)?;
            }
        }
        self.meet(0);
        Ok(())
    }
}
