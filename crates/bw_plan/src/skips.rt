//! Skips: where they begin, and where they meet.
use crate::code::Code;
use crate::registers::RegisterStates;
use crate::unplanned::Unplanned;
use bw_program::{Instr, Register};
use std::alloc::Global;

/// A skip without a target yet: its number, and what is known of the registers there.
#[derive(Clone, Copy)]
struct OpenSkip {
    number: usize,
    registers: RegisterStates,
}

/// The skips that have no target yet.
#[derive(Drop)]
pub(crate) struct Skips {
    open: Vec<OpenSkip>,
    /// Those from this one on meet before the next instruction.
    meeting: usize,
    /// How many skips there are, with a target or without.
    pub(crate) count: usize,
}

impl Skips {
    /// Returns no skips.
    pub(crate) fn new(alloc: Global) -> Self {
        Skips {
            open: Vec::new(alloc),
            meeting: usize::MAX,
            count: 0,
        }
    }
}

impl Code<'_> {
    /// Appends a skip, taken if a register is zero in every lane.
    pub(crate) fn skip(&mut self, register: Register) -> Result<(), Unplanned> {
        if !self.plan.skips {
            return Ok(());
        }
        self.meet();
        let number = self.instrs.len();
        let registers = self.registers;
        self.put(Instr::Skip(register, 0))?;
        self.skips.count = self.skips.count.saturating_add(1);
        self.skips.open.push(OpenSkip { number, registers })?;
        Ok(())
    }

    /// Returns how many skips are still to meet, besides those that meet here.
    pub(crate) fn open_skips(&mut self) -> usize {
        self.meet();
        self.skips.open.len()
    }

    /// Requests that the skips from this one on meet before the next instruction.
    pub(crate) fn meet_from(&mut self, first: usize) {
        self.skips.meeting = self.skips.meeting.min(first);
    }

    /// Lets skips meet here, if requested. A value isn't known any more if it isn't in its register
    /// by every skip.
    pub(crate) fn meet(&mut self) {
        let first = self.skips.meeting;
        self.skips.meeting = usize::MAX;
        let target = self.instrs.len();
        for skip in self.skips.open.iter().skip(first) {
            if let Some(Instr::Skip(_, place)) = self.instrs.get_mut(skip.number) {
                *place = target;
            }
            self.registers.meet(&skip.registers);
        }
        self.skips.open.truncate(first);
    }
}
