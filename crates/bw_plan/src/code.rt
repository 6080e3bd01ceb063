//! Instructions, and what their registers hold.
use crate::limits::MAX_INSTRUCTIONS;
use crate::plan::Plan;
use crate::registers::{Content, RegisterStates};
use crate::skips::Skips;
use crate::unplanned::Unplanned;
use bw_model::Schema;
use bw_program::{Instr, Register};
use std::alloc::Global;

/// A register, unless there is no program or memory was refused.
pub(crate) type Made = Result<Register, Unplanned>;

/// The instructions so far.
#[derive(Drop)]
pub(crate) struct Code<'a> {
    pub(crate) schema: &'a Schema,
    pub(crate) plan: Plan,
    pub(crate) instrs: Vec<Instr>,
    pub(crate) registers: RegisterStates,
    pub(crate) skips: Skips,
}

impl<'a> Code<'a> {
    /// Returns no instructions.
    pub(crate) fn new(alloc: Global, schema: &'a Schema, plan: Plan) -> Self {
        Code {
            schema,
            plan,
            instrs: Vec::new(alloc),
            registers: RegisterStates::new(),
            skips: Skips::new(alloc),
        }
    }

    /// Appends an instruction.
    pub(crate) fn put(&mut self, instr: Instr) -> Result<(), Unplanned> {
        if self.instrs.len() >= MAX_INSTRUCTIONS {
            return Err(Unplanned::Length);
        }
        self.instrs.push(instr)?;
        Ok(())
    }

    /// Returns a register that isn't needed.
    pub(crate) fn claim(&mut self) -> Made {
        self.meet();
        self.registers.claim()
    }

    /// Appends an instruction that sets a register, which is needed from then on.
    pub(crate) fn set(&mut self, to: Register, instr: Instr) -> Made {
        self.meet();
        self.put(instr)?;
        self.registers.occupy(to, None);
        Ok(to)
    }

    /// Does the same with an instruction that reads another register, which is released.
    pub(crate) fn set_from(&mut self, other: Register, to: Register, instr: Instr) -> Made {
        self.set(to, instr)?;
        self.registers.release(other);
        Ok(to)
    }

    /// Returns a register with the same bit in every lane.
    pub(crate) fn fill(&mut self, bit: bool) -> Made {
        let register = self.claim()?;
        self.set(register, Instr::Fill(register, bit))
    }

    /// Returns a register that holds this: by instructions, unless one does already.
    pub(crate) fn compute(&mut self, content: Content) -> Made {
        self.meet();
        if let Some(register) = self.registers.reserve(content) {
            return Ok(register);
        }
        let register = self.claim()?;
        self.put(content.instr(register))?;
        if matches!(content, Content::Values(_)) {
            self.put(Instr::Not(register, register))?;
        }
        self.registers.occupy(register, Some(content));
        Ok(register)
    }
}
