//! Programs of instructions that needn't be one.
ghost use Rattle.std.specs.Prelude.{◌≡◌, ◌&&◌, length, IfOk, IfSome, IsTrue};
ghost use Rattle.std.specs.List.{list_all};
ghost use Rattle.bw_program.specs.Program.{is_sound, are_sound, instr_fits, is_program, fits};
ghost use Rattle.bw_program.specs.Program.{program_of_instrs};

use crate::instr::{Instr, Register};
use crate::program::{Program, registers_of};
use crate::step::steps_of;
use bw_model::Schema;
use std::alloc::{AllocError, Global};

/// The most instructions of a program.
pub(crate) const MAX_INSTRUCTIONS: usize = 4096;

/// How many registers there are.
const REGISTERS: Register = 64;

impl Program {
    /// Returns the program of these instructions and `answer` as the result register, if it is one that fits
    /// the schema: at most 4,096 instructions, registers r0 to r63, skips that go forward, no
    /// further than the end, and columns, bits, null planes and slices that the schema has. Errors:
    /// memory is refused.
    pub fn new(
        alloc: Global,
        schema: &Schema,
        instrs: &[Instr],
        answer: Register,
    ) -> Result<Option<Program>, AllocError>
        ensures program { IfOk result (λ program. program
            ≡ program_of_instrs schema.now.columns.items instrs.now answer) }
        ensures fits { IfOk result (λ program. IfSome program (λ program.
            IsTrue (fits schema.now.columns.items program))) }
    {
        if !is_program(schema, instrs, answer) {
            return Ok(None);
        }
        let steps = steps_of(alloc, instrs)?;
        let registers = registers_of(instrs, answer);
        let instrs = instrs.iter().copied().collect(alloc)?;
        Ok(Some(Program {
            instrs,
            result: answer,
            registers,
            steps,
        }))
    }
}

/// Returns whether instructions and a result register are a program that fits the schema.
#[tactic(auto, unfolding(crate::specs::Program::fits))]
fn is_program(schema: &Schema, instrs: &[Instr], answer: Register) -> bool
    ensures { result ≡ (is_program (record { instrs = instrs.now; result = answer })
        && fits schema.now.columns.items (record { instrs = instrs.now; result = answer })) }
{
    instrs.len() <= MAX_INSTRUCTIONS
        && answer < REGISTERS
        && are_sound(instrs)
        && fit(schema, instrs)
}

/// Returns whether all instructions of a program are valid, each at its number.
#[tactic(auto, using(crate::proofs::ProgramLemmas::sound_next, crate::proofs::ProgramLemmas::sound_until, crate::proofs::ProgramLemmas::sound_to_end))]
fn are_sound(instrs: &[Instr]) -> bool
    ensures { result ≡ are_sound (length instrs.now) 0 instrs.now }
{
    for (number, instr) in instrs.iter().enumerate() {
        if !is_sound(instrs.len(), number, *instr) {
            return false;
        }
    }
    true
}

/// Returns whether the instruction of a number is valid in a program of `end` instructions.
fn is_sound(end: usize, number: usize, instr: Instr) -> bool
    ensures { result ≡ is_sound end number instr }
{
    match instr {
        Instr::Load(r, ..) | Instr::Nulls(r, _) | Instr::Fill(r, _) => r < REGISTERS,
        Instr::And(r, x, y) | Instr::Or(r, x, y) | Instr::Xor(r, x, y) => {
            r < REGISTERS && x < REGISTERS && y < REGISTERS
        }
        Instr::Not(r, x) => r < REGISTERS && x < REGISTERS,
        Instr::ByteLt(r, ..) | Instr::ByteEq(r, ..) => r < REGISTERS,
        Instr::Skip(x, target) => x < REGISTERS && number < target && target <= end,
    }
}

/// Returns whether a schema has all that the instructions name.
fn fit(schema: &Schema, instrs: &[Instr]) -> bool
    ensures { result ≡ list_all (instr_fits schema.now.columns.items) instrs.now }
{
    instrs.iter().all(|instr| fits(schema, *instr))
}

/// Returns whether a schema has all that an instruction names.
fn fits(schema: &Schema, instr: Instr) -> bool
    ensures { result ≡ instr_fits schema.now.columns.items instr }
{
    match instr {
        Instr::Load(_, column, bit) => {
            let column = column as usize;
            column < schema.columns.len() && u32::from(bit) < schema.width(column)
        }
        Instr::Nulls(_, column) => match schema.columns.get(column as usize) {
            Some(column) => column.nullable,
            None => false,
        },
        Instr::ByteLt(_, column, slice, _) | Instr::ByteEq(_, column, slice, _) => {
            let column = column as usize;
            column < schema.columns.len() && (slice as usize) < schema.slices(column)
        }
        _ => true,
    }
}
