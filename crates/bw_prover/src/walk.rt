//! One walk over a program's instructions, which gives each register its node, after one from the
//! end, which finds the registers that are read later.
ghost use Rattle.bw_prover.specs.Growth.{HasGrown};

use crate::chain::Link;
use crate::columns::{bit_variable, null_variable, width_of};
use crate::join::KnownSkip;
use crate::prover::Prover;
use crate::unproved::Unproved;
use bw_cert_text::{Entry, InstructionEntry};
use bw_diagram::{ChainKind, Connective};
use bw_program::{Instr, Program, Register};
use std::alloc::{AllocError, Global};

/// What is known of a register at a place: nothing, as before it is written, or if it isn't read
/// later; the node whose value it has in every lane; or the skip by which its value isn't the one
/// that falls through. If there is a value by the skip, a node is 1 where the skip's register is 0
/// and the two values differ.
#[derive(Clone, Copy)]
pub(crate) enum Held {
    Nothing,
    Node(u64),
    Lost(KnownSkip, Option<u64>),
}

/// A skip to a place that the walk hasn't reached, and what is known of all registers there.
#[derive(Clone, Copy)]
pub(crate) struct Arrival {
    pub(crate) skip: KnownSkip,
    pub(crate) registers: [Held; 64],
}

/// A walk that has reached a place: which that is, what is known there, and the skips to places
/// beyond.
#[derive(Drop)]
pub(crate) struct Walk {
    pub(crate) place: usize,
    pub(crate) registers: [Held; 64],
    pub(crate) arrivals: Vec<Arrival>,
}

/// The line of an instruction, and the node of the register that it writes, or, of a skip, that it
/// reads.
type Effect = (InstructionEntry, u64);

impl Prover<'_> {
    /// Appends the lines of a program's instructions and joins, and returns the result's node.
    pub(crate) fn walk(&mut self, program: &Program) -> Result<u64, Unproved>
        ensures grown { HasGrown self.old.facts self.new.facts }
    {
        let alloc = self.facts.alloc;
        let reads = read_later(alloc, program)?;
        let mut walk = Walk {
            place: 0,
            registers: [Held::Nothing; 64],
            arrivals: Vec::new(alloc),
        };
        for (number, read) in reads.iter().enumerate() {
            walk.place = number;
            self.meet(&mut walk, *read)?;
            if number < program.len() {
                self.follow(&mut walk, program.instr(number))?;
            }
        }
        self.read(&walk, program.result())
    }

    /// Appends the line of an instruction, and records its effect.
    fn follow(&mut self, walk: &mut Walk, instr: Instr) -> Result<(), Unproved>
        ensures grown { HasGrown self.old.facts self.new.facts }
    {
        let (entry, node) = self.effect(walk, instr)?;
        self.put(Entry::Instruction(entry))?;
        if let Instr::Skip(_, target) = instr {
            let skip = KnownSkip {
                number: walk.place,
                target,
                tested: node,
            };
            let registers = walk.registers;
            walk.arrivals.push(Arrival { skip, registers })?;
        } else if let Some(register) = uses(instr).1 {
            walk.registers[usize::from(register % 64)] = Held::Node(node);
        }
        Ok(())
    }

    /// Returns the node of a register that the instruction reads.
    fn read(&mut self, walk: &Walk, register: Register) -> Result<u64, Unproved>
        ensures grown { HasGrown self.old.facts self.new.facts }
    {
        let instruction = walk.place;
        match walk.registers.get(usize::from(register)).copied() {
            Some(Held::Node(node)) => Ok(node),
            Some(Held::Lost(skip, differs)) => Err(Unproved::Unknown {
                instruction,
                register,
                join: skip.target,
                skip: skip.number,
                witness: self.facts.witness(skip, differs)?,
            }),
            _ => Err(Unproved::Unwritten {
                instruction,
                register,
            }),
        }
    }

    /// Returns the effect of an instruction.
    fn effect(&mut self, walk: &Walk, instr: Instr) -> Result<Effect, Unproved>
        ensures grown { HasGrown self.old.facts self.new.facts }
    {
        let (op, a, b) = match instr {
            Instr::And(_, x, y) => (Connective::And, self.read(walk, x)?, self.read(walk, y)?),
            Instr::Or(_, x, y) => (Connective::Or, self.read(walk, x)?, self.read(walk, y)?),
            Instr::Xor(_, x, y) => (Connective::Xor, self.read(walk, x)?, self.read(walk, y)?),
            Instr::Not(_, x) => (Connective::Diff, 1, self.read(walk, x)?),
            Instr::Skip(x, _) => return Ok((InstructionEntry::Skip, self.read(walk, x)?)),
            Instr::Fill(_, bit) => return Ok((InstructionEntry::Fill, u64::from(bit))),
            Instr::Load(_, column, bit) => {
                let variable = bit_variable(self.facts.schema, column.into(), bit.into());
                return self.load(variable);
            }
            Instr::Nulls(_, column) => {
                return self.load(null_variable(self.facts.schema, column.into()));
            }
            Instr::ByteLt(_, column, slice, byte) => {
                return self.byte(Link::of(ChainKind::Less, column.into(), slice, 0, byte.into()));
            }
            Instr::ByteEq(_, column, slice, byte) => {
                return self.byte(Link::of(ChainKind::Equal, column.into(), slice, 0, byte.into()));
            }
        };
        let row = self.facts.row(op, a, b)?;
        Ok((InstructionEntry::Op(row.number), row.node))
    }

    /// Returns the effect of an instruction that loads the plane of a variable.
    fn load(&mut self, variable: Option<u64>) -> Result<Effect, Unproved>
        ensures grown { HasGrown self.old.facts self.new.facts }
    {
        let node = self.facts.test(variable.ok_or(Unproved::NoRule)?, 0, 1)?;
        Ok((InstructionEntry::Load(node), node))
    }

    /// Returns the effect of a byte comparison, whose length isn't known yet. One with a number
    /// that is greater than each byte has no chain.
    fn byte(&mut self, link: Link) -> Result<Effect, Unproved>
        ensures grown { HasGrown self.old.facts self.new.facts }
    {
        let width = width_of(self.facts.schema, link.left).ok_or(Unproved::NoRule)?;
        let above = width.checked_sub(8 * u32::from(link.slice));
        let len = above.ok_or(Unproved::NoRule)?.min(8);
        let is_above = link.bound >= 1 << len;
        let terminal = is_above.then_some(u32::from(link.kind == ChainKind::Less));
        let (chain, node) = self.facts.chain_unless(terminal, Link { len, ..link })?;
        Ok((InstructionEntry::Byte(chain), node))
    }
}

/// A set of registers, one in each bit.
pub(crate) type RegisterSet = u64;

/// Returns the set of a register.
pub(crate) fn set_of(register: Register) -> RegisterSet {
    1 << (register % 64)
}

/// Returns the registers that an instruction reads, and the one that it writes.
pub(crate) fn uses(instr: Instr) -> (RegisterSet, Option<Register>) {
    match instr {
        Instr::Load(r, ..) | Instr::ByteLt(r, ..) | Instr::ByteEq(r, ..) => (0, Some(r)),
        Instr::Nulls(r, _) | Instr::Fill(r, _) => (0, Some(r)),
        Instr::And(r, x, y) | Instr::Or(r, x, y) | Instr::Xor(r, x, y) => {
            (set_of(x) | set_of(y), Some(r))
        }
        Instr::Not(r, x) => (set_of(x), Some(r)),
        Instr::Skip(x, _) => (set_of(x), None),
    }
}

/// Returns for each place of a program, the end included, the registers that are read there or
/// later on some way, before they are written.
pub(crate) fn read_later(alloc: Global, program: &Program) -> Result<Vec<RegisterSet>, AllocError> {
    let mut reads = Vec::new(alloc);
    let mut last = set_of(program.result());
    reads.resize(program.len() + 1, last)?;
    for number in (0..program.len()).rev() {
        let instr = program.instr(number);
        let (read, written) = uses(instr);
        last = last & !written.map_or(0, set_of) | read;
        if let Instr::Skip(_, target) = instr {
            last |= reads.get(target).copied().unwrap_or(0);
        }
        if let Some(place) = reads.get_mut(number) {
            *place = last;
        }
    }
    Ok(reads)
}
