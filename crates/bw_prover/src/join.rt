//! Joins: what is known of registers where skips meet what falls through.
ghost use Rattle.std.specs.Prelude.{◌<◌};
ghost use Rattle.bw_prover.specs.Growth.{HasGrown};

use crate::prover::Prover;
use crate::unproved::Unproved;
use crate::walk::{Arrival, Held, RegisterSet, Walk, set_of};
use bw_cert_text::{EdgePairs, EdgeProducts, Entry, Keep};
use bw_diagram::Connective;
use bw_program::Register;

/// A skip: its number and target, and the node of its register.
#[derive(Clone, Copy)]
pub(crate) struct KnownSkip {
    pub(crate) number: usize,
    pub(crate) target: usize,
    pub(crate) tested: u64,
}

impl Prover<'_> {
    /// Appends the lines of a place's join, if skips lead there. Each register that is read later
    /// is kept if it has the same value by each skip as on fall-through; else it isn't known.
    pub(crate) fn meet(&mut self, walk: &mut Walk, read: RegisterSet) -> Result<(), Unproved>
        ensures grown { HasGrown self.old.facts self.new.facts }
    {
        let place = walk.place;
        if walk.arrivals.iter().all(|from| from.skip.target != place) {
            return Ok(());
        }
        self.put(Entry::Join(place as u64))?;
        for register in 0..64u8 {
            let Held::Node(node) = walk.registers[register as usize] else {
                continue;
            };
            walk.registers[register as usize] = if read & set_of(register) == 0 {
                Held::Nothing
            } else {
                self.keep(walk, register, node)?
            };
        }
        walk.arrivals.retain(|from| from.skip.target != place);
        Ok(())
    }

    /// Appends the line of a register that a join keeps with this node, and returns that. It has the
    /// same value by each skip as on fall-through: its node at the skip may differ only where the
    /// skip's register is 1. Otherwise returns how it is lost.
    fn keep(&mut self, walk: &Walk, register: Register, node: u64) -> Result<Held, Unproved>
        requires { register < 64 }
        ensures grown { HasGrown self.old.facts self.new.facts }
    {
        let mut pairs = Vec::new(self.facts.alloc);
        for Arrival { skip, registers } in &walk.arrivals {
            if skip.target != walk.place {
                continue;
            }
            let Held::Node(held) = registers[register as usize] else {
                return Ok(Held::Lost(*skip, None));
            };
            let differs = self.facts.row(Connective::Xor, held, node)?;
            let within = self.facts.row(Connective::Diff, differs.node, skip.tested)?;
            if within.node != 0 {
                return Ok(Held::Lost(*skip, Some(within.node)));
            }
            let (differs, within) = (differs.number, within.number);
            pairs.push(EdgeProducts { differs, within })?;
        }
        let through = self.facts.row(Connective::Xor, node, node)?.number;
        let edges = EdgePairs::new(&pairs);
        self.put(Entry::Keep(Keep {
            register,
            node,
            through,
            edges,
        }))?;
        Ok(Held::Node(node))
    }
}
