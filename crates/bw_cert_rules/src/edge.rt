//! The edges of skips, by their targets.
ghost use Rattle.std.specs.Prelude.{◌≡◌, ◌<◌, ◌≤◌, ◌+◌, ◌-◌, false, ℕ, List, [], ◌∷◌, ◌++◌, length};
ghost use Rattle.std.specs.Prelude.{OnOk, IfOk};
ghost use Rattle.bw_program.specs.ProgramText.{goes_past};
ghost use Rattle.bw_cert_rules.specs.Join.{edge_of, edges_into, with_edge};

use crate::known::Known;
use bw_program::{Instr, Register};
use std::alloc::{AllocError, Global};
use std::marker::Model;

/// The edge of a skip to its target, which is taken if its register is 0 in every lane.
#[derive(Clone, Copy)]
pub struct Edge {
    pub target: usize,
    pub register: Register,
    /// What is known of the registers at the skip.
    pub known: Known,
}

/// The edges of the skips so far, by their targets.
#[derive(Drop)]
pub(crate) struct Edges {
    by_target: Vec<Vec<Edge>>,
}

impl Model for Edges {
    ghost use Rattle.std.specs.Prelude.{List, map};
    ghost use Rattle.bw_cert_rules.specs.declared.edge.Edge.{Edge};

    ghost Value = { List (List Edge) };

    ghost view = { λ edges. map (λ each. each.items) edges.by_target.items };
}

impl Edges {
    ghost use Rattle.bw_cert_rules.specs.Edges.{Holds};
    ghost use Rattle.bw_cert_rules.specs.declared.edge.Edge.{Edge};

    /// Returns no edges, with space for targets up to the last place.
    pub(crate) fn new(alloc: Global, last: usize) -> Result<Self, AllocError>
        requires { last ≤ 4096 }
        ensures { IfOk result (λ edges. (length edges ≡ last + 1) × Holds edges []) }
    {
        let mut by_target = Vec::with_capacity(alloc, last + 1)?;
        for _ in 0..last + 1 {
            by_target.push(Vec::new(alloc))?;
        }
        Ok(Edges { by_target })
    }

    /// Adds the edge of a skip.
    fn push(&mut self, edge: Edge) -> Result<(), AllocError>
        requires { edge.target < length self.old }
        ensures holds { OnOk result ((edges : List Edge) → Holds self.old edges
            → Holds self.new (edges ++ edge ∷ [])) }
        ensures capacity { length self.new ≡ length self.old }
    {
        self.by_target[edge.target].push(edge)?;
        Ok(())
    }

    /// Adds the edge of an instruction, if it is a skip, with what is known before it.
    pub(crate) fn add(&mut self, known: &Known, instr: Instr) -> Result<(), AllocError>
        requires nonempty { 1 ≤ length self.old }
        requires within { goes_past (length self.old - 1) instr ≡ false }
        ensures holds { OnOk result ((edges : List Edge) → Holds self.old edges
            → Holds self.new (with_edge edges (edge_of known.now instr))) }
        ensures capacity { length self.new ≡ length self.old }
    {
        match instr {
            Instr::Skip(register, target) => self.push(Edge {
                target,
                register,
                known: *known,
            }),
            _ => Ok(()),
        }
    }

    /// Returns the edges into a place.
    pub(crate) fn into_place(&self, place: usize) -> &[Edge]
        requires { place < length self.now }
        ensures { (edges : List Edge) → Holds self.now edges
            → result.now ≡ edges_into place edges }
    {
        &self.by_target[place]
    }
}
