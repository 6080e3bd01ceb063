//! Nodes of diagrams, each of which occurs once.
ghost use Rattle.std.specs.Prelude.{◌≡◌, ◌-◌, Some, IfOk, slice_get};

use crate::emit::NO_LINE;
use crate::unproved::{Counted, Unproved};
use bw_cert_text::NodeLine;
use indexmap::IndexSet;
use std::alloc::{AllocError, Global};

/// The most nodes of a certificate, besides the two terminals.
const MAX_NODES: u32 = 65_534;

/// What a node is: the variable that it tests, and the numbers of its children, for 0 and for 1.
#[derive(Clone, Copy, PartialEq, Eq, Hash)]
pub(crate) struct Branch {
    pub(crate) v: u64,
    pub(crate) low: u64,
    pub(crate) high: u64,
}

impl Branch {
    /// Returns whether it is its variable's bit, or the opposite.
    pub(crate) fn is_bit(self) -> bool {
        self.low < 2 && self.high < 2
    }
}

/// The nodes from number 2 on: 0 and 1 are the terminals.
#[derive(Drop)]
pub(crate) struct Nodes {
    branches: IndexSet<Branch>,
}

impl Nodes {
    /// Returns no nodes but the terminals.
    pub(crate) fn new(alloc: Global) -> Self {
        Nodes {
            branches: IndexSet::new(alloc),
        }
    }

    /// Returns how many nodes there are, besides the terminals.
    pub(crate) fn len(&self) -> usize {
        self.branches.len()
    }

    /// Returns the node of a number, unless that is a terminal's.
    pub(crate) fn get(&self, number: u64) -> Option<Branch> {
        let place = number.checked_sub(2)?;
        self.branches.get_index(place as usize).copied()
    }

    /// Returns the number of a node, which is added if it is missing.
    pub(crate) fn number_of(&mut self, node: Branch) -> Result<u64, Unproved>
        ensures { IfOk result (λ number.
            slice_get self.new.branches.keys (number - 2) ≡ Some node) }
    {
        let (place, _) = self.branches.insert_full(node)?;
        if place >= MAX_NODES as usize {
            return Err(Unproved::Limit {
                counted: Counted::Nodes,
                most: MAX_NODES,
            });
        }
        Ok(place as u64 + 2)
    }

    /// Returns the lines of all nodes.
    pub(crate) fn lines(&self, alloc: Global) -> Result<Vec<NodeLine>, AllocError> {
        let mut lines = Vec::with_capacity(alloc, self.len())?;
        let mut n = 2u64;
        for Branch { v, low, high } in self.branches.as_slice().iter().copied() {
            let line = NO_LINE;
            lines.push(NodeLine {
                line,
                n,
                v,
                low,
                high,
            })?;
            n = n.saturating_add(1);
        }
        Ok(lines)
    }
}
