//! Chains: nodes that compare the codes of columns, each computed once.
ghost use Rattle.std.specs.Prelude.{◌≡◌, ◌≤◌};
ghost use Rattle.bw_prover.specs.Growth.{HasGrown};

use crate::columns::bit_variable;
use crate::facts::{Cited, Facts};
use crate::ledger::Key;
use crate::unproved::Unproved;
use bw_diagram::ChainKind;
use bw_program::SliceIndex;

/// A chain: `len` bits of a column's code from the lowest one of a slice are compared with a
/// number, or, if there is a right column, the `len` low bits of both. It has the number of its
/// node, and of the chain with one bit less, if it has bits.
#[derive(Clone, Copy)]
pub(crate) struct Link {
    pub(crate) kind: ChainKind,
    pub(crate) left: usize,
    pub(crate) right: Option<usize>,
    pub(crate) slice: SliceIndex,
    pub(crate) len: u32,
    pub(crate) bound: u64,
    pub(crate) node: u64,
    pub(crate) prev: Option<u64>,
}

impl Link {
    /// Returns what distinguishes it from other chains.
    fn key(self) -> Key {
        let right = self.right.map_or(0, |right| 1 << 8 | right as u64);
        let bits = u64::from(self.slice) << 8 | u64::from(self.len % 64);
        let columns = (self.left as u64) << 16 | right;
        (self.bound, (columns << 16 | bits) << 1 | self.kind as u64)
    }

    /// Returns the comparison of `len` bits of a column's code, from those of a slice, with a
    /// number.
    pub(crate) fn of(kind: ChainKind, left: usize, slice: SliceIndex, len: u32, bound: u64) -> Self
        ensures { result.len ≡ len }
    {
        Link {
            kind,
            left,
            right: None,
            slice,
            len,
            bound,
            node: 0,
            prev: None,
        }
    }

    /// Returns the node of a comparison of numbers with top bits `x` and `y`, from that of the bits
    /// below, `lower`.
    fn outcome(self, x: bool, y: bool, lower: u64) -> u64 {
        match self.kind {
            _ if x == y => lower,
            ChainKind::Less => u64::from(y),
            ChainKind::Equal => 0,
        }
    }
}

impl Facts<'_> {
    /// Returns the number and the node of the chain of a comparison: none, and the terminal, if
    /// there is one that is its node.
    pub(crate) fn chain_unless(
        &mut self,
        terminal: Option<u32>,
        link: Link,
    ) -> Result<(Option<u64>, u64), Unproved>
        requires { link.len ≤ 63 }
        ensures grown { HasGrown self.old self.new }
    {
        if let Some(terminal) = terminal {
            return Ok((None, u64::from(terminal)));
        }
        let chain = self.chain(link)?;
        Ok((Some(chain.number), chain.node))
    }

    /// Returns the chain of a comparison, and adds it and those of fewer bits if they are missing.
    pub(crate) fn chain(&mut self, whole: Link) -> Result<Cited, Unproved>
        requires { whole.len ≤ 63 }
        ensures grown { HasGrown self.old self.new }
    {
        let mut last = None;
        for len in 0..=whole.len {
            let bound = whole.bound % (1 << len);
            let link = Link {
                len,
                bound,
                ..whole
            };
            last = Some(self.link(link, last)?);
        }
        last.ok_or(self.chains.limit_fault())
    }

    /// Returns a chain, and adds it if it is missing. `lower` is the chain of one bit less.
    fn link(&mut self, link: Link, lower: Option<Cited>) -> Result<Cited, Unproved>
        requires { link.len ≤ 63 }
        ensures grown { HasGrown self.old self.new }
    {
        if let Some((number, Link { node, .. })) = self.chains.find(link.key()) {
            return Ok(Cited { number, node });
        }
        let (node, prev) = match lower {
            Some(lower) => (self.node_above(link, lower.node)?, Some(lower.number)),
            None => (u64::from(link.kind == ChainKind::Equal), None),
        };
        let key = link.key();
        let number = self.chains.push(key, Link { node, prev, ..link })?;
        Ok(Cited { number, node })
    }

    /// Returns the node of a comparison, from that of the bits below the top bit, `lower`. A column
    /// may have no variable there.
    fn node_above(&mut self, link: Link, lower: u64) -> Result<u64, Unproved>
        requires { link.len ≤ 63 }
        ensures grown { HasGrown self.old self.new }
    {
        let place = link.len.checked_sub(1).ok_or(Unproved::NoRule)?;
        let low = self.node_if(link, false, place, lower)?;
        let bit = 8 * u32::from(link.slice) + place;
        let Some(variable) = bit_variable(self.schema, link.left, bit) else {
            return Ok(low);
        };
        let high = self.node_if(link, true, place, lower)?;
        self.choice(variable, low, high)
    }

    /// Returns that node if the left column's top bit, at this place, is `x`. A chain of two columns
    /// has no bits of a bound.
    fn node_if(&mut self, link: Link, x: bool, place: u32, lower: u64) -> Result<u64, Unproved>
        requires { place ≤ 62 }
        ensures grown { HasGrown self.old self.new }
    {
        let low = link.outcome(x, link.bound >> place & 1 == 1, lower);
        let right = link.right;
        match right.and_then(|right| bit_variable(self.schema, right, place)) {
            Some(variable) => self.choice(variable, low, link.outcome(x, true, lower)),
            None => Ok(low),
        }
    }
}
