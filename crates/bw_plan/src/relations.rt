//! Instructions that compare the codes of two columns with one another, bit by bit.
use crate::code::{Code, Made};
use crate::columns::{index_of, width_of};
use crate::registers::Content;
use crate::unplanned::Unplanned;
use bw_diagram::{ChainKind, ColumnComparison};
use bw_program::{Instr, Register};

/// The registers of one bit of two columns: that is 1 if the bits differ, and that is 1, if they
/// differ, if the left one is 0.
type Bits = (Register, Option<Register>);

/// The registers of a comparison from the top down: that is 1 if the code is less by the bits so
/// far, and that is 1 if these are the same. None is 0, or 1, in every lane.
#[derive(Clone, Copy)]
struct Compared {
    less: Option<Register>,
    same: Option<Register>,
}

impl Code<'_> {
    /// Returns a register that is 1 if the code of a column is less than (equal to) that of
    /// another. Their top bits are compared from the top down, with skips to the end of the
    /// comparison if no row has them equal so far, and the bits below from the lowest one up.
    pub(crate) fn relation(&mut self, relation: ColumnComparison) -> Made {
        let is_less = relation.kind == ChainKind::Less;
        let left = width_of(self.schema, relation.left);
        let bits = left.max(width_of(self.schema, relation.right));
        let low = bits.saturating_sub(self.plan.top_bits());
        let (less, same) = (None, None);
        let mut made = Compared { less, same };
        for bit in (low..bits).rev() {
            made = self.next_below(relation, bit, made)?;
            if let Some(same) = made.same
                && bit > 0
            {
                if is_less && made.less.is_none() {
                    made.less = Some(self.fill(false)?);
                }
                self.skip(same)?;
            }
        }
        if low > 0 || made.same.is_none() && !is_less {
            let rest = self.lows(relation, low)?;
            made.same = Some(match made.same {
                Some(same) => self.set_from(rest, same, Instr::And(same, same, rest))?,
                None => rest,
            });
        }
        match (made.less, made.same) {
            (Some(less), Some(same)) => self.set_from(same, less, Instr::Or(less, less, same)),
            (None, None) => self.fill(false),
            (less, same) => less.or(same).ok_or(Unplanned::Limit),
        }
    }

    /// Adds the next bit below to a comparison from the top down. If the code is less by the last
    /// bit, whether it is the same isn't needed.
    fn next_below(
        &mut self,
        relation: ColumnComparison,
        bit: u32,
        so_far: Compared,
    ) -> Result<Compared, Unplanned> {
        let Compared { less, same } = so_far;
        let (differs, below) = self.bits(relation, bit)?;
        if let Some(below) = below {
            if below != differs {
                self.set(below, Instr::And(below, below, differs))?;
            }
            if let Some(same) = same {
                self.set(below, Instr::And(below, below, same))?;
            }
            if let Some(less) = less {
                self.set(less, Instr::Or(less, less, below))?;
            }
        }
        let is_last = bit == 0 && relation.kind == ChainKind::Less;
        let made = Compared {
            less: less.or(below),
            same: if is_last {
                None
            } else {
                Some(self.same_below(differs, below, same)?)
            },
        };
        for register in [differs, below.unwrap_or(differs)] {
            if made.less != Some(register) && made.same != Some(register) {
                self.registers.release(register);
            }
        }
        Ok(made)
    }

    /// Returns the register of whether two columns are the same in the bits so far and the next one
    /// below.
    fn same_below(
        &mut self,
        differs: Register,
        below: Option<Register>,
        same: Option<Register>,
    ) -> Made {
        match same {
            Some(same) if below == Some(differs) => {
                self.set(same, Instr::Xor(same, same, differs))
            }
            None if below == Some(differs) => {
                let same = self.claim()?;
                self.set(same, Instr::Not(same, differs))
            }
            _ => {
                self.set(differs, Instr::Not(differs, differs))?;
                match same {
                    Some(same) => self.set_from(differs, same, Instr::And(same, same, differs)),
                    None => Ok(differs),
                }
            }
        }
    }

    /// Returns a register that is 1 if this many low bits of a column are a number less than (equal
    /// to) that of another.
    fn lows(&mut self, relation: ColumnComparison, bits: u32) -> Made {
        let is_less = relation.kind == ChainKind::Less;
        let right = width_of(self.schema, relation.right);
        let mut made = None;
        for bit in 0..bits {
            // Nothing is less than a number that has no bits so far.
            if !is_less || made.is_some() || bit < right {
                let bits = self.bits(relation, bit)?;
                made = Some(self.next_above(bits, made)?);
            }
        }
        match made {
            Some(made) => Ok(made),
            None => self.fill(!is_less),
        }
    }

    /// Adds the next bit above to a comparison from the lowest bit up.
    fn next_above(&mut self, (differs, below): Bits, made: Option<Register>) -> Made {
        match (below, made) {
            (Some(below), None) if below != differs => {
                self.set_from(differs, below, Instr::And(below, below, differs))
            }
            (Some(below), None) => Ok(below),
            (Some(below), Some(made)) if below != differs => {
                self.set(below, Instr::Xor(below, below, made))?;
                self.set(below, Instr::And(below, below, differs))?;
                self.registers.release(differs);
                self.set_from(below, made, Instr::Xor(made, made, below))
            }
            (Some(_), Some(made)) => self.set_from(differs, made, Instr::Or(made, made, differs)),
            (None, made) => {
                self.set(differs, Instr::Not(differs, differs))?;
                match made {
                    Some(made) => self.set_from(differs, made, Instr::And(made, made, differs)),
                    None => Ok(differs),
                }
            }
        }
    }

    /// Returns the registers of one bit of two columns, of which at least one has it. The second is
    /// the first if only the right column has the bit. There is none if only the left one has it,
    /// or if only equality is wanted.
    fn bits(&mut self, relation: ColumnComparison, bit: u32) -> Result<Bits, Unplanned> {
        let ColumnComparison { left, right, .. } = relation;
        let bit_of = |column| Content::Bit(index_of(column), (bit % 64) as u8);
        let is_less = relation.kind == ChainKind::Less;
        if bit >= width_of(self.schema, right) {
            return Ok((self.compute(bit_of(left))?, None));
        }
        let below = self.compute(bit_of(right))?;
        if bit >= width_of(self.schema, left) {
            return Ok((below, is_less.then_some(below)));
        }
        let differs = self.compute(bit_of(left))?;
        self.set(differs, Instr::Xor(differs, differs, below))?;
        if !is_less {
            self.registers.release(below);
        }
        Ok((differs, is_less.then_some(below)))
    }
}
