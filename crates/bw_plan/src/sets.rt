//! Sets of a column's codes.
use crate::columns::{index_of, width_of};
use crate::limits::LONG_SET;
use crate::unplanned::Unplanned;
use bw_model::{Junction, Schema};
use bw_program::{ColumnIndex, SliceIndex};
use std::alloc::Global;

/// A set of a column's codes: those with an odd number of bounds above them or, if it is inverted,
/// with an even number. The bounds are sorted and different, and above 0.
#[derive(Drop)]
pub(crate) struct Set {
    pub(crate) column: ColumnIndex,
    /// The slice of the most significant byte of the column's codes.
    pub(crate) top: SliceIndex,
    pub(crate) bounds: Vec<u64>,
    pub(crate) is_inverted: bool,
}

impl Set {
    /// Returns the codes of a column that are at least the first limit and below the second, or the
    /// others if `is_inverted`.
    pub(crate) fn between(
        alloc: Global,
        schema: &Schema,
        column: usize,
        limits: [i128; 2],
        is_inverted: bool,
    ) -> Result<Self, Unplanned> {
        let width = width_of(schema, column).min(63);
        let mut set = Set {
            column: index_of(column),
            top: (width.saturating_sub(1) / 8) as u8,
            bounds: Vec::new(alloc),
            is_inverted,
        };
        for limit in limits {
            if limit >= 1 << width {
                set.is_inverted = !set.is_inverted;
            } else if limit > 0 {
                set.bounds.push(limit as u64)?;
            }
        }
        Ok(set)
    }

    /// Returns the column's other codes.
    pub(crate) fn inverse(self) -> Self {
        Set {
            is_inverted: !self.is_inverted,
            ..self
        }
    }

    /// Returns how many bytes its bounds have, without their top ones: about as many instructions
    /// test for its codes.
    pub(crate) fn lower_bytes(&self) -> usize {
        self.bounds.len().saturating_mul(usize::from(self.top))
    }

    /// Returns whether it takes many instructions to test for its codes.
    pub(crate) fn is_long(&self) -> bool {
        self.lower_bytes() > LONG_SET
    }

    /// Returns whether it has the codes between a bound, by its number, and the one before.
    fn has_below(&self, bound: usize) -> bool {
        (self.bounds.len() % 2 != bound % 2) != self.is_inverted
    }

    /// Returns the codes that both it and another set of the column have, or that either has.
    pub(crate) fn join(
        &self,
        alloc: Global,
        junction: Junction,
        other: &Set,
    ) -> Result<Self, Unplanned> {
        let mut bounds = Vec::new(alloc);
        let has_all = |left: usize, right: usize| match junction {
            Junction::All => self.has_below(left) && other.has_below(right),
            Junction::Any => self.has_below(left) || other.has_below(right),
        };
        let (mut left, mut right) = (0usize, 0usize);
        let mut has = has_all(left, right);
        for _ in 0..self.bounds.len().saturating_add(other.bounds.len()) {
            let next = (self.bounds.get(left), other.bounds.get(right));
            let bound = match next {
                (Some(one), Some(another)) => one.min(another),
                (Some(bound), None) | (None, Some(bound)) => bound,
                (None, None) => break,
            };
            left = left.saturating_add(usize::from(next.0 == Some(bound)));
            right = right.saturating_add(usize::from(next.1 == Some(bound)));
            if has != has_all(left, right) {
                has = !has;
                bounds.push(*bound)?;
            }
        }
        Ok(Set {
            column: self.column,
            top: self.top,
            bounds,
            is_inverted: has,
        })
    }
}

/// Returns a byte of a number.
pub(crate) fn byte_of(number: u64, slice: SliceIndex) -> u8 {
    (number >> (u32::from(slice) * 8).min(63) & 0xff) as u8
}

/// Returns the bounds of a group that differ below a byte.
pub(crate) fn bounds_below(group: &[u64], slice: SliceIndex) -> &[u64] {
    match group {
        [first, rest @ ..] if first % (1 << (u32::from(slice) * 8).min(63)) == 0 => rest,
        _ => group,
    }
}
