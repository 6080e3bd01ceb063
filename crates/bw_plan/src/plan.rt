//! With which skips a condition is compiled.
use crate::limits::{MAX_ROWS_TO_SKIP, MAX_ROWS_TO_SKIP_PARTS, MAX_SQUARES};

/// With which skips a condition is compiled.
#[derive(Clone, Copy)]
pub(crate) struct Plan {
    /// Whether there are skips.
    pub(crate) skips: bool,
    /// Whether there are skips from part to part of the condition.
    pub(crate) between_parts: bool,
    /// How many top bits of two columns are compared from the top down, if there are skips.
    top_bits: u32,
}

impl Plan {
    /// Returns the plan with the most skips, for a condition of so many product rows that compares
    /// two columns so many times.
    pub(crate) fn new(relations: usize, rows: u32) -> Self {
        let each = MAX_SQUARES / relations.max(1);
        Plan {
            skips: rows < MAX_ROWS_TO_SKIP,
            between_parts: rows < MAX_ROWS_TO_SKIP_PARTS,
            top_bits: each.isqrt().min(63) as u32,
        }
    }

    /// Returns the plan with skips within parts alone, or else without any.
    pub(crate) fn with_fewer_skips(self) -> Self {
        Plan {
            skips: self.between_parts,
            between_parts: false,
            ..self
        }
    }

    /// Returns how many top bits of two columns are compared from the top down.
    pub(crate) fn top_bits(self) -> u32 {
        self.top_bits * u32::from(self.skips)
    }
}
