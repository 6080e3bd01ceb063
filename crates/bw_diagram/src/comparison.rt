//! Comparisons of a condition's operands, as codes are compared.
ghost use Rattle.std.specs.Prelude.{◌≡◌, ◌≤◌, ◌-ℤ◌, ◌==◌, Some, None, if◌then◌else◌};
ghost use Rattle.bw_diagram.specs.Chain.{first_node};
ghost use Rattle.bw_diagram.specs.Comparison.{literal_comparison, terminal_of, column_comparison};

use crate::chain::ChainKind;
use bw_model::Op;

/// A comparison of a code with a number: the code is less than (equal to) `limit`, or isn't if it
/// is negated.
#[derive(Clone, Copy)]
pub struct LiteralComparison {
    pub kind: ChainKind,
    pub limit: i128,
    pub negated: bool,
}

/// A comparison of the codes of two columns: that of `left` is less than (equal to) that of
/// `right`, or isn't if it is negated.
#[derive(Clone, Copy)]
pub struct ColumnComparison {
    pub kind: ChainKind,
    pub left: usize,
    pub right: usize,
    pub negated: bool,
}

impl LiteralComparison {
    /// Returns the comparison of a column's code that a comparison of the column with the literal
    /// `n` means. The column's minimum is `lo`, so the literal's code would be `n - lo`.
    pub fn of(op: Op, n: i64, lo: i64) -> Self
        ensures { result ≡ literal_comparison op (n -ℤ lo) }
    {
        let distance = i128::from(n) - i128::from(lo);
        match op {
            Op::Lt => LiteralComparison::new(ChainKind::Less, distance, false),
            Op::Ge => LiteralComparison::new(ChainKind::Less, distance, true),
            Op::Le => LiteralComparison::new(ChainKind::Less, distance + 1, false),
            Op::Gt => LiteralComparison::new(ChainKind::Less, distance + 1, true),
            Op::Eq => LiteralComparison::new(ChainKind::Equal, distance, false),
            Op::Ne => LiteralComparison::new(ChainKind::Equal, distance, true),
        }
    }

    const fn new(kind: ChainKind, limit: i128, negated: bool) -> Self
        ensures { result ≡ record { kind = kind; limit = limit; negated = negated } }
    {
        LiteralComparison {
            kind,
            limit,
            negated,
        }
    }

    /// Returns the terminal whose value is whether a number of `width` bits is less than (equal to)
    /// the limit, if it is the same for all such numbers.
    pub fn terminal(self, width: u32) -> Option<u32>
        requires { width ≤ 63 }
        ensures { result ≡ terminal_of self.kind self.limit width }
    {
        let numbers = 1_i128 << width;
        match self.kind {
            ChainKind::Less if self.limit <= 0 => Some(0),
            ChainKind::Less if numbers <= self.limit => Some(1),
            ChainKind::Equal if self.limit < 0 || numbers <= self.limit => Some(0),
            _ => None,
        }
    }
}

impl ColumnComparison {
    /// Returns the comparison of their codes that a comparison of the columns `c` and `d` means, if
    /// both have the same minimum.
    pub const fn of(op: Op, c: usize, d: usize) -> Self
        ensures { result ≡ column_comparison op c d }
    {
        let (kind, left, right, negated) = match op {
            Op::Lt => (ChainKind::Less, c, d, false),
            Op::Ge => (ChainKind::Less, c, d, true),
            Op::Gt => (ChainKind::Less, d, c, false),
            Op::Le => (ChainKind::Less, d, c, true),
            Op::Eq => (ChainKind::Equal, c, d, false),
            Op::Ne => (ChainKind::Equal, c, d, true),
        };
        ColumnComparison {
            kind,
            left,
            right,
            negated,
        }
    }

    /// Returns the terminal whose value is whether the comparison of a code with itself is true, if
    /// both are of one column.
    pub fn terminal(self) -> Option<u32>
        ensures { result ≡ (if self.left == self.right then Some (first_node self.kind) else None) }
    {
        if self.left == self.right {
            Some(self.kind.first_node())
        } else {
            None
        }
    }
}
