//! Conditions on rows: comparisons of columns and constants, combined by NOT, AND and OR.
ghost use Rattle.std.specs.Prelude.{◌≡◌};
ghost use Rattle.bw_model.specs.Truth.{holds, truth_from, swap_operands};

/// A truth value of SQL-92: `No` is FALSE and `Yes` is TRUE.
#[derive(Clone, Copy, Debug, PartialEq, Eq)]
pub enum Truth {
    No,
    Unknown,
    Yes,
}

impl Truth {
    /// Returns TRUE if `holds`, else FALSE.
    pub const fn of(holds: bool) -> Self
        ensures { result ≡ truth_from holds }
    {
        if holds { Truth::Yes } else { Truth::No }
    }
}

/// A comparison: `=`, `<>`, `<`, `>`, `<=` or `>=`.
#[derive(Clone, Copy, Debug, PartialEq, Eq)]
pub enum Op {
    Eq,
    Ne,
    Lt,
    Gt,
    Le,
    Ge,
}

impl Op {
    /// Returns whether the comparison is true of two numbers.
    pub fn holds(self, x: i64, y: i64) -> bool
        ensures { result ≡ holds self x y }
    {
        match self {
            Op::Eq => x == y,
            Op::Ne => x != y,
            Op::Lt => x < y,
            Op::Gt => x > y,
            Op::Le => x <= y,
            Op::Ge => x >= y,
        }
    }

    /// Returns the comparison that is true of `y` and `x` exactly if this one is true of `x` and
    /// `y`.
    pub const fn swap_operands(self) -> Self
        ensures { result ≡ swap_operands self }
    {
        match self {
            Op::Eq => Op::Eq,
            Op::Ne => Op::Ne,
            Op::Lt => Op::Gt,
            Op::Gt => Op::Lt,
            Op::Le => Op::Ge,
            Op::Ge => Op::Le,
        }
    }
}

/// An operand of a comparison: a column by its number from 0, a literal, or NULL.
#[derive(Clone, Copy, Debug, PartialEq, Eq)]
pub enum Operand {
    Col(usize),
    Lit(i64),
    Null,
}

/// A search condition of SQL-92. `And` and `Or` have two or more parts, and `Among` one or more
/// items.
#[derive(Drop)]
pub enum Cond {
    /// No condition: it is TRUE on every row.
    Always,
    Cmp(Op, Operand, Operand),
    /// The first operand is at least the second and at most the third.
    Between(Operand, Operand, Operand),
    /// The operand equals one of the items, as `IN` has it.
    Among(Operand, Vec<Operand>),
    IsNull(Operand),
    And(Vec<Cond>),
    Or(Vec<Cond>),
    Not(Box<Cond>),
    /// The condition has this truth value.
    Test(Box<Cond>, Truth),
}
