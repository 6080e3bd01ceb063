//! Comparisons of operands, as codes are compared.
ghost use Rattle.std.specs.Prelude.{◌≡◌};
ghost use Rattle.bw_prover.specs.Comparison.{minimum_of, with_literal, with_column, comparison_of};

use bw_diagram::{ColumnComparison, LiteralComparison};
use bw_model::{Op, Operand, Schema, Truth};

/// A comparison of operands. Columns are the schema's.
#[derive(Clone, Copy)]
pub enum Comparison {
    /// The same truth on every row.
    Fixed(Truth),
    /// A comparison of a column's code with a number.
    Literal(usize, LiteralComparison),
    /// A comparison of the codes of two columns of the same minimum.
    Columns(ColumnComparison),
}

/// Returns what a comparison of operands means for codes, unless the schema lacks a column, or two
/// columns have unequal minimums.
#[tactic(auto, unfolding(crate::specs::Comparison::comparison_of))]
pub fn compare(schema: &Schema, op: Op, x: Operand, y: Operand) -> Option<Comparison>
    ensures { result ≡ comparison_of schema.now.columns.items op x y }
{
    match (x, y) {
        (Operand::Col(c), Operand::Lit(n)) => with_literal(op, c, n, minimum_of(schema, c)),
        (Operand::Lit(n), Operand::Col(c)) => {
            with_literal(op.swap_operands(), c, n, minimum_of(schema, c))
        }
        (Operand::Col(c), Operand::Col(d)) => {
            with_column(op, c, d, minimum_of(schema, c), minimum_of(schema, d))
        }
        (Operand::Lit(m), Operand::Lit(n)) => { Some(Comparison::Fixed(Truth::of(op.holds(m, n)))) }
        _ => Some(Comparison::Fixed(Truth::Unknown)),
    }
}

/// Returns the minimum of a column, if the schema has the column.
fn minimum_of(schema: &Schema, column: usize) -> Option<i64>
    ensures { result ≡ minimum_of schema.now.columns.items column }
{
    match schema.columns.get(column) {
        Some(column) => Some(column.lo),
        None => None,
    }
}

/// Returns the comparison of a column, of which this is the minimum, with a literal.
fn with_literal(op: Op, column: usize, n: i64, minimum: Option<i64>) -> Option<Comparison>
    ensures { result ≡ with_literal op column n minimum }
{
    match minimum {
        Some(lo) => Some(Comparison::Literal(column, LiteralComparison::of(op, n, lo))),
        None => None,
    }
}

/// Returns the comparison of two columns, if both have the same minimum.
fn with_column(
    op: Op,
    c: usize,
    d: usize,
    minimum: Option<i64>,
    other: Option<i64>,
) -> Option<Comparison>
    ensures { result ≡ with_column op c d minimum other }
{
    match (minimum, other) {
        (Some(lo), Some(other)) if lo == other => {
            Some(Comparison::Columns(ColumnComparison::of(op, c, d)))
        }
        _ => None,
    }
}
