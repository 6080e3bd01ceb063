//! The truth pair of a comparison: of a column with a literal, of two columns, or with the same
//! truth on every row.
ghost use Rattle.std.specs.Prelude.{◌≡◌, ◌<◌, IsTrue, length};
ghost use Rattle.bw_model.specs.Cond.{is_within};
ghost use Rattle.bw_cert_rules.specs.Comparison.{lo_at, fixed_pair, pair_if_known, exchange_if};
ghost use Rattle.bw_cert_rules.specs.Comparison.{literal_node, with_literal, column_node};
ghost use Rattle.bw_cert_rules.specs.Comparison.{with_column, comparison};

use crate::nodes::{TruthNodes, constant_pair, if_both, value_node};
use bw_cert_text::ConditionEntry;
use bw_diagram::{ColumnComparison, Connective, Diagram, LiteralComparison};
use bw_model::{Op, Operand, Schema, Truth};

/// Returns the truth pair of a comparison by its line, which is `CMP`, `CMP2` or `FIXED`, or None
/// if the line doesn't fit.
#[tactic(auto, unfolding(crate::specs::Comparison::comparison))]
pub fn comparison(
    schema: &Schema,
    diagram: &Diagram<'_>,
    op: Op,
    x: Operand,
    y: Operand,
    entry: ConditionEntry,
) -> Option<TruthNodes>
    requires left { IsTrue (is_within (length schema.now.columns.items) x) }
    requires right { IsTrue (is_within (length schema.now.columns.items) y) }
    ensures { result ≡ comparison schema.now.columns.items diagram.now op x y entry }
{
    match (x, y) {
        (Operand::Col(column), Operand::Lit(n)) => {
            with_literal(schema, diagram, op, column, n, entry)
        }
        (Operand::Lit(n), Operand::Col(column)) => {
            with_literal(schema, diagram, op.swap_operands(), column, n, entry)
        }
        (Operand::Col(left), Operand::Col(right)) => {
            with_column(schema, diagram, op, left, right, entry)
        }
        (Operand::Lit(m), Operand::Lit(n)) => fixed_pair(Truth::of(op.holds(m, n)), entry),
        _ => fixed_pair(Truth::Unknown, entry),
    }
}

/// Returns the truth pair of a step with the same truth on every row, by its line `FIXED`.
pub fn fixed_pair(truth: Truth, entry: ConditionEntry) -> Option<TruthNodes>
    ensures { result ≡ fixed_pair truth entry }
{
    match entry {
        ConditionEntry::Fixed => Some(constant_pair(truth)),
        _ => None,
    }
}

/// Returns the truth pair of a comparison that is UNKNOWN unless node `m` is 1. If it is, the
/// comparison is TRUE if node `e` is 1, or 0 if it is negated. The line references a product row
/// for each.
fn pair_if_known(
    diagram: &Diagram<'_>,
    m: Option<u64>,
    e: Option<u64>,
    negated: bool,
    yes: u64,
    no: u64,
) -> Option<TruthNodes>
    ensures { result ≡ exchange_if negated (pair_if_known diagram.now m e yes no) }
{
    let m = m?;
    let e = e?;
    let pair = if_both(
        diagram.product_node(Connective::And, m, e, yes),
        diagram.product_node(Connective::Diff, m, e, no),
    )?;
    Some(pair.opposite_if(negated))
}

/// Returns the truth pair of a column and a literal, by their line `CMP`.
#[tactic(auto, unfolding(crate::specs::Comparison::with_literal))]
fn with_literal(
    schema: &Schema,
    diagram: &Diagram<'_>,
    op: Op,
    column: usize,
    n: i64,
    entry: ConditionEntry,
) -> Option<TruthNodes>
    requires { column < length schema.now.columns.items }
    ensures { result ≡ with_literal schema.now.columns.items diagram.now op column n entry }
{
    let ConditionEntry::Compare {
        chain,
        value,
        yes,
        no,
    } = entry
    else {
        return None;
    };
    let compared = LiteralComparison::of(op, n, lo_of(schema, column));
    let m = value_node(diagram, schema.var_null(column), value);
    let e = literal_node(schema, diagram, column, compared, chain);
    pair_if_known(diagram, m, e, compared.negated, yes, no)
}

/// Returns the minimum of a column, which has the code 0.
fn lo_of(schema: &Schema, column: usize) -> i64
    requires { column < length schema.now.columns.items }
    ensures { result ≡ lo_at schema.now.columns.items column }
{
    schema.columns[column].lo
}

/// Returns the node that is 1 if a column's code is less than (equal to) a bound: a terminal, for
/// `-`, or the node of the chain that the line references.
fn literal_node(
    schema: &Schema,
    diagram: &Diagram<'_>,
    column: usize,
    compared: LiteralComparison,
    chain: Option<u64>,
) -> Option<u64>
    requires { column < length schema.now.columns.items }
    ensures { result ≡ literal_node schema.now.columns.items diagram.now column compared chain }
{
    let width = schema.width(column);
    match (compared.terminal(width), chain) {
        (Some(terminal), None) => Some(u64::from(terminal)),
        (None, Some(number)) => {
            let limit = compared.limit.unsigned_abs() as u64;
            diagram.comparison_node(compared.kind, column as u32, 0, width, limit, number)
        }
        _ => None,
    }
}

/// Returns the truth pair of two columns of the same minimum, by their line `CMP2`.
#[tactic(auto, unfolding(crate::specs::Comparison::with_column))]
fn with_column(
    schema: &Schema,
    diagram: &Diagram<'_>,
    op: Op,
    c: usize,
    d: usize,
    entry: ConditionEntry,
) -> Option<TruthNodes>
    requires left { c < length schema.now.columns.items }
    requires right { d < length schema.now.columns.items }
    ensures { result ≡ with_column schema.now.columns.items diagram.now op c d entry }
{
    let ConditionEntry::CompareColumns {
        chain,
        left,
        right,
        both,
        yes,
        no,
    } = entry
    else {
        return None;
    };
    if lo_of(schema, c) != lo_of(schema, d) {
        return None;
    }
    let compared = ColumnComparison::of(op, c, d);
    let left = value_node(diagram, schema.var_null(c), left)?;
    let right = value_node(diagram, schema.var_null(d), right)?;
    let m = diagram.product_node(Connective::And, left, right, both);
    let e = column_node(schema, diagram, compared, chain);
    pair_if_known(diagram, m, e, compared.negated, yes, no)
}

/// Returns the node that is 1 if the comparison of two codes is true: a terminal, for `-`, if they
/// are of one column, or the node of the chain that the line references.
fn column_node(
    schema: &Schema,
    diagram: &Diagram<'_>,
    compared: ColumnComparison,
    chain: Option<u64>,
) -> Option<u64>
    requires left { compared.left < length schema.now.columns.items }
    requires right { compared.right < length schema.now.columns.items }
    ensures { result ≡ column_node schema.now.columns.items diagram.now compared chain }
{
    let len = schema
        .width(compared.left)
        .max(schema.width(compared.right));
    match (compared.terminal(), chain) {
        (Some(terminal), None) => Some(u64::from(terminal)),
        (None, Some(number)) => {
            let (left, right) = (compared.left as u32, compared.right as u32);
            diagram.two_column_node(compared.kind, left, right, len, number)
        }
        _ => None,
    }
}
