//! The steps of a condition, operands first: each consumes the next line. What `pair` calls isn't
//! inlined, which keeps the stack of a deep condition small.
ghost use Rattle.std.specs.Prelude.{◌≡◌, [], ◌∷◌, Some, IsTrue, IfErr, length, map};
ghost use Rattle.std.specs.List.{list_all};
ghost use Rattle.bw_model.specs.FaultTable.{CONDITION_LINE};
ghost use Rattle.bw_model.specs.Cond.{names_within, is_within};
ghost use Rattle.bw_model.specs.declared.cond.Op.TheVariants.{Eq, Le, Ge};
ghost use Rattle.bw_model.specs.Fault.{at_line};
ghost use Rattle.bw_model.specs.declared.junction.Junction.TheVariants.{All, Any};
ghost use Rattle.bw_cert_text.specs.BodyLines.{body_lines};
ghost use Rattle.bw_cert_rules.specs.Comparison.{fixed_pair, comparison};
ghost use Rattle.bw_cert_rules.specs.Pair.{Answers, next_entry, next_number, expect_line, by_line};
ghost use Rattle.bw_cert_rules.specs.Pair.{is_null_test, joined_pair, negated_pair};
ghost use Rattle.bw_cert_rules.specs.Pair.{with_opposite, tested_pair, joined_parts, one_more};
ghost use Rattle.bw_cert_rules.specs.Pair.{equations, pair_of};

use crate::comparison::{comparison, fixed_pair};
use crate::nodes::{TruthNodes, if_both, null_pair};
use bw_cert_text::{BodyLines, ConditionEntry, Entry};
use bw_diagram::{Connective, Diagram};
use bw_model::{Cond, Fault, Junction, Op, Operand, Schema, Truth, code};

/// A truth pair and the lines after those that made it, or an error.
type Read<'a> = Result<(TruthNodes, BodyLines<'a>), Fault>;

/// Returns the truth pair of a condition and the lines after its own, with which the lines must
/// begin. The condition's columns must be the schema's. Allocates no memory.
///
/// Errors: 606 at the first line that isn't that of the condition's next step, or that breaks its
/// rule. If the lines run out, it is at END, whose number is `end`.
#[tactic(auto, using(crate::proofs::PairLemmas::pairs, bw_model::proofs::CondLemmas::names))]
#[cycle(pair)]
pub fn pair<'a>(
    schema: &Schema,
    diagram: &Diagram<'_>,
    cond: &Cond,
    lines: BodyLines<'a>,
    end: u64,
) -> Read<'a>
    requires { IsTrue (names_within (length schema.now.columns.items) cond.now) }
    ensures pair { Answers result
        (pair_of schema.now.columns.items diagram.now end cond.now (body_lines lines.entry)) }
    ensures code { IfErr result (λ fault. fault.code ≡ CONDITION_LINE) }
{
    match cond {
        Cond::Always => constant(Truth::Yes, lines, end),
        Cond::Cmp(op, x, y) => read_comparison(schema, diagram, *op, *x, *y, lines, end),
        Cond::Between(x, y, z) => between(schema, diagram, *x, *y, *z, lines, end),
        Cond::Among(x, items) => read_list(schema, diagram, *x, items, lines, end),
        Cond::IsNull(x) => read_null_test(schema, diagram, *x, lines, end),
        Cond::And(parts) => combine_parts(schema, diagram, Junction::All, parts, lines, end),
        Cond::Or(parts) => combine_parts(schema, diagram, Junction::Any, parts, lines, end),
        Cond::Not(part) => {
            let (made, rest) = pair(schema, diagram, part, lines, end)?;
            read_negation(made, rest, end)
        }
        Cond::Test(part, wanted) => {
            let (made, rest) = pair(schema, diagram, part, lines, end)?;
            read_truth_test(diagram, *wanted, made, rest, end)
        }
    }
}

/// Returns the truth pair of combined parts: the first part's lines, and then for each further part
/// its lines and the line that combines it with those before.
#[cycle(pair)]
fn combine_parts<'a>(
    schema: &Schema,
    diagram: &Diagram<'_>,
    junction: Junction,
    parts: &[Cond],
    lines: BodyLines<'a>,
    end: u64,
) -> Read<'a>
    requires { IsTrue (list_all (names_within (length schema.now.columns.items)) parts.now) }
    ensures pair { Answers result (joined_parts schema.now.columns.items diagram.now end junction
        (map (pair_of schema.now.columns.items diagram.now end) parts.now)
        (body_lines lines.entry)) }
    ensures code { IfErr result (λ fault. fault.code ≡ CONDITION_LINE) }
{
    let Some((first, others)) = parts.split_first() else {
        return Err(next_line_fault(lines, end));
    };
    let (mut made, mut left) = pair(schema, diagram, first, lines, end)?;
    for part in others {
        let (next, rest) = pair(schema, diagram, part, left, end)?;
        let (both, rest) = join(diagram, junction, made, next, rest, end)?;
        made = both;
        left = rest;
    }
    Ok((made, left))
}

/// Returns the truth pair of equations with one operand, combined by OR.
#[inline(never)]
fn read_list<'a>(
    schema: &Schema,
    diagram: &Diagram<'_>,
    x: Operand,
    items: &[Operand],
    lines: BodyLines<'a>,
    end: u64,
) -> Read<'a>
    requires operand { IsTrue (is_within (length schema.now.columns.items) x) }
    requires items { IsTrue (list_all (is_within (length schema.now.columns.items)) items.now) }
    ensures pair { Answers result (joined_parts schema.now.columns.items diagram.now end Any
        (equations schema.now.columns.items diagram.now end x items.now) (body_lines lines.entry)) }
    ensures code { IfErr result (λ fault. fault.code ≡ CONDITION_LINE) }
{
    let Some((first, others)) = items.split_first() else {
        return Err(next_line_fault(lines, end));
    };
    let (mut made, mut left) = read_comparison(schema, diagram, Op::Eq, x, *first, lines, end)?;
    for item in others {
        (made, left) = one_more(schema, diagram, x, *item, made, left, end)?;
    }
    Ok((made, left))
}

/// Returns the truth pair so far, combined with that of one more equation.
fn one_more<'a>(
    schema: &Schema,
    diagram: &Diagram<'_>,
    x: Operand,
    item: Operand,
    made: TruthNodes,
    lines: BodyLines<'a>,
    end: u64,
) -> Read<'a>
    requires operand { IsTrue (is_within (length schema.now.columns.items) x) }
    requires item { IsTrue (is_within (length schema.now.columns.items) item) }
    ensures pair { Answers result (one_more schema.now.columns.items diagram.now end Any
        (by_line end (comparison schema.now.columns.items diagram.now Eq x item))
        (made, (body_lines lines.entry))) }
    ensures code { IfErr result (λ fault. fault.code ≡ CONDITION_LINE) }
{
    let (next, rest) = read_comparison(schema, diagram, Op::Eq, x, item, lines, end)?;
    join(diagram, Junction::Any, made, next, rest, end)
}

/// Returns the truth pair of `x >= y AND x <= z`.
#[inline(never)]
fn between<'a>(
    schema: &Schema,
    diagram: &Diagram<'_>,
    x: Operand,
    y: Operand,
    z: Operand,
    lines: BodyLines<'a>,
    end: u64,
) -> Read<'a>
    requires x { IsTrue (is_within (length schema.now.columns.items) x) }
    requires y { IsTrue (is_within (length schema.now.columns.items) y) }
    requires z { IsTrue (is_within (length schema.now.columns.items) z) }
    ensures pair { Answers result (joined_parts schema.now.columns.items diagram.now end All
        (by_line end (comparison schema.now.columns.items diagram.now Ge x y)
        ∷ by_line end (comparison schema.now.columns.items diagram.now Le x z) ∷ [])
        (body_lines lines.entry)) }
    ensures code { IfErr result (λ fault. fault.code ≡ CONDITION_LINE) }
{
    let (lower, rest) = read_comparison(schema, diagram, Op::Ge, x, y, lines, end)?;
    let (upper, rest) = read_comparison(schema, diagram, Op::Le, x, z, rest, end)?;
    join(diagram, Junction::All, lower, upper, rest, end)
}

/// Returns the truth pair of a comparison, by the next line.
#[tactic(auto, unfolding(crate::specs::Pair::by_line))]
fn read_comparison<'a>(
    schema: &Schema,
    diagram: &Diagram<'_>,
    op: Op,
    x: Operand,
    y: Operand,
    lines: BodyLines<'a>,
    end: u64,
) -> Read<'a>
    requires left { IsTrue (is_within (length schema.now.columns.items) x) }
    requires right { IsTrue (is_within (length schema.now.columns.items) y) }
    ensures pair { Answers result
        (by_line end (comparison schema.now.columns.items diagram.now op x y)
        (body_lines lines.entry)) }
    ensures code { IfErr result (λ fault. fault.code ≡ CONDITION_LINE) }
{
    let made = match next_entry(lines) {
        Some(entry) => comparison(schema, diagram, op, x, y, entry),
        None => None,
    };
    expect_line(made, lines, end)
}

/// Returns the truth pair of a step with the same truth on every row, by the next line.
#[tactic(auto, unfolding(crate::specs::Pair::by_line))]
#[inline(never)]
fn constant<'a>(truth: Truth, lines: BodyLines<'a>, end: u64) -> Read<'a>
    ensures pair { Answers result (by_line end (fixed_pair truth) (body_lines lines.entry)) }
    ensures code { IfErr result (λ fault. fault.code ≡ CONDITION_LINE) }
{
    let made = match next_entry(lines) {
        Some(entry) => fixed_pair(truth, entry),
        None => None,
    };
    expect_line(made, lines, end)
}

/// Returns the truth pair of `IS NULL`, by the next line.
#[tactic(auto, unfolding(crate::specs::Pair::by_line))]
#[inline(never)]
fn read_null_test<'a>(
    schema: &Schema,
    diagram: &Diagram<'_>,
    x: Operand,
    lines: BodyLines<'a>,
    end: u64,
) -> Read<'a>
    requires { IsTrue (is_within (length schema.now.columns.items) x) }
    ensures pair { Answers result
        (by_line end (is_null_test schema.now.columns.items diagram.now x)
        (body_lines lines.entry)) }
    ensures code { IfErr result (λ fault. fault.code ≡ CONDITION_LINE) }
{
    let made = match next_entry(lines) {
        Some(entry) => is_null_test(schema, diagram, x, entry),
        None => None,
    };
    expect_line(made, lines, end)
}

/// Returns the truth pair of `IS NULL`, by this line.
#[tactic(auto, unfolding(crate::specs::Pair::is_null_test))]
fn is_null_test(
    schema: &Schema,
    diagram: &Diagram<'_>,
    x: Operand,
    entry: ConditionEntry,
) -> Option<TruthNodes>
    requires { IsTrue (is_within (length schema.now.columns.items) x) }
    ensures { result ≡ is_null_test schema.now.columns.items diagram.now x entry }
{
    match x {
        Operand::Col(column) => match (schema.var_null(column), entry) {
            (Some(variable), ConditionEntry::NullTest(row)) => null_pair(diagram, variable, row),
            (Some(_), _) => None,
            (None, _) => fixed_pair(Truth::No, entry),
        },
        Operand::Lit(_) => fixed_pair(Truth::No, entry),
        Operand::Null => fixed_pair(Truth::Yes, entry),
    }
}

/// Returns the truth pair of two parts combined, by the next line.
#[tactic(auto, unfolding(crate::specs::Pair::by_line))]
fn join<'a>(
    diagram: &Diagram<'_>,
    junction: Junction,
    a: TruthNodes,
    b: TruthNodes,
    lines: BodyLines<'a>,
    end: u64,
) -> Read<'a>
    ensures pair { Answers result
        (by_line end (joined_pair diagram.now junction a b) (body_lines lines.entry)) }
    ensures code { IfErr result (λ fault. fault.code ≡ CONDITION_LINE) }
{
    let made = match next_entry(lines) {
        Some(entry) => joined_pair(diagram, junction, a, b, entry),
        None => None,
    };
    expect_line(made, lines, end)
}

/// Returns the truth pair of two parts combined, by this line.
#[tactic(auto, unfolding(crate::specs::Pair::joined_pair))]
fn joined_pair(
    diagram: &Diagram<'_>,
    junction: Junction,
    a: TruthNodes,
    b: TruthNodes,
    entry: ConditionEntry,
) -> Option<TruthNodes>
    ensures { result ≡ joined_pair diagram.now junction a b entry }
{
    match (junction, entry) {
        (Junction::All, ConditionEntry::And(i, j)) => if_both(
            diagram.product_node(Connective::And, a.yes, b.yes, i),
            diagram.product_node(Connective::Or, a.no, b.no, j),
        ),
        (Junction::Any, ConditionEntry::Or(i, j)) => if_both(
            diagram.product_node(Connective::Or, a.yes, b.yes, i),
            diagram.product_node(Connective::And, a.no, b.no, j),
        ),
        _ => None,
    }
}

/// Returns the truth pair of NOT, by the next line.
#[tactic(auto, unfolding(crate::specs::Pair::by_line, crate::specs::Pair::negated_pair))]
#[inline(never)]
fn read_negation<'a>(pair: TruthNodes, lines: BodyLines<'a>, end: u64) -> Read<'a>
    ensures pair { Answers result (by_line end (negated_pair pair) (body_lines lines.entry)) }
    ensures code { IfErr result (λ fault. fault.code ≡ CONDITION_LINE) }
{
    let made = match next_entry(lines) {
        Some(ConditionEntry::Not) => Some(pair.opposite_if(true)),
        _ => None,
    };
    expect_line(made, lines, end)
}

/// Returns the truth pair of `IS TRUE`, `IS FALSE` or `IS UNKNOWN`, by the next line.
#[tactic(auto, unfolding(crate::specs::Pair::by_line))]
#[inline(never)]
fn read_truth_test<'a>(
    diagram: &Diagram<'_>,
    wanted: Truth,
    pair: TruthNodes,
    lines: BodyLines<'a>,
    end: u64,
) -> Read<'a>
    ensures pair { Answers result
        (by_line end (tested_pair diagram.now wanted pair) (body_lines lines.entry)) }
    ensures code { IfErr result (λ fault. fault.code ≡ CONDITION_LINE) }
{
    let made = match next_entry(lines) {
        Some(entry) => tested_pair(diagram, wanted, pair, entry),
        None => None,
    };
    expect_line(made, lines, end)
}

/// Returns the truth pair of `IS TRUE`, `IS FALSE` or `IS UNKNOWN`, by this line.
#[tactic(auto, unfolding(crate::specs::Pair::tested_pair))]
fn tested_pair(
    diagram: &Diagram<'_>,
    wanted: Truth,
    pair: TruthNodes,
    entry: ConditionEntry,
) -> Option<TruthNodes>
    ensures { result ≡ tested_pair diagram.now wanted pair entry }
{
    match (wanted, entry) {
        (Truth::Yes, ConditionEntry::Is(i)) => with_opposite(diagram, pair.yes, i),
        (Truth::No, ConditionEntry::Is(i)) => with_opposite(diagram, pair.no, i),
        (Truth::Unknown, ConditionEntry::IsUnknown(i, j)) => {
            let known = diagram.product_node(Connective::Or, pair.yes, pair.no, i)?;
            if_both(
                diagram.product_node(Connective::Diff, 1, known, j),
                Some(known),
            )
        }
        _ => None,
    }
}

/// Returns a node and its complement, which the line references by the number of a product row.
fn with_opposite(diagram: &Diagram<'_>, node: u64, number: u64) -> Option<TruthNodes>
    ensures { result ≡ with_opposite diagram.now node number }
{
    if_both(
        Some(node),
        diagram.product_node(Connective::Diff, 1, node, number),
    )
}

/// Returns the fields of the next line, if there is one and it is a condition's.
fn next_entry(lines: BodyLines<'_>) -> Option<ConditionEntry>
    ensures { result ≡ next_entry (body_lines lines.entry) }
{
    match lines.next() {
        Some((line, _)) => match line.entry {
            Entry::Condition(entry) => Some(entry),
            _ => None,
        },
        None => None,
    }
}

/// Returns the truth pair that the next line makes and the lines after it, or the error of that
/// line.
fn expect_line<'a>(made: Option<TruthNodes>, lines: BodyLines<'a>, end: u64) -> Read<'a>
    ensures pair { Answers result (expect_line end made (body_lines lines.entry)) }
    ensures code { IfErr result (λ fault. fault.code ≡ CONDITION_LINE) }
{
    match (made, lines.next()) {
        (Some(pair), Some((_, rest))) => Ok((pair, rest)),
        _ => Err(next_line_fault(lines, end)),
    }
}

/// Returns the error of the next line, or that of END if there is none.
fn next_line_fault(lines: BodyLines<'_>, end: u64) -> Fault
    ensures { result ≡ at_line CONDITION_LINE (next_number end (body_lines lines.entry)) }
{
    let line = match lines.next() {
        Some((line, _)) => line.line,
        None => end,
    };
    Fault::at_line(code::CONDITION_LINE, line)
}
