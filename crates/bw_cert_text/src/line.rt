//! The fields of a certificate text's line.
ghost use Rattle.std.specs.Prelude.{◌≡◌, ◌≢◌, List, ℕ, map, option_map, IfOk};
ghost use Rattle.bw_text.specs.Lines.{line_of};
ghost use Rattle.bw_cert_text.specs.CertificateFields.{column_fields, chain_fields, entry_fields};
ghost use Rattle.bw_cert_text.specs.CertificateFields.{keep_fields};
ghost use Rattle.bw_cert_text.specs.LineText.{node_in, one_column_in, two_columns_in};
ghost use Rattle.bw_cert_text.specs.LineText.{columns_after, chain_in, reason_in, row_in};
ghost use Rattle.bw_cert_text.specs.LineText.{condition_in, instruction_in, edges_in, keep_in};
ghost use Rattle.bw_text.specs.declared.line_kind.LineKind.TheVariants as kinds;
ghost use Rattle.bw_cert_text.specs.LineText.{Before, body_at, parse_line_after, parse_line_in};
ghost use Rattle.bw_cert_text.specs.ParsedFields.{fields_before_end, parsed_fields};

use crate::connective::connective_of;
use crate::edge_pairs::EdgePairs;
use crate::lines::{
    BodyLine, ChainLine, ConditionEntry, EdgeProducts, EndLine, Entry, InstructionEntry, Keep,
    NodeLine, ProductLine,
};
use crate::operand::{number_in, optional_of};
use bw_diagram::{ChainColumns, ChainKind, Reason};
use bw_text::{
    ConditionKind, Form, InstructionKind, Line, LineKind, is_same_text, natural_number, register_of,
};
use std::alloc::{AllocError, Global};

/// A line before the end. Its words are those of the text, and its pairs stand elsewhere.
#[derive(Drop)]
pub(crate) enum LineBeforeEnd<'a, 'b> {
    Node(NodeLine),
    Chain(ChainLine<'a>),
    Row(ProductLine),
    Body(BodyLine<'b>),
}

/// A line.
#[derive(Drop)]
pub(crate) enum ParsedLine<'a, 'b> {
    Before(LineBeforeEnd<'a, 'b>),
    End(EndLine),
}

/// Reads the words after `NODE`: the node's number, its variable and its children.
fn node_in(line: u64, words: &[&[u8]]) -> Option<NodeLine>
    ensures { result ≡ node_in line (map (λ word. word.now) words.now) }
{
    let [n, v, low, high] = words else {
        return None;
    };
    Some(NodeLine {
        line,
        n: natural_number(n)?,
        v: natural_number(v)?,
        low: natural_number(low)?,
        high: natural_number(high)?,
    })
}

/// Reads the words after a chain's form: `column start len const node prev`, or `left right len node
/// prev` if the form compares two columns. Only `prev` may be `-`.
fn columns_after<'a>(form: Form, words: &[&'a [u8]]) -> Option<ChainColumns<'a>>
    ensures { option_map column_fields result
        ≡ columns_after form (map (λ word. word.now) words.now) }
{
    let kind = match form {
        Form::Less | Form::LessTwo => ChainKind::Less,
        Form::Equal | Form::EqualTwo => ChainKind::Equal,
    };
    match (form, words) {
        (Form::Less | Form::Equal, [column, start, len, bound, node, prev]) => {
            Some(ChainColumns::One {
                kind,
                column,
                start: natural_number(start)?,
                len: natural_number(len)?,
                bound: natural_number(bound)?,
                node: natural_number(node)?,
                prev: optional_of(prev)?,
            })
        }
        (Form::LessTwo | Form::EqualTwo, [left, right, len, node, prev]) => {
            Some(ChainColumns::Two {
                kind,
                left,
                right,
                len: natural_number(len)?,
                node: natural_number(node)?,
                prev: optional_of(prev)?,
            })
        }
        _ => None,
    }
}

/// Reads the words after `CHAIN`: its number, its form and what it compares.
fn chain_in<'a>(line: u64, words: &[&'a [u8]]) -> Option<ChainLine<'a>>
    ensures { option_map chain_fields result
        ≡ chain_in line (map (λ word. word.now) words.now) }
{
    let [n, word, rest @ ..] = words else {
        return None;
    };
    let n = natural_number(n)?;
    let form = Form::of(word)?;
    let columns = columns_after(form, rest)?;
    Some(ChainLine { line, n, columns })
}

/// Reads why a product row is valid: `S`, by a shortcut, or `V v i j`, by the rows `i` and `j` of its
/// nodes' cofactors by variable `v`.
fn reason_in(words: &[&[u8]]) -> Option<Reason>
    ensures { result ≡ reason_in (map (λ word. word.now) words.now) }
{
    match words {
        [word] if is_same_text(b"S", word) => Some(Reason::Shortcut),
        [word, v, i, j] if is_same_text(b"V", word) => Some(Reason::Cofactors {
            v: natural_number(v)?,
            i: natural_number(i)?,
            j: natural_number(j)?,
        }),
        _ => None,
    }
}

/// Reads the words after `ROW`: its number, its connective, three nodes and why it is valid.
fn row_in(line: u64, words: &[&[u8]]) -> Option<ProductLine>
    ensures { result ≡ row_in line (map (λ word. word.now) words.now) }
{
    let [n, word, a, b, c, rest @ ..] = words else {
        return None;
    };
    Some(ProductLine {
        line,
        n: natural_number(n)?,
        op: connective_of(word)?,
        a: natural_number(a)?,
        b: natural_number(b)?,
        c: natural_number(c)?,
        reason: reason_in(rest)?,
    })
}

/// Reads the words after a step's first one. `IS` tests for TRUE or FALSE with one number, and for
/// UNKNOWN with two.
fn condition_in(kind: ConditionKind, words: &[&[u8]]) -> Option<ConditionEntry>
    ensures { result ≡ condition_in kind (map (λ word. word.now) words.now) }
{
    let entry = match (kind, words) {
        (ConditionKind::Compare, [chain, value, yes, no]) => ConditionEntry::Compare {
            chain: optional_of(chain)?,
            value: optional_of(value)?,
            yes: natural_number(yes)?,
            no: natural_number(no)?,
        },
        (ConditionKind::CompareColumns, [chain, left, right, both, yes, no]) => {
            ConditionEntry::CompareColumns {
                chain: optional_of(chain)?,
                left: optional_of(left)?,
                right: optional_of(right)?,
                both: natural_number(both)?,
                yes: natural_number(yes)?,
                no: natural_number(no)?,
            }
        }
        (ConditionKind::Fixed, []) => ConditionEntry::Fixed,
        (ConditionKind::NullTest, [i]) => ConditionEntry::NullTest(natural_number(i)?),
        (ConditionKind::And, [i, j]) => {
            ConditionEntry::And(natural_number(i)?, natural_number(j)?)
        }
        (ConditionKind::Or, [i, j]) => ConditionEntry::Or(natural_number(i)?, natural_number(j)?),
        (ConditionKind::Not, []) => ConditionEntry::Not,
        (ConditionKind::Is, [i]) => ConditionEntry::Is(natural_number(i)?),
        (ConditionKind::Is, [i, j]) => {
            ConditionEntry::IsUnknown(natural_number(i)?, natural_number(j)?)
        }
        _ => return None,
    };
    Some(entry)
}

/// Reads the words after an instruction's first one: at most one number.
fn instruction_in(kind: InstructionKind, words: &[&[u8]]) -> Option<InstructionEntry>
    ensures { result ≡ instruction_in kind (map (λ word. word.now) words.now) }
{
    let entry = match (kind, words) {
        (InstructionKind::Load, [node]) => InstructionEntry::Load(natural_number(node)?),
        (InstructionKind::Fill, []) => InstructionEntry::Fill,
        (InstructionKind::Op, [i]) => InstructionEntry::Op(natural_number(i)?),
        (InstructionKind::Byte, [chain]) => InstructionEntry::Byte(optional_of(chain)?),
        (InstructionKind::Skip, []) => InstructionEntry::Skip,
        _ => return None,
    };
    Some(entry)
}

/// Reads pairs of numbers. A number without its partner is an error, None.
fn edges_in(alloc: Global, words: &[&[u8]]) -> Result<Option<Vec<EdgeProducts>>, AllocError>
    ensures { IfOk result
        (λ edges. option_map (λ edges. edges.items) edges
        ≡ edges_in (map (λ word. word.now) words.now)) }
{
    let mut edges = Vec::new(alloc);
    let mut rest = words;
    while let [i, j, more @ ..] = rest {
        let Some(differs) = natural_number(i) else {
            return Ok(None);
        };
        let Some(within) = natural_number(j) else {
            return Ok(None);
        };
        edges.push(EdgeProducts { differs, within })?;
        rest = more;
    }
    if rest.is_empty() {
        Ok(Some(edges))
    } else {
        Ok(None)
    }
}

/// Reads the words after `KEEP`: `r h x` and pairs. These are stored in `pairs`, from which the line
/// borrows them.
fn keep_in<'a>(
    alloc: Global,
    words: &[&[u8]],
    pairs: &'a mut Vec<EdgeProducts>,
) -> Result<Option<Keep<'a>>, AllocError>
    ensures { IfOk result (λ keep. option_map keep_fields keep
        ≡ keep_in (map (λ word. word.now) words.now)) }
{
    let [register, node, through, rest @ ..] = words else {
        return Ok(None);
    };
    let (Some(register), Some(node), Some(through), Some(edges)) = (
        register_of(register),
        natural_number(node),
        natural_number(through),
        edges_in(alloc, rest)?,
    ) else {
        return Ok(None);
    };
    *pairs = edges;
    Ok(Some(Keep {
        register,
        node,
        through,
        edges: EdgePairs::new(pairs.as_slice()),
    }))
}

/// Returns the fields of a line of any form. Its pairs are stored in `pairs`.
pub(crate) fn parse_line_in<'a, 'b>(
    alloc: Global,
    line: &Line<'a>,
    pairs: &'b mut Vec<EdgeProducts>,
) -> Result<Option<ParsedLine<'a, 'b>>, AllocError>
    ensures { IfOk result (λ said. option_map parsed_fields said
        ≡ parse_line_in (line_of line.now)) }
{
    let Some((word, rest)) = line.words.as_slice().split_first() else {
        return Ok(None);
    };
    let Some(kind) = LineKind::of(word) else {
        return Ok(None);
    };
    if let LineKind::Keep = kind {
        let Some(keep) = keep_in(alloc, rest, pairs)? else {
            return Ok(None);
        };
        let part = body_at(line.number, Entry::Keep(keep));
        return Ok(Some(ParsedLine::Before(part)));
    }
    Ok(parse_line_after(line.number, kind, rest))
}

/// Returns the fields of a line of a kind other than KEEP, from the words after the first one.
fn parse_line_after<'a, 'b>(
    line: u64,
    kind: LineKind,
    words: &[&'a [u8]],
) -> Option<ParsedLine<'a, 'b>>
    ensures { kind ≢ kinds.Keep → option_map parsed_fields result
        ≡ parse_line_after line kind (map (λ word. word.now) words.now) }
{
    let part = match kind {
        LineKind::Node => LineBeforeEnd::Node(node_in(line, words)?),
        LineKind::Chain => LineBeforeEnd::Chain(chain_in(line, words)?),
        LineKind::Row => LineBeforeEnd::Row(row_in(line, words)?),
        LineKind::Condition(kind) => body_at(line, Entry::Condition(condition_in(kind, words)?)),
        LineKind::Instruction(kind) => {
            body_at(line, Entry::Instruction(instruction_in(kind, words)?))
        }
        LineKind::Join => body_at(line, Entry::Join(number_in(words)?)),
        LineKind::End => {
            let row = number_in(words)?;
            return Some(ParsedLine::End(EndLine { line, row }));
        }
        LineKind::Keep => return None,
    };
    Some(ParsedLine::Before(part))
}

/// Returns a line of a condition's step, an instruction or a join.
fn body_at<'a, 'b>(line: u64, entry: Entry<'b>) -> LineBeforeEnd<'a, 'b>
    ensures { Before (fields_before_end result) ≡ body_at line (entry_fields entry.entry) }
{
    LineBeforeEnd::Body(BodyLine { line, entry })
}
