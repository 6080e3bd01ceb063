//! Certificates in their canonical form.
ghost use Rattle.std.specs.Prelude.{ℕ, List, IsTrue, ◌≡◌, ◌++◌, map, IfOk, OnOk, IsOkUnless};
ghost use Rattle.std.specs.List.{list_all};
ghost use Rattle.bw_model.specs.declared.column.Column.{Column};
ghost use Rattle.bw_model.specs.Column.{names_of};
ghost use Rattle.bw_model.specs.Fault.{no_memory};
ghost use Rattle.bw_model.specs.Name.{is_name};
ghost use Rattle.bw_cert_text.specs.BodyLines.{body_lines};
ghost use Rattle.bw_cert_text.specs.CertificateText.{IsCertificateText};
ghost use Rattle.bw_cert_text.specs.Columns.{are_columns, has_columns};
ghost use Rattle.bw_cert_text.specs.Reprint.{is_small, are_small, numbers_fit, renumber};
ghost use Rattle.bw_cert_text.specs.CertificateFields.{CertificateFields, certificate_fields};
ghost use Rattle.bw_cert_text.specs.CertificateFields.{column_fields, chain_fields, keep_fields};
ghost use Rattle.bw_cert_text.specs.CertificateFields.{entry_fields, body_fields};
ghost use Rattle.bw_cert_text.specs.PrintText.{token_text, token_words, token_line, lines_text};
ghost use Rattle.bw_cert_text.specs.PrintText.{body_tokens, schema_spelling, respelled_chain};
ghost use Rattle.bw_cert_text.specs.PrintText.{respell, print_text};
ghost use Rattle.bw_text.specs.Printing.{printed_text, spaced_words};
ghost use Rattle.bw_cert_text.specs.Token.{Token, Key, Number, Perhaps, one_key, two_key};
ghost use Rattle.bw_cert_text.specs.Token.{node_tokens, chain_tokens, row_tokens, condition_tokens};
ghost use Rattle.bw_cert_text.specs.Token.{instruction_tokens, edge_tokens, keep_tokens};
ghost use Rattle.bw_cert_text.specs.Token.{entry_tokens};

use crate::body::BodyLines;
use crate::certificate::Certificate;
use crate::connective::connective_spelling;
use crate::lines::{
    ChainLine, ConditionEntry, EdgeProducts, Entry, InstructionEntry, Keep, NodeLine, ProductLine,
};
use bw_diagram::{ChainColumns, ChainKind, Reason};
use bw_model::{Fault, Schema};
use bw_text::PrintedWord::{self, Word};
use bw_text::{push_line, push_spaced};
use std::alloc::{AllocError, Global};

impl Certificate<'_> {
    /// Returns its canonical text, under a schema that must have the columns that its chains name:
    /// keywords in capitals, single blanks, columns in the schema's spelling, numbers without
    /// leading zeros, `-` for none, and one line feed after each line. The text spells the
    /// certificate, with its lines numbered one after another from any number on. Errors: 801 if
    /// memory is refused.
    pub fn print(&self, alloc: Global, schema: &Schema) -> Result<Vec<u8>, Fault>
        requires { IsTrue (has_columns schema.now.columns.items (certificate_fields self.now)) }
        ensures text { IfOk result
            (λ text. text.items ≡ print_text schema.now.columns.items
            (certificate_fields self.now)) }
        ensures spelled { IfOk result (λ text. (first : ℕ) → IsCertificateText first text.items
            (renumber first (respell schema.now.columns.items (certificate_fields self.now)))) }
        ensures only_oom { IsOkUnless result no_memory }
    {
        schema.has_names_and_bounds();
        let mut text = Vec::new(alloc);
        put_lines(alloc, schema, self.node_lines(), &mut text)?;
        put_lines(alloc, schema, self.chain_lines(), &mut text)?;
        put_lines(alloc, schema, self.product_lines(), &mut text)?;
        put_body(alloc, self.body(), &mut text)?;
        let words = [Word(b"END"), number(self.end().row)];
        push_line(alloc, &words, &mut text)?;
        Ok(text)
    }

    /// Returns whether a schema has the columns that its chains name.
    pub fn has_columns(&self, schema: &Schema) -> bool
        ensures { result ≡ has_columns schema.now.columns.items (certificate_fields self.now) }
    {
        are_all_named(schema, self.chain_lines())
    }
}

/// Returns whether a schema has the columns that the chains name.
fn are_all_named(schema: &Schema, chains: &[ChainLine<'_>]) -> bool
    ensures { result ≡ list_all
        (λ chain. are_columns schema.now.columns.items (column_fields chain.columns)) chains.now }
{
    chains.iter().all(|chain| is_named(schema, chain))
}

/// Returns whether a schema has the columns that a chain names.
fn is_named(schema: &Schema, chain: &ChainLine<'_>) -> bool
    ensures { result ≡ are_columns schema.now.columns.items (column_fields chain.now.columns) }
{
    match chain.columns {
        ChainColumns::One { column, .. } => schema.column_named(column).is_some(),
        ChainColumns::Two { left, right, .. } => {
            schema.column_named(left).is_some() && schema.column_named(right).is_some()
        }
    }
}

/// A law: the canonical text of a certificate spells it, in the schema's spelling and with its
/// lines numbered one after another, from any number on. This needs columns of the schema, valid
/// names, numbers below 2^64, and registers r0 to r63. So a printed certificate is read back with
/// the same fields in the same order.
pub fn canonical_texts_spell_certificates()
    ensures { (columns : List Column) (first : ℕ) (certificate : CertificateFields)
        → IsTrue (list_all is_name (names_of columns)) → IsTrue (numbers_fit certificate)
        → IsTrue (has_columns columns certificate)
        → IsCertificateText first (print_text columns certificate)
        (renumber first (respell columns certificate)) }
{}

/// A law: if a text spells a certificate, its numbers are below 2^64, and its registers r0 to r63.
pub fn spelled_numbers_fit()
    ensures { (first : ℕ) (text : List ℕ) (certificate : CertificateFields)
        → IsCertificateText first text certificate → IsTrue (numbers_fit certificate) }
{}

/// A line of a node, a chain or a product row.
trait SectionLine {
    /// Its words, with columns in the schema's spelling.
    ghost tokens: { List Column → Self → List Token };

    /// Its words as they are.
    ghost own_tokens: { Self → List Token };

    /// Appends the line.
    fn put(&self, alloc: Global, schema: &Schema, text: &mut Vec<u8>) -> Result<(), AllocError>
        ensures text { OnOk result (text.new.items ≡ text.old.items
            ++ token_line (tokens schema.now.columns.items self.now)) }
        ensures fit { IsTrue (are_small (own_tokens self.now)) };
}

/// Appends lines, one after another.
fn put_lines<L: SectionLine>(
    alloc: Global,
    schema: &Schema,
    lines: &[L],
    text: &mut Vec<u8>,
) -> Result<(), AllocError>
    ensures text { OnOk result (text.new.items ≡ text.old.items
        ++ lines_text (L.tokens schema.now.columns.items) lines.now) }
    ensures fit { OnOk result
        (IsTrue (list_all (λ line. are_small (L.own_tokens line)) lines.now)) }
{
    for line in lines {
        line.put(alloc, schema, text)?;
    }
    Ok(())
}

impl SectionLine for NodeLine {
    ghost tokens = { λ _. node_tokens };

    ghost own_tokens = { node_tokens };

    fn put(&self, alloc: Global, _schema: &Schema, text: &mut Vec<u8>) -> Result<(), AllocError> {
        let (n, v) = (number(self.n), number(self.v));
        let (low, high) = (number(self.low), number(self.high));
        push_line(alloc, &[Word(b"NODE"), n, v, low, high], text)
    }
}

impl SectionLine for ChainLine<'_> {
    ghost tokens = { λ columns chain. chain_tokens (respelled_chain columns (chain_fields chain)) };

    ghost own_tokens = { λ chain. chain_tokens (chain_fields chain) };

    fn put(&self, alloc: Global, schema: &Schema, text: &mut Vec<u8>) -> Result<(), AllocError> {
        put_chain(alloc, schema, self, text)
    }
}

impl SectionLine for ProductLine {
    ghost tokens = { λ _. row_tokens };

    ghost own_tokens = { row_tokens };

    fn put(&self, alloc: Global, _schema: &Schema, text: &mut Vec<u8>) -> Result<(), AllocError> {
        let (row, n) = (Word(b"ROW"), number(self.n));
        let op = Word(connective_spelling(self.op));
        let (a, b, c) = (number(self.a), number(self.b), number(self.c));
        match self.reason {
            Reason::Shortcut => push_line(alloc, &[row, n, op, a, b, c, Word(b"S")], text),
            Reason::Cofactors { v, i, j } => {
                let (v, i, j) = (number(v), number(i), number(j));
                let words = [row, n, op, a, b, c, Word(b"V"), v, i, j];
                push_line(alloc, &words, text)
            }
        }
    }
}

/// Appends the line of a chain.
fn put_chain<'a>(
    alloc: Global,
    schema: &'a Schema,
    chain: &'a ChainLine<'a>,
    text: &mut Vec<u8>,
) -> Result<(), AllocError>
    ensures text { OnOk result (text.new.items ≡ text.old.items
        ++ token_line (chain_tokens
        (respelled_chain schema.now.columns.items (chain_fields chain.now)))) }
    ensures fit { IsTrue (are_small (chain_tokens (chain_fields chain.now))) }
{
    let (key, n) = (Word(b"CHAIN"), number(chain.n));
    match chain.columns {
        ChainColumns::One {
            kind,
            column,
            start,
            len,
            bound,
            node,
            prev,
        } => {
            let (form, column) = (Word(one_key(kind)), Word(name_of(schema, column)));
            let (start, len, bound) = (number(start), number(len), number(bound));
            let (node, prev) = (number(node), perhaps(prev));
            let words = [key, n, form, column, start, len, bound, node, prev];
            push_line(alloc, &words, text)
        }
        ChainColumns::Two {
            kind,
            left,
            right,
            len,
            node,
            prev,
        } => {
            let form = Word(two_key(kind));
            let (left, right) = (name_of(schema, left), name_of(schema, right));
            let (len, node, prev) = (number(len), number(node), perhaps(prev));
            let words = [key, n, form, Word(left), Word(right), len, node, prev];
            push_line(alloc, &words, text)
        }
    }
}

/// Returns the word of a chain that compares a column with a number.
fn one_key(kind: ChainKind) -> &'static [u8]
    ensures { Key result.now ≡ one_key kind }
{
    match kind {
        ChainKind::Less => b"LT",
        ChainKind::Equal => b"EQ",
    }
}

/// Returns the word of a chain that compares two columns.
fn two_key(kind: ChainKind) -> &'static [u8]
    ensures { Key result.now ≡ two_key kind }
{
    match kind {
        ChainKind::Less => b"LT2",
        ChainKind::Equal => b"EQ2",
    }
}

/// Returns the name of the schema's column that a word names, in the schema's spelling, or the word
/// itself if it names none.
fn name_of<'a>(schema: &'a Schema, word: &'a [u8]) -> &'a [u8]
    ensures { result.now ≡ schema_spelling schema.now.columns.items word.now }
{
    match schema.column_named(word) {
        None => word,
        Some(column) => schema.columns[column].name.as_bytes(),
    }
}

/// Appends the lines of conditions, instructions and joins.
fn put_body(alloc: Global, body: BodyLines<'_>, text: &mut Vec<u8>) -> Result<(), AllocError>
    ensures text { OnOk result (text.new.items ≡ text.old.items
        ++ lines_text (λ line. body_tokens (body_fields line)) (body_lines body.entry)) }
    ensures fit { OnOk result
        (IsTrue (list_all (λ line. are_small (body_tokens (body_fields line)))
        (body_lines body.entry))) }
{
    let mut rest = body;
    while let Some((line, more)) = rest.next() {
        put_entry(alloc, &line.entry, text)?;
        rest = more;
    }
    Ok(())
}

/// Appends a line of the body, without its number.
fn put_entry(alloc: Global, entry: &Entry<'_>, text: &mut Vec<u8>) -> Result<(), AllocError>
    ensures text { OnOk result (text.new.items ≡ text.old.items
        ++ token_line (entry_tokens (entry_fields entry.now))) }
    ensures fit { OnOk result (IsTrue (are_small (entry_tokens (entry_fields entry.now)))) }
{
    match entry {
        Entry::Condition(entry) => put_condition(alloc, *entry, text),
        Entry::Instruction(entry) => put_instruction(alloc, *entry, text),
        Entry::Join(target) => push_line(alloc, &[Word(b"JOIN"), number(*target)], text),
        Entry::Keep(keep) => put_keep(alloc, keep, text),
    }
}

/// Appends the line of a condition's step.
fn put_condition(alloc: Global, entry: ConditionEntry, text: &mut Vec<u8>) -> Result<(), AllocError>
    ensures text { OnOk result (text.new.items ≡ text.old.items
        ++ token_line (condition_tokens entry)) }
    ensures fit { IsTrue (are_small (condition_tokens entry)) }
{
    match entry {
        ConditionEntry::Compare {
            chain,
            value,
            yes,
            no,
        } => {
            let (chain, value) = (perhaps(chain), perhaps(value));
            let words = [Word(b"CMP"), chain, value, number(yes), number(no)];
            push_line(alloc, &words, text)
        }
        ConditionEntry::CompareColumns {
            chain,
            left,
            right,
            both,
            yes,
            no,
        } => {
            let (chain, left, right) = (perhaps(chain), perhaps(left), perhaps(right));
            let (both, yes, no) = (number(both), number(yes), number(no));
            let words = [Word(b"CMP2"), chain, left, right, both, yes, no];
            push_line(alloc, &words, text)
        }
        ConditionEntry::Fixed => push_line(alloc, &[Word(b"FIXED")], text),
        ConditionEntry::NullTest(i) => push_line(alloc, &[Word(b"NULLTEST"), number(i)], text),
        ConditionEntry::And(i, j) => push_line(alloc, &[Word(b"AND"), number(i), number(j)], text),
        ConditionEntry::Or(i, j) => push_line(alloc, &[Word(b"OR"), number(i), number(j)], text),
        ConditionEntry::Not => push_line(alloc, &[Word(b"NOT")], text),
        ConditionEntry::Is(i) => push_line(alloc, &[Word(b"IS"), number(i)], text),
        ConditionEntry::IsUnknown(i, j) => {
            push_line(alloc, &[Word(b"IS"), number(i), number(j)], text)
        }
    }
}

/// Appends the line of an instruction.
fn put_instruction(
    alloc: Global,
    entry: InstructionEntry,
    text: &mut Vec<u8>,
) -> Result<(), AllocError>
    ensures text { OnOk result (text.new.items ≡ text.old.items
        ++ token_line (instruction_tokens entry)) }
    ensures fit { IsTrue (are_small (instruction_tokens entry)) }
{
    match entry {
        InstructionEntry::Load(node) => push_line(alloc, &[Word(b"LOAD"), number(node)], text),
        InstructionEntry::Fill => push_line(alloc, &[Word(b"FILL")], text),
        InstructionEntry::Op(i) => push_line(alloc, &[Word(b"OP"), number(i)], text),
        InstructionEntry::Byte(chain) => push_line(alloc, &[Word(b"BYTE"), perhaps(chain)], text),
        InstructionEntry::Skip => push_line(alloc, &[Word(b"SKIP")], text),
    }
}

/// Appends the line of a register that a join keeps.
fn put_keep(alloc: Global, keep: &Keep<'_>, text: &mut Vec<u8>) -> Result<(), AllocError>
    ensures text { OnOk result (text.new.items ≡ text.old.items
        ++ token_line (keep_tokens (keep_fields keep.now))) }
    ensures fit { OnOk result (IsTrue (are_small (keep_tokens (keep_fields keep.now)))) }
{
    let (node, through) = (number(keep.node), number(keep.through));
    let words = [PrintedWord::Register(keep.register), node, through];
    text.extend_from_slice(b"KEEP")?;
    push_spaced(alloc, &words, text)?;
    put_edges(alloc, keep.edges.as_slice(), text)?;
    text.push(b'\n')?;
    Ok(())
}

/// Appends pairs of numbers, each number after a blank.
fn put_edges(alloc: Global, edges: &[EdgeProducts], text: &mut Vec<u8>) -> Result<(), AllocError>
    ensures text { OnOk result (text.new.items ≡ text.old.items
        ++ spaced_words (token_words (edge_tokens edges.now))) }
    ensures fit { OnOk result (IsTrue (are_small (edge_tokens edges.now))) }
{
    for edge in edges {
        let words = [number(edge.differs), number(edge.within)];
        push_spaced(alloc, &words, text)?;
    }
    Ok(())
}

/// Returns a number as a word of a line.
fn number(number: u64) -> PrintedWord<'static>
    ensures text { printed_text result ≡ token_text (Number number) }
    ensures fit { IsTrue (is_small (Number number)) }
{
    PrintedWord::Number(number)
}

/// Returns a number, or `-` for none, as a word of a line.
fn perhaps(number: Option<u64>) -> PrintedWord<'static>
    ensures text { printed_text result ≡ token_text (Perhaps number) }
    ensures fit { IsTrue (is_small (Perhaps number)) }
{
    match number {
        Some(number) => PrintedWord::Number(number),
        None => Word(b"-"),
    }
}
