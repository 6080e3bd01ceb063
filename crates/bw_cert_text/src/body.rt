//! The lines after the product rows, stored in little memory.
ghost use Rattle.std.specs.Prelude.{◌≡◌, ◌++◌, ◌∷◌, [], length, MatchOption, OnOk, OnErr, is_ok};
ghost use Rattle.std.specs.Prelude.{if◌then◌else◌};
ghost use Rattle.bw_cert_text.specs.StoredLines.{line_of, entry_of, condition_of, pairs_of};
ghost use Rattle.bw_cert_text.specs.declared.lines.Entry.TheVariants as said;

use crate::edge_pairs::EdgePairs;
use crate::lines::{BodyLine, ConditionEntry, EdgeProducts, Entry, InstructionEntry, Keep};
use crate::stored_form::{KeptRegister, StoredForm};
use std::alloc::{AllocError, Global};
use std::marker::Model;

/// The lines of conditions, instructions and joins, in order.
///
/// A line has four bytes for its form, eight for its own number and for each number on it, and
/// eight for the number of a line KEEP's pairs. As a number has at least two bytes of text, a digit
/// and a blank, that is at most four bytes for each byte of the text.
#[derive(Drop)]
pub struct Body {
    forms: Vec<StoredForm>,
    /// The numbers of all lines, one line after another: each line's own, then those on it.
    numbers: Vec<u64>,
    /// The pairs of all lines KEEP, one line after another.
    pairs: Vec<EdgeProducts>,
}

impl Model for Body {
    ghost use Rattle.std.specs.Prelude.{List, IsTrue};
    ghost use Rattle.bw_cert_text.specs.declared.lines.BodyLine.{BodyLine};
    ghost use Rattle.bw_cert_text.specs.StoredLines.{lines_of, are_all};

    ghost Value = { List BodyLine };

    ghost view = { λ body. lines_of body.forms.items body.numbers.items body.pairs.items };

    ghost invariant = { λ body. IsTrue
        (are_all body.forms.items body.numbers.items body.pairs.items) };
}

impl Body {
    ghost use Rattle.bw_cert_text.specs.BodyLines.{body_lines};
    ghost use Rattle.bw_cert_text.specs.StoredLines.{size, pairs_of, line_of};

    /// Returns no lines.
    #[tactic(auto, unfolding(crate::specs::StoredLines::lines_of, crate::specs::StoredLines::are_all))]
    pub fn new(alloc: Global) -> Self
        ensures { result ≡ [] }
    {
        Body {
            forms: Vec::new(alloc),
            numbers: Vec::new(alloc),
            pairs: Vec::new(alloc),
        }
    }

    /// Returns the lines, unread from the first one on.
    #[tactic(auto, unfolding(crate::specs::BodyLines::body_lines))]
    pub fn lines(&self) -> BodyLines<'_>
        ensures { body_lines result ≡ self.now }
    {
        BodyLines {
            forms: self.forms.as_slice(),
            numbers: self.numbers.as_slice(),
            pairs: self.pairs.as_slice(),
        }
    }

    /// Returns how many lines there are.
    pub fn len(&self) -> usize
        ensures { result ≡ length self.now }
    {
        self.forms.len()
    }

    /// Adds a line. Fails if memory is refused; the lines are then as they were.
    pub fn push(&mut self, line: &BodyLine<'_>) -> Result<(), AllocError>
        ensures { self.new ≡ (if is_ok result then self.old ++ line.now ∷ [] else self.old) }
    {
        match &line.entry {
            Entry::Condition(entry) => self.push_condition(line.line, *entry),
            Entry::Instruction(entry) => self.push_instruction(line.line, *entry),
            Entry::Join(target) => self.put(StoredForm::Join, &[line.line, *target], &[]),
            Entry::Keep(keep) => self.push_keep(line.line, keep),
        }
    }

    /// Adds the line of a condition's step.
    fn push_condition(&mut self, line: u64, entry: ConditionEntry) -> Result<(), AllocError>
        ensures { self.new ≡ (if is_ok result then self.old
            ++ record { line = line; entry = said.Condition entry } ∷ [] else self.old) }
    {
        match entry {
            ConditionEntry::Compare {
                chain,
                value,
                yes,
                no,
            } => {
                let form = StoredForm::Compare {
                    chain: chain.is_some(),
                    value: value.is_some(),
                };
                let (chain, value) = (chain.unwrap_or(0), value.unwrap_or(0));
                self.put(form, &[line, chain, value, yes, no], &[])
            }
            ConditionEntry::CompareColumns {
                chain,
                left,
                right,
                both,
                yes,
                no,
            } => {
                let form = StoredForm::CompareColumns {
                    chain: chain.is_some(),
                    left: left.is_some(),
                    right: right.is_some(),
                };
                let chain = chain.unwrap_or(0);
                let (left, right) = (left.unwrap_or(0), right.unwrap_or(0));
                self.put(form, &[line, chain, left, right, both, yes, no], &[])
            }
            ConditionEntry::Fixed => self.put(StoredForm::Fixed, &[line], &[]),
            ConditionEntry::NullTest(i) => self.put(StoredForm::NullTest, &[line, i], &[]),
            ConditionEntry::And(i, j) => self.put(StoredForm::And, &[line, i, j], &[]),
            ConditionEntry::Or(i, j) => self.put(StoredForm::Or, &[line, i, j], &[]),
            ConditionEntry::Not => self.put(StoredForm::Not, &[line], &[]),
            ConditionEntry::Is(i) => self.put(StoredForm::Is, &[line, i], &[]),
            ConditionEntry::IsUnknown(i, j) => self.put(StoredForm::IsUnknown, &[line, i, j], &[]),
        }
    }

    /// Adds the line of an instruction.
    fn push_instruction(&mut self, line: u64, entry: InstructionEntry) -> Result<(), AllocError>
        ensures { self.new ≡ (if is_ok result then self.old
            ++ record { line = line; entry = said.Instruction entry } ∷ [] else self.old) }
    {
        match entry {
            InstructionEntry::Load(node) => self.put(StoredForm::Load, &[line, node], &[]),
            InstructionEntry::Fill => self.put(StoredForm::Fill, &[line], &[]),
            InstructionEntry::Op(i) => self.put(StoredForm::Op, &[line, i], &[]),
            InstructionEntry::Byte(chain) => {
                let form = StoredForm::Byte {
                    chain: chain.is_some(),
                };
                self.put(form, &[line, chain.unwrap_or(0)], &[])
            }
            InstructionEntry::Skip => self.put(StoredForm::Skip, &[line], &[]),
        }
    }

    /// Adds the line of a register that a join keeps.
    fn push_keep(&mut self, line: u64, keep: &Keep<'_>) -> Result<(), AllocError>
        ensures { self.new ≡ (if is_ok result then self.old
            ++ record { line = line; entry = said.Keep keep.now } ∷ [] else self.old) }
    {
        let pairs = keep.edges.as_slice();
        let form = StoredForm::Keep(KeptRegister {
            register: keep.register,
        });
        let numbers = [line, keep.node, keep.through, pairs.len() as u64];
        self.put(form, &numbers, pairs)
    }

    /// Adds a line of this form, with these numbers and pairs.
    fn put(
        &mut self,
        form: StoredForm,
        numbers: &[u64],
        pairs: &[EdgeProducts],
    ) -> Result<(), AllocError>
        requires numbers { length numbers.now ≡ size form }
        requires pairs { length pairs.now ≡ pairs_of form numbers.now }
        ensures { self.new ≡ (if is_ok result then self.old
            ++ line_of form numbers.now pairs.now ∷ [] else self.old) }
    {
        self.forms.reserve(1)?;
        self.numbers.reserve(numbers.len())?;
        self.pairs.extend_from_slice(pairs)?;
        self.numbers.extend_from_slice(numbers)?;
        self.forms.push(form)?;
        Ok(())
    }
}

/// Returns how many pairs a line of this form has.
fn pairs_in(form: StoredForm, numbers: &[u64]) -> u64
    ensures { result ≡ pairs_of form numbers.now }
{
    match (form, numbers) {
        (StoredForm::Keep(_), [_, _, _, count]) => *count,
        _ => 0,
    }
}

/// Lines that are still unread.
#[derive(Clone, Copy)]
pub struct BodyLines<'a> {
    pub(crate) forms: &'a [StoredForm],
    pub(crate) numbers: &'a [u64],
    pub(crate) pairs: &'a [EdgeProducts],
}

impl<'a> BodyLines<'a> {
    ghost use Rattle.bw_cert_text.specs.BodyLines.{body_lines};

    /// Returns the next line and those after it, if there is one.
    pub fn next(self) -> Option<(BodyLine<'a>, BodyLines<'a>)>
        ensures cases { MatchOption result (body_lines self.entry ≡ [])
            (λ next. body_lines self.entry ≡ next.0 ∷ body_lines next.1) }
    {
        let (form, forms) = self.forms.split_first()?;
        let (own, numbers) = self.numbers.split_at_checked(form.size())?;
        let count = pairs_in(*form, own);
        if count > self.pairs.len() as u64 {
            return None;
        }
        let (edges, pairs) = self.pairs.split_at(count as usize);
        let line = line_in(*form, own, edges);
        Some((
            line,
            BodyLines {
                forms,
                numbers,
                pairs,
            },
        ))
    }
}

/// Returns the line of this form, with these numbers and pairs.
fn line_in<'a>(form: StoredForm, numbers: &[u64], pairs: &'a [EdgeProducts]) -> BodyLine<'a>
    ensures { result ≡ line_of form numbers.now pairs.now }
{
    match numbers {
        [line, rest @ ..] => BodyLine {
            line: *line,
            entry: entry_in(form, rest, pairs),
        },
        [] => BodyLine {
            line: 0,
            entry: entry_in(form, numbers, pairs),
        },
    }
}

/// Returns the fields of a line of this form, with these numbers after its own and these pairs.
fn entry_in<'a>(form: StoredForm, numbers: &[u64], pairs: &'a [EdgeProducts]) -> Entry<'a>
    ensures { result ≡ entry_of form numbers.now pairs.now }
{
    match (form, numbers) {
        (StoredForm::Join, [target]) => Entry::Join(*target),
        (StoredForm::Keep(kept), [node, through, _]) => Entry::Keep(Keep {
            register: kept.register,
            node: *node,
            through: *through,
            edges: EdgePairs::new(pairs),
        }),
        (StoredForm::Load, [node]) => Entry::Instruction(InstructionEntry::Load(*node)),
        (StoredForm::Fill, []) => Entry::Instruction(InstructionEntry::Fill),
        (StoredForm::Op, [i]) => Entry::Instruction(InstructionEntry::Op(*i)),
        (StoredForm::Byte { chain: c }, [chain]) => {
            Entry::Instruction(InstructionEntry::Byte(c.then_some(*chain)))
        }
        (StoredForm::Skip, []) => Entry::Instruction(InstructionEntry::Skip),
        _ => Entry::Condition(condition_in(form, numbers)),
    }
}

/// Returns the fields of the line of a condition's step.
fn condition_in(form: StoredForm, numbers: &[u64]) -> ConditionEntry
    ensures { result ≡ condition_of form numbers.now }
{
    match (form, numbers) {
        (StoredForm::Compare { chain: c, value: v }, [chain, value, yes, no]) => {
            ConditionEntry::Compare {
                chain: c.then_some(*chain),
                value: v.then_some(*value),
                yes: *yes,
                no: *no,
            }
        }
        (
            StoredForm::CompareColumns {
                chain: c,
                left: l,
                right: r,
            },
            [chain, left, right, both, yes, no],
        ) => ConditionEntry::CompareColumns {
            chain: c.then_some(*chain),
            left: l.then_some(*left),
            right: r.then_some(*right),
            both: *both,
            yes: *yes,
            no: *no,
        },
        (StoredForm::NullTest, [i]) => ConditionEntry::NullTest(*i),
        (StoredForm::And, [i, j]) => ConditionEntry::And(*i, *j),
        (StoredForm::Or, [i, j]) => ConditionEntry::Or(*i, *j),
        (StoredForm::Not, []) => ConditionEntry::Not,
        (StoredForm::Is, [i]) => ConditionEntry::Is(*i),
        (StoredForm::IsUnknown, [i, j]) => ConditionEntry::IsUnknown(*i, *j),
        _ => ConditionEntry::Fixed,
    }
}
