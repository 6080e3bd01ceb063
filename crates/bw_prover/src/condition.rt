//! The lines of a condition's steps, operands first, each with the nodes of where it is TRUE and
//! where it is FALSE.
ghost use Rattle.std.specs.Prelude.{◌≤◌, IsTrue, IfOk, length};
ghost use Rattle.std.specs.List.{list_all};
ghost use Rattle.bw_model.specs.declared.cond.Op.TheVariants.{Eq};
ghost use Rattle.bw_prover.specs.Growth.{HasGrown};
ghost use Rattle.bw_prover.specs.Rules.{has_rules, is_comparable};

use crate::chain::Link;
use crate::columns::width_of;
use crate::comparison::{Comparison, compare};
use crate::facts::Cited;
use crate::prover::Prover;
use crate::unproved::Unproved;
use bw_cert_text::{ConditionEntry, Entry};
use bw_diagram::{ColumnComparison, Connective, LiteralComparison, TruthPair};
use bw_model::{Cond, Junction, Op, Operand, Truth};

/// The node that is 1 where a condition is TRUE, and the node that is 1 where it is FALSE.
type TruthNodes = TruthPair<u64>;

/// These nodes, or why they have no certificate.
type NodesResult = Result<TruthNodes, Unproved>;

impl Prover<'_> {
    /// Returns the nodes of a condition, and appends the lines of its steps, operands first.
    #[tactic(auto, using(crate::proofs::RuleLemmas::rules))]
    #[cycle(steps)]
    pub(crate) fn steps(&mut self, cond: &Cond) -> NodesResult
        ensures grown { HasGrown self.old.facts self.new.facts }
        ensures rules { IfOk result (λ _.
            IsTrue (has_rules self.old.facts.schema.now.columns.items cond.now)) }
    {
        match cond {
            Cond::Always => self.put_fixed(Truth::Yes),
            Cond::Cmp(op, x, y) => self.put_comparison(*op, *x, *y),
            Cond::Between(x, y, z) => {
                let lower = self.put_comparison(Op::Ge, *x, *y)?;
                let upper = self.put_comparison(Op::Le, *x, *z)?;
                self.put_connective(Junction::All, lower, upper)
            }
            Cond::Among(x, items) => self.put_list(*x, items),
            Cond::IsNull(x) => self.put_null_test(*x),
            Cond::And(parts) => self.put_parts(Junction::All, parts),
            Cond::Or(parts) => self.put_parts(Junction::Any, parts),
            Cond::Not(part) => {
                let made = self.steps(part)?;
                self.put_step(ConditionEntry::Not, made.no, made.yes)
            }
            Cond::Test(part, truth) => {
                let made = self.steps(part)?;
                self.put_truth_test(*truth, made)
            }
        }
    }

    /// Returns the nodes of joined parts.
    #[cycle(steps)]
    fn put_parts(&mut self, junction: Junction, parts: &[Cond]) -> NodesResult
        ensures grown { HasGrown self.old.facts self.new.facts }
        ensures rules { IfOk result (λ _. (1 ≤ length parts.now)
            × IsTrue (list_all (has_rules self.old.facts.schema.now.columns.items) parts.now)) }
    {
        let (first, others) = parts.split_first().ok_or(Unproved::NoRule)?;
        let mut made = self.steps(first)?;
        let before = self.facts.products.count;
        for (joined, part) in others.iter().enumerate() {
            self.forecast(before, joined, others.len())?;
            let next = self.steps(part)?;
            made = self.put_connective(junction, made, next)?;
        }
        Ok(made)
    }

    /// Refuses if the limit of product rows would be passed, if each of so many parts took as many
    /// rows as those that are joined so far did on average. What a part is joined with grows, so
    /// most take more.
    fn forecast(&self, before: u32, joined: usize, parts: usize) -> Result<(), Unproved> {
        let products = &self.facts.products;
        let taken = i128::from(products.count) - i128::from(before);
        let left = i128::from(products.limit) - i128::from(before);
        let each = taken / (joined as i128).max(1);
        if products.count >= self.forecast_from && each > left / (parts as i128).max(1) {
            return Err(products.limit_fault());
        }
        Ok(())
    }

    /// Returns the nodes of the OR of the equations of a list with one operand.
    fn put_list(&mut self, x: Operand, items: &[Operand]) -> NodesResult
        ensures grown { HasGrown self.old.facts self.new.facts }
        ensures rules { IfOk result (λ _. (1 ≤ length items.now)
            × IsTrue (list_all (is_comparable self.old.facts.schema.now.columns.items Eq x)
            items.now)) }
    {
        let (first, others) = items.split_first().ok_or(Unproved::NoRule)?;
        let mut made = self.put_comparison(Op::Eq, x, *first)?;
        for item in others {
            let next = self.put_comparison(Op::Eq, x, *item)?;
            made = self.put_connective(Junction::Any, made, next)?;
        }
        Ok(made)
    }

    /// Appends the line of a step, and returns its nodes.
    fn put_step(&mut self, entry: ConditionEntry, yes: u64, no: u64) -> NodesResult
        ensures grown { HasGrown self.old.facts self.new.facts }
    {
        self.put(Entry::Condition(entry))?;
        Ok(TruthPair::of(yes, no))
    }

    /// Returns the nodes of a step with one truth on every row.
    fn put_fixed(&mut self, truth: Truth) -> NodesResult
        ensures grown { HasGrown self.old.facts self.new.facts }
    {
        let (yes, no) = (truth == Truth::Yes, truth == Truth::No);
        self.put_step(ConditionEntry::Fixed, u64::from(yes), u64::from(no))
    }

    /// Returns the nodes of two joined parts.
    fn put_connective(&mut self, junction: Junction, a: TruthNodes, b: TruthNodes) -> NodesResult
        ensures grown { HasGrown self.old.facts self.new.facts }
    {
        let is_any = junction == Junction::Any;
        let ops = TruthPair::of(Connective::And, Connective::Or).opposite_if(is_any);
        let yes = self.facts.row(ops.yes, a.yes, b.yes)?;
        let no = self.facts.row(ops.no, a.no, b.no)?;
        let (i, j) = (yes.number, no.number);
        let entry = match junction {
            Junction::All => ConditionEntry::And(i, j),
            Junction::Any => ConditionEntry::Or(i, j),
        };
        self.put_step(entry, yes.node, no.node)
    }

    /// Returns the nodes of `IS TRUE`, `IS FALSE` or `IS UNKNOWN`.
    fn put_truth_test(&mut self, truth: Truth, made: TruthNodes) -> NodesResult
        ensures grown { HasGrown self.old.facts self.new.facts }
    {
        let yes = match truth {
            Truth::Yes => made.yes,
            Truth::No => made.no,
            Truth::Unknown => {
                let known = self.facts.row(Connective::Or, made.yes, made.no)?;
                let other = self.opposite(known.node)?;
                let entry = ConditionEntry::IsUnknown(known.number, other.number);
                return self.put_step(entry, other.node, known.node);
            }
        };
        let no = self.opposite(yes)?;
        self.put_step(ConditionEntry::Is(no.number), yes, no.node)
    }

    /// Returns the row of a node's complement.
    fn opposite(&mut self, node: u64) -> Result<Cited, Unproved>
        ensures grown { HasGrown self.old.facts self.new.facts }
    {
        self.facts.row(Connective::Diff, 1, node)
    }

    /// Returns the nodes of `IS NULL`.
    fn put_null_test(&mut self, x: Operand) -> NodesResult
        ensures grown { HasGrown self.old.facts self.new.facts }
    {
        let Some(yes) = self.facts.nulls(x)? else {
            return self.put_fixed(Truth::of(x == Operand::Null));
        };
        let no = self.opposite(yes)?;
        self.put_step(ConditionEntry::NullTest(no.number), yes, no.node)
    }

    /// Returns the nodes of a comparison.
    fn put_comparison(&mut self, op: Op, x: Operand, y: Operand) -> NodesResult
        ensures grown { HasGrown self.old.facts self.new.facts }
        ensures rule { IfOk result (λ _.
            IsTrue (is_comparable self.old.facts.schema.now.columns.items op x y)) }
    {
        match compare(self.facts.schema, op, x, y).ok_or(Unproved::NoRule)? {
            Comparison::Fixed(truth) => self.put_fixed(truth),
            Comparison::Literal(column, compared) => self.put_literal_comparison(column, compared),
            Comparison::Columns(compared) => self.put_columns(x, y, compared),
        }
    }

    /// Returns the row and the node that is 1 if an operand, a column, has a value: none, and 1, if
    /// it always has.
    fn values(&mut self, x: Operand) -> Result<(Option<u64>, u64), Unproved>
        ensures grown { HasGrown self.old.facts self.new.facts }
    {
        let Some(nulls) = self.facts.nulls(x)? else {
            return Ok((None, 1));
        };
        let values = self.opposite(nulls)?;
        Ok((Some(values.number), values.node))
    }

    /// Returns the rows of where node `m` is 1 and node `e` is 1, or is 0.
    fn sides(&mut self, m: u64, e: u64) -> Result<TruthPair<Cited>, Unproved>
        ensures grown { HasGrown self.old.facts self.new.facts }
    {
        let yes = self.facts.row(Connective::And, m, e)?;
        let no = self.facts.row(Connective::Diff, m, e)?;
        Ok(TruthPair::of(yes, no))
    }

    /// Returns the nodes of a comparison of a column with a number.
    fn put_literal_comparison(&mut self, column: usize, compared: LiteralComparison) -> NodesResult
        ensures grown { HasGrown self.old.facts self.new.facts }
    {
        let width = width_of(self.facts.schema, column).ok_or(Unproved::NoRule)?;
        let (value, m) = self.values(Operand::Col(column))?;
        let limit = u64::try_from(compared.limit).unwrap_or(0);
        let link = Link::of(compared.kind, column, 0, width, limit);
        let (chain, e) = self.facts.chain_unless(compared.terminal(width), link)?;
        let TruthPair { yes, no } = self.sides(m, e)?;
        let entry = ConditionEntry::Compare {
            chain,
            value,
            yes: yes.number,
            no: no.number,
        };
        let made = self.put_step(entry, yes.node, no.node)?;
        Ok(made.opposite_if(compared.negated))
    }

    /// Returns the nodes of a comparison of two columns, the shorter one with zeros above its top
    /// bit.
    fn put_columns(&mut self, x: Operand, y: Operand, compared: ColumnComparison) -> NodesResult
        ensures grown { HasGrown self.old.facts self.new.facts }
    {
        let width = width_of(self.facts.schema, compared.left).ok_or(Unproved::NoRule)?;
        let len = width.max(width_of(self.facts.schema, compared.right).ok_or(Unproved::NoRule)?);
        let (left, m) = self.values(x)?;
        let (right, n) = self.values(y)?;
        let both = self.facts.row(Connective::And, m, n)?;
        let link = Link {
            right: Some(compared.right),
            ..Link::of(compared.kind, compared.left, 0, len, 0)
        };
        let (chain, e) = self.facts.chain_unless(compared.terminal(), link)?;
        let TruthPair { yes, no } = self.sides(both.node, e)?;
        let entry = ConditionEntry::CompareColumns {
            chain,
            left,
            right,
            both: both.number,
            yes: yes.number,
            no: no.number,
        };
        let made = self.put_step(entry, yes.node, no.node)?;
        Ok(made.opposite_if(compared.negated))
    }
}
