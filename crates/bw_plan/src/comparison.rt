//! Comparisons of operands, as parts of a condition.
use crate::formula::{Formula, FormulaReader, FormulaResult};
use crate::sets::Set;
use crate::unplanned::Unplanned;
use bw_diagram::ChainKind;
use bw_model::{Op, Operand};
use bw_prover::{Comparison, compare};

impl FormulaReader<'_> {
    /// Returns a comparison of operands. Refuses columns that the schema lacks, and two columns of
    /// unequal minimums.
    pub(crate) fn comparison(&mut self, op: Op, x: Operand, y: Operand) -> FormulaResult {
        match compare(self.schema, op, x, y).ok_or(Unplanned::Limit)? {
            Comparison::Fixed(truth) => Ok(Formula::Fixed(truth)),
            Comparison::Literal(column, compared) => {
                let limits = match compared.kind {
                    ChainKind::Equal => [compared.limit, compared.limit.saturating_add(1)],
                    ChainKind::Less => [0, compared.limit],
                };
                self.codes(column, limits, compared.negated)
            }
            Comparison::Columns(compared) => match compared.terminal() {
                Some(terminal) => self.codes(
                    compared.left,
                    [0, 0],
                    compared.negated != (terminal == 1),
                ),
                None => {
                    self.relations = self.relations.saturating_add(1);
                    Ok(Formula::Columns(compared))
                }
            },
        }
    }

    /// Returns whether a column's code is at least the first limit and below the second, or isn't if
    /// `is_inverted`.
    fn codes(&self, column: usize, limits: [i128; 2], is_inverted: bool) -> FormulaResult {
        let set = Set::between(self.alloc, self.schema, column, limits, is_inverted)?;
        Ok(Formula::Codes(set).simplify(self.schema))
    }
}
