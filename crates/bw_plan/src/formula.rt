//! The parts of a condition as instructions compute them: comparisons of one column with literals
//! that an AND or OR combines are one set of codes.
use crate::columns::{index_of, is_nullable};
use crate::limits::{LONG_SET, MANY_LEVELS, MAX_LIST};
use crate::sets::Set;
use crate::unplanned::Unplanned;
use bw_diagram::ColumnComparison;
use bw_model::{Cond, Junction, Op, Operand, Schema, Truth};
use bw_program::ColumnIndex;
use std::alloc::Global;

/// A condition, or a part of it.
#[derive(Drop)]
pub(crate) enum Formula {
    /// The same truth on every row.
    Fixed(Truth),
    /// Whether a column's code is in a set.
    Codes(Set),
    /// A comparison of two columns.
    Columns(ColumnComparison),
    /// Whether a column, which may be null, is null.
    Null(ColumnIndex),
    /// Whether a part has this truth.
    Test(Box<Formula>, Truth),
    /// The opposite of a part.
    Not(Box<Formula>),
    /// Joined parts, and how many levels of parts there are.
    Joined(Junction, Vec<Formula>, usize),
}

/// A part, unless it has no program or memory was refused.
pub(crate) type FormulaResult = Result<Formula, Unplanned>;

/// Reads a condition under a schema.
#[derive(Clone, Copy)]
pub(crate) struct FormulaReader<'a> {
    pub(crate) alloc: Global,
    pub(crate) schema: &'a Schema,
    /// How many comparisons of two columns it has read.
    pub(crate) relations: usize,
}

impl FormulaReader<'_> {
    /// Returns a condition as instructions compute it. Refuses what [`FormulaReader::comparison`] does, and
    /// long lists.
    #[cycle(part)]
    pub(crate) fn part_of(&mut self, cond: &Cond) -> FormulaResult {
        match cond {
            Cond::Always => Ok(Formula::Fixed(Truth::Yes)),
            Cond::Cmp(op, x, y) => self.comparison(*op, *x, *y),
            Cond::Between(x, y, z) => self.range(*x, *y, *z),
            Cond::Among(x, items) => self.list(*x, items),
            Cond::IsNull(x) => Ok(self.null_test(*x)),
            Cond::And(parts) => self.join(Junction::All, parts),
            Cond::Or(parts) => self.join(Junction::Any, parts),
            Cond::Not(part) => {
                let part = self.part_of(part)?;
                self.opposite(part)
            }
            Cond::Test(part, truth) => {
                let part = self.part_of(part)?;
                self.truth_test(part, *truth)
            }
        }
    }

    /// Returns the opposite of a part.
    fn opposite(&self, part: Formula) -> FormulaResult {
        match part {
            Formula::Codes(set) => Ok(Formula::Codes(set.inverse())),
            Formula::Columns(compared) => Ok(Formula::Columns(ColumnComparison {
                negated: !compared.negated,
                ..compared
            })),
            part => Ok(Formula::Not(Box::new(self.alloc, part)?).simplify(self.schema)),
        }
    }

    /// Returns whether a part has a truth. A comparison is UNKNOWN if one of its columns is null,
    /// and a part that is never UNKNOWN is TRUE or FALSE.
    fn truth_test(&self, part: Formula, truth: Truth) -> FormulaResult {
        let columns = match &part {
            Formula::Codes(set) => Some([usize::from(set.column); 2]),
            Formula::Columns(compared) => Some([compared.left, compared.right]),
            _ => None,
        };
        if let Some(columns) = columns
            && truth == Truth::Unknown
        {
            return self.any_null(columns);
        }
        let is_known = !part.possible(self.schema).unknown;
        if is_known && truth == Truth::Yes {
            return Ok(part);
        }
        if is_known && truth == Truth::No {
            return self.opposite(part);
        }
        let tested = Formula::Test(Box::new(self.alloc, part)?, truth);
        Ok(tested.simplify(self.schema))
    }

    /// Returns whether one of two columns, which may be the same, is null.
    fn any_null(&self, columns: [usize; 2]) -> FormulaResult {
        let [left, right] = columns;
        let mut parts = JoinedParts::new(self.alloc, Junction::Any);
        parts.add(self.alloc, self.null_test(Operand::Col(left)))?;
        if left != right {
            parts.add(self.alloc, self.null_test(Operand::Col(right)))?;
        }
        parts.formula(self.schema)
    }

    /// Returns joined conditions. A condition is left out if it is the same as the one before.
    #[cycle(part)]
    fn join(&mut self, junction: Junction, conds: &[Cond]) -> FormulaResult {
        let mut parts = JoinedParts::new(self.alloc, junction);
        let mut before: Option<&Cond> = None;
        for cond in conds {
            if !before.is_some_and(|before| before.is_same(cond)) {
                parts.add(self.alloc, self.part_of(cond)?)?;
            }
            before = Some(cond);
        }
        parts.formula(self.schema)
    }

    /// Returns `BETWEEN`.
    fn range(&mut self, x: Operand, y: Operand, z: Operand) -> FormulaResult {
        let mut parts = JoinedParts::new(self.alloc, Junction::All);
        parts.add(self.alloc, self.comparison(Op::Ge, x, y)?)?;
        parts.add(self.alloc, self.comparison(Op::Le, x, z)?)?;
        parts.formula(self.schema)
    }

    /// Returns `IN`: first the set of the literals, however long it is, and then the other items.
    fn list(&mut self, x: Operand, items: &[Operand]) -> FormulaResult {
        if items.len() > MAX_LIST {
            return Err(Unplanned::Limit);
        }
        let mut parts = JoinedParts::new(self.alloc, Junction::Any);
        for are_literals in [true, false] {
            for item in items {
                if matches!(item, Operand::Lit(_)) == are_literals {
                    parts.add_item(self.alloc, self.comparison(Op::Eq, x, *item)?)?;
                }
            }
        }
        parts.formula(self.schema)
    }

    /// Returns `IS NULL`.
    fn null_test(&self, x: Operand) -> Formula {
        match x {
            Operand::Col(column) if is_nullable(self.schema, index_of(column)) => {
                Formula::Null(index_of(column))
            }
            _ => Formula::Fixed(Truth::of(x == Operand::Null)),
        }
    }
}

/// The parts so far of an AND or OR.
#[derive(Drop)]
struct JoinedParts {
    junction: Junction,
    parts: Vec<Formula>,
    /// How many levels of parts there are.
    levels: usize,
    /// Where the last set of each column is.
    places: [usize; 64],
}

impl JoinedParts {
    /// Returns no parts.
    fn new(alloc: Global, junction: Junction) -> Self {
        JoinedParts {
            junction,
            parts: Vec::new(alloc),
            levels: 1,
            places: [usize::MAX; 64],
        }
    }

    /// Adds a part. A set is combined with the last one of its column, unless they are long
    /// together.
    fn add(&mut self, alloc: Global, part: Formula) -> Result<(), Unplanned> {
        self.combine(alloc, part, LONG_SET)
    }

    /// Adds an item of a list. A set is combined with the last one of its column, however long they
    /// are together.
    fn add_item(&mut self, alloc: Global, item: Formula) -> Result<(), Unplanned> {
        self.combine(alloc, item, usize::MAX)
    }

    /// Adds a part. A set is combined with the last one of its column, if the bounds of both have
    /// together at most so many lower bytes.
    fn combine(&mut self, alloc: Global, part: Formula, most: usize) -> Result<(), Unplanned> {
        self.levels = self.levels.max(part.levels().saturating_add(1));
        if let Formula::Codes(set) = &part {
            let column = usize::from(set.column % 64);
            if let Some(Formula::Codes(last)) = self.parts.get_mut(self.places[column]) {
                let both = last.join(alloc, self.junction, set)?;
                if both.lower_bytes() <= most {
                    *last = both;
                    return Ok(());
                }
            }
            self.places[column] = self.parts.len();
        }
        self.parts.push(part)?;
        Ok(())
    }

    /// Returns the parts as one, without those that change nothing: first a part of many levels, if
    /// there is one, since each level keeps a register.
    fn formula(mut self, schema: &Schema) -> FormulaResult {
        let neutral = Truth::of(self.junction == Junction::All);
        self.parts
            .retain(|part| part.only_truth(schema) != Some(neutral));
        let deep = self
            .parts
            .iter()
            .position(|part| part.levels() > MANY_LEVELS);
        if let Some(deep) = deep {
            self.parts.swap(0, deep);
        }
        if self.parts.len() > 1 {
            let whole = Formula::Joined(self.junction, self.parts, self.levels);
            return Ok(whole.simplify(schema));
        }
        Ok(self.parts.pop().unwrap_or(Formula::Fixed(neutral)))
    }
}

impl Formula {
    /// Returns the only truth that it may have, or else itself.
    pub(crate) fn simplify(self, schema: &Schema) -> Formula {
        match self.only_truth(schema) {
            Some(truth) => Formula::Fixed(truth),
            None => self,
        }
    }

    /// Returns whether it tests for a set of codes that takes many instructions.
    pub(crate) fn has_long_set(&self) -> bool {
        match self {
            Formula::Codes(set) => set.is_long(),
            Formula::Test(part, _) | Formula::Not(part) => part.has_long_set(),
            Formula::Joined(_, parts, _) => {
                let mut is_long = false;
                for part in parts {
                    is_long |= part.has_long_set();
                }
                is_long
            }
            _ => false,
        }
    }

    /// Returns how many levels of parts it has.
    fn levels(&self) -> usize {
        match self {
            Formula::Joined(_, _, levels) => *levels,
            Formula::Test(part, _) | Formula::Not(part) => part.levels(),
            _ => 0,
        }
    }
}
