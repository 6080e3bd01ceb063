//! The order in which diagrams test variables: column by column, in the sequence that suits the
//! condition, each from the null variable and the top bit down; columns that are compared with one
//! another place by place, the left column first.
use crate::columns::width_of;
use crate::comparison::{Comparison, compare};
use bw_diagram::ColumnComparison;
use bw_model::{Cond, Op, Operand, Schema};
use std::alloc::{AllocError, Global};

/// Where a variable is in the order: by its column's group, its place in the column, which is 0 for
/// the null variable and 64 for the lowest bit, and the column's level in the group.
#[derive(Clone, Copy, Default, PartialEq, Eq, PartialOrd, Ord)]
struct Position {
    group: u8,
    place: u8,
    level: u8,
    column: u8,
}

/// The level of columns that are compared both ways: each then has to be above the other.
const LAST_LEVEL: u8 = 63;

/// The order of a schema's variables under a condition.
#[derive(Drop)]
pub(crate) struct VariableOrder {
    positions: Vec<Position>,
    /// Whether the nodes of every comparison of the condition test variables in this order. Equal
    /// functions are then equal nodes.
    pub(crate) is_total: bool,
    /// For each column, in orders after the first, the columns that it is compared with, of which
    /// it is the left one. They decide between single bits in columns of the last level.
    right_of: [u64; 64],
    /// The number of each variable's column.
    columns: Vec<u8>,
    /// Whether bits of one place in columns of the last level are else tested in this order,
    /// whatever the nodes of a product have.
    pub(crate) is_fixed: bool,
}

impl VariableOrder {
    /// Returns the order of this number, from 0, under a condition. If no one order fits all
    /// comparisons of columns, each of some has the columns of the last level in another sequence.
    pub(crate) fn new(
        alloc: Global,
        schema: &Schema,
        cond: &Cond,
        number: u8,
    ) -> Result<Self, AllocError> {
        let pairs = Vec::new(alloc);
        let mut reader = PairReader { schema, pairs };
        let mut sequence = reader.sequence_of(alloc, cond)?;
        for column in 0..64 {
            sequence.push(column)?;
        }
        let mut tops = tops_of(&sequence.columns);
        let is_total = (0..64).any(|_| !arrange(&mut tops, &reader.pairs));
        if !is_total && number > 0 {
            rearrange(&mut tops, (number - 1) / 2);
        }
        let mut right_of = [0u64; 64];
        if number > 0 {
            for (left, right) in &reader.pairs {
                right_of[usize::from(*left % 64)] |= 1 << (right % 64);
            }
        }
        let (mut positions, mut columns) = (Vec::new(alloc), Vec::new(alloc));
        for (column, found) in schema.columns.iter().enumerate() {
            let width = schema.width(column);
            for place in 0..=64u8 {
                if u32::from(place) > 64 - width || place == 0 && found.nullable {
                    let top = tops[column % 64];
                    positions.push(Position { place, ..top })?;
                    columns.push((column % 64) as u8)?;
                }
            }
        }
        Ok(VariableOrder {
            positions,
            is_total,
            right_of,
            columns,
            is_fixed: number % 2 == 1,
        })
    }

    /// Returns whether the second of two variables is tested before the first one, and whether
    /// comparisons may have it otherwise, since no one order fits all of them: bits of one place in
    /// columns of the last level.
    pub(crate) fn is_later(&self, a: u64, b: u64) -> Option<(bool, bool)> {
        let x = self.positions.get(a as usize)?;
        let y = self.positions.get(b as usize)?;
        let is_open = (x.group, x.place, x.level) == (y.group, y.place, LAST_LEVEL);
        Some((y < x, is_open && x.place > 0))
    }
}

impl VariableOrder {
    /// Returns whether the first of two variables is of the right one of two compared columns, if
    /// all comparisons of them agree on that.
    pub(crate) fn is_right(&self, a: u64, b: u64) -> Option<bool> {
        let x = self.columns.get(a as usize)? % 64;
        let y = self.columns.get(b as usize)? % 64;
        let is_left = self.right_of[usize::from(x)] >> y & 1 == 1;
        let is_right = self.right_of[usize::from(y)] >> x & 1 == 1;
        (is_left != is_right).then_some(is_right)
    }
}

/// Returns the position of each column's null variable, in a group of its own.
fn tops_of(sequence: &[u8]) -> [Position; 64] {
    let mut tops = [Position::default(); 64];
    for (group, column) in sequence.iter().enumerate() {
        let top = &mut tops[usize::from(*column % 64)];
        top.group = (group % 64) as u8;
        top.column = *column;
    }
    tops
}

/// Gives both columns of each pair one group, and the right one a higher level than the left one.
/// Returns whether one of them changed. Some 64 times make groups of the columns that a condition
/// compares with one another, directly or through others; a group's number is the place of its first
/// one in the sequence.
fn arrange(tops: &mut [Position; 64], pairs: &[(u8, u8)]) -> bool {
    let mut has_changed = false;
    for (left, right) in pairs {
        let (left, right) = (usize::from(*left % 64), usize::from(*right % 64));
        let (x, y) = (tops[left], tops[right]);
        let above = x.level.saturating_add(1).min(LAST_LEVEL);
        has_changed |= x.group != y.group || x.level >= y.level;
        tops[left].group = x.group.min(y.group);
        tops[right].group = x.group.min(y.group);
        tops[right].level = above.max(y.level);
    }
    has_changed
}

/// Gives the columns of the last level another sequence: it begins so many places further on, and
/// every other number has it turned round.
fn rearrange(tops: &mut [Position; 64], number: u8) {
    let count = tops.iter().filter(|top| top.level == LAST_LEVEL).count() as u8;
    let mut place = number / 2;
    for top in tops.iter_mut() {
        if top.level == LAST_LEVEL {
            place = place.wrapping_add(1) % count.max(1);
            top.column = if number % 2 == 0 {
                place
            } else {
                63 - place % 64
            };
        }
    }
}

/// Some columns, the one that is tested first at the front, and how many bits are compared with
/// them.
#[derive(Drop)]
struct Sequence {
    columns: Vec<u8>,
    weight: u64,
}

impl Sequence {
    /// Appends a column, if it is missing.
    fn push(&mut self, column: u8) -> Result<(), AllocError> {
        if !self.columns.contains(&column) {
            self.columns.push(column)?;
        }
        Ok(())
    }

    /// Returns these columns and others, the smaller ones first: the nodes of the larger ones are
    /// then unchanged below them. Without this, long conditions of `test_conditions` take a fifth
    /// more product rows.
    fn join(self, others: Self) -> Result<Self, AllocError> {
        let (mut made, last) = if others.weight <= self.weight {
            (others, self)
        } else {
            (self, others)
        };
        for column in last.columns.iter() {
            made.push(*column)?;
        }
        made.weight = made.weight.saturating_add(last.weight);
        Ok(made)
    }
}

/// Reads a condition's columns, and the pairs of different ones that it compares with one another: a
/// chain over the two tests the left one's bit first.
#[derive(Drop)]
struct PairReader<'a> {
    schema: &'a Schema,
    pairs: Vec<(u8, u8)>,
}

impl PairReader<'_> {
    /// Returns the columns of a condition, and adds its pairs.
    #[cycle(sequence)]
    fn sequence_of(&mut self, alloc: Global, cond: &Cond) -> Result<Sequence, AllocError> {
        let (columns, weight) = (Vec::new(alloc), 0);
        let mut made = Sequence { columns, weight };
        match cond {
            Cond::Cmp(op, x, y) => self.add(&mut made, *op, *x, *y)?,
            Cond::Between(x, y, z) => {
                self.add(&mut made, Op::Ge, *x, *y)?;
                self.add(&mut made, Op::Le, *x, *z)?;
            }
            Cond::Among(x, items) => {
                for item in items {
                    self.add(&mut made, Op::Eq, *x, *item)?;
                }
            }
            Cond::IsNull(Operand::Col(column)) => self.append(&mut made, *column)?,
            Cond::Always | Cond::IsNull(_) => {}
            Cond::And(parts) | Cond::Or(parts) => {
                for part in parts {
                    made = made.join(self.sequence_of(alloc, part)?)?;
                }
            }
            Cond::Not(part) | Cond::Test(part, _) => return self.sequence_of(alloc, part),
        }
        Ok(made)
    }

    /// Appends the columns of a comparison, and adds their pair.
    fn add(&mut self, to: &mut Sequence, op: Op, x: Operand, y: Operand) -> Result<(), AllocError> {
        match compare(self.schema, op, x, y) {
            Some(Comparison::Literal(column, _)) => self.append(to, column)?,
            Some(Comparison::Columns(ColumnComparison { left, right, .. })) => {
                self.append(to, left)?;
                self.append(to, right)?;
                if left != right {
                    self.pairs.push(((left % 64) as u8, (right % 64) as u8))?;
                }
            }
            _ => {}
        }
        Ok(())
    }

    /// Appends a column, whose bits are compared once more.
    fn append(&self, to: &mut Sequence, column: usize) -> Result<(), AllocError> {
        let width = width_of(self.schema, column).unwrap_or(0);
        to.weight = to.weight.saturating_add(u64::from(width));
        to.push((column % 64) as u8)
    }
}
