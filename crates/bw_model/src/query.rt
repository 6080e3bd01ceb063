//! Queries: their items, and the condition on their rows.
use crate::cond::Cond;

/// An item of a query: a column by its number from 0, or an aggregate.
#[derive(Clone, Copy, Debug, PartialEq, Eq)]
pub enum Item {
    Plain(usize),
    /// The number of rows, `COUNT(*)`.
    CountAll,
    /// The number of the column's values that aren't null.
    Count(usize),
    Sum(usize),
    Min(usize),
    Max(usize),
}

/// A query over one table: its items, which are all columns or all aggregates, and its condition.
#[derive(Drop)]
pub struct Query {
    pub items: Vec<Item>,
    pub cond: Cond,
}
