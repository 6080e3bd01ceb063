//! A schema: the name of a table and its columns.
ghost use Rattle.std.specs.Prelude.{◌≤◌, length, IsTrue};
ghost use Rattle.bw_model.specs.Name.{are_apart};
ghost use Rattle.bw_model.specs.Column.{names_of};
ghost use Rattle.bw_model.specs.Limits.{most_columns};

use crate::column::Column;
use crate::name::Name;

/// A table's name and its columns: at least one and at most 64, with names that differ, ignoring
/// case.
#[derive(Drop)]
pub struct Schema {
    pub name: Name,
    pub columns: Vec<Column>,
    pub ghost inhabited: { 1 ≤ length columns.items },
    pub ghost limited: { length columns.items ≤ most_columns },
    pub ghost apart: { IsTrue (are_apart (names_of columns.items)) },
}
