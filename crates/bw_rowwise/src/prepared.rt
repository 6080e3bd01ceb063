//! Conditions prepared for many rows: columns are named by their places among those that are
//! unpacked, each item of a list stands once, and its numbers are sorted.
ghost use Rattle.std.specs.Prelude.{◌≡◌, ◌<◌, ℕ, List, map, nat_lt, true, IfOk, IsOkUnless};
ghost use Rattle.std.specs.Prelude.{IsTrue, OnOk};
ghost use Rattle.std.specs.List.{list_all};
ghost use Rattle.bw_model.specs.Cond.{truth_of};
ghost use Rattle.bw_model.specs.Fault.{no_memory};
ghost use Rattle.bw_model.specs.Row.{Value, value_in};
ghost use Rattle.bw_model.specs.Truth.{compare_values, in_list, greatest};
ghost use Rattle.bw_model.specs.declared.cond.Op.TheVariants.{Eq};
ghost use Rattle.bw_rowwise.specs.Columns.{Grows, numbers_of};
ghost use Rattle.bw_rowwise.specs.Prepared.{Absorbs, Prepares, PreparesItems, PreparesOperand};
ghost use Rattle.bw_rowwise.specs.Prepared.{PreparesParts};

use crate::columns::Columns;
use crate::hash::hash_of;
use crate::numbers::Numbers;
use bw_model::{Cond, Fault, Op, Operand, Truth};
use std::alloc::Global;
use std::collections::HashMap;

/// A condition in the form that tests 512 rows at once. Its columns are named by their places among
/// those that are unpacked. It has the truth of the original condition on every row.
#[derive(Drop)]
pub enum Prepared {
    Always,
    Cmp(Op, Operand, Operand),
    Between(Operand, Operand, Operand),
    /// The operand is one of the items, as `IN` has it.
    Among(Operand, Items),
    IsNull(Operand),
    And(Vec<Prepared>),
    Or(Vec<Prepared>),
    Not(Box<Prepared>),
    Test(Box<Prepared>, Truth),
}

/// The items of a list, each once: its numbers, the places of its columns, and whether NULL is among
/// them.
#[derive(Drop)]
pub struct Items {
    pub numbers: Numbers,
    pub columns: Vec<usize>,
    pub has_null: bool,
}

impl Prepared {
    /// Prepares a condition: its columns are named by their places among `columns`, where those
    /// that aren't there are added. Errors: 801 if memory is refused.
    #[cycle(new)]
    pub fn new(alloc: Global, cond: &Cond, columns: &mut Columns) -> Result<Self, Fault>
        ensures prepared { IfOk result (Prepares cond.now (numbers_of columns.new)) }
        ensures grown { OnOk result (Grows (numbers_of columns.old) (numbers_of columns.new)) }
        ensures only_oom { IsOkUnless result no_memory }
    {
        match cond {
            Cond::Always => Ok(Prepared::Always),
            Cond::Cmp(op, x, y) => {
                let x = place_operand(*x, columns)?;
                let y = place_operand(*y, columns)?;
                Ok(Prepared::Cmp(*op, x, y))
            }
            Cond::Between(x, y, z) => {
                let x = place_operand(*x, columns)?;
                let y = place_operand(*y, columns)?;
                let z = place_operand(*z, columns)?;
                Ok(Prepared::Between(x, y, z))
            }
            Cond::Among(x, items) => {
                let x = place_operand(*x, columns)?;
                Ok(Prepared::Among(x, items_of(alloc, items, columns)?))
            }
            Cond::IsNull(x) => Ok(Prepared::IsNull(place_operand(*x, columns)?)),
            Cond::And(parts) => Ok(Prepared::And(all_of(alloc, parts, columns)?)),
            Cond::Or(parts) => Ok(Prepared::Or(all_of(alloc, parts, columns)?)),
            Cond::Not(part) => {
                let part = Prepared::new(alloc, part, columns)?;
                Ok(Prepared::Not(Box::new(alloc, part)?))
            }
            Cond::Test(part, wanted) => {
                let part = Prepared::new(alloc, part, columns)?;
                Ok(Prepared::Test(Box::new(alloc, part)?, *wanted))
            }
        }
    }
}

/// Prepares conditions, in their order. Of equal ones only the first is kept. AND and OR of the
/// results have the same truths as those of the conditions.
#[cycle(new)]
fn all_of(alloc: Global, conds: &[Cond], columns: &mut Columns) -> Result<Vec<Prepared>, Fault>
    ensures prepared { IfOk result
        (λ prepared. PreparesParts conds.now (numbers_of columns.new) prepared.items) }
    ensures grown { OnOk result (Grows (numbers_of columns.old) (numbers_of columns.new)) }
    ensures only_oom { IsOkUnless result no_memory }
{
    let mut prepared = Vec::with_capacity(alloc, conds.len())?;
    let mut firsts = HashMap::new(alloc);
    for place in 0..conds.len() {
        let cond = &conds[place];
        if !is_repeated(&mut firsts, &conds[..place], cond)? {
            prepared.push(Prepared::new(alloc, cond, columns)?)?;
        }
    }
    Ok(prepared)
}

/// Returns an operand with a column named by its place, where it is added if it isn't there.
fn place_operand(operand: Operand, columns: &mut Columns) -> Result<Operand, Fault>
    ensures placed { IfOk result (PreparesOperand operand (numbers_of columns.new)) }
    ensures grown { OnOk result (Grows (numbers_of columns.old) (numbers_of columns.new)) }
    ensures only_oom { IsOkUnless result no_memory }
{
    match operand {
        Operand::Col(number) => Ok(Operand::Col(columns.place_of(number)?)),
        Operand::Lit(_) | Operand::Null => Ok(operand),
    }
}

/// Returns whether a condition is equal to an earlier one. `firsts` has the place of the first
/// condition with each hash.
fn is_repeated(
    firsts: &mut HashMap<u64, usize>,
    earlier: &[Cond],
    cond: &Cond,
) -> Result<bool, Fault>
    ensures repeated { IfOk result (λ repeated. IsTrue repeated → (row : List Value)
        → Absorbs (map (truth_of row) earlier.now) (truth_of row cond.now)) }
    ensures only_oom { IsOkUnless result no_memory }
{
    let hash = hash_of(cond);
    if let Some(first) = firsts.get(&hash) {
        return Ok(has_at(earlier, *first, cond));
    }
    firsts.insert(hash, earlier.len())?;
    Ok(false)
}

/// Returns whether a list has an equal condition at this place.
fn has_at(conds: &[Cond], place: usize, cond: &Cond) -> bool
    ensures { IsTrue result → (row : List Value)
        → Absorbs (map (truth_of row) conds.now) (truth_of row cond.now) }
{
    place < conds.len() && conds[place].is_same(cond)
}

/// Returns the items of a list, each once, with its columns named by their places. Of its NULLs one
/// decides as much as all of them.
fn items_of(alloc: Global, items: &[Operand], columns: &mut Columns) -> Result<Items, Fault>
    ensures items { IfOk result (PreparesItems items.now (numbers_of columns.new)) }
    ensures grown { OnOk result (Grows (numbers_of columns.old) (numbers_of columns.new)) }
    ensures only_oom { IsOkUnless result no_memory }
{
    let mut numbers = Vec::new(alloc);
    let mut places = Vec::new(alloc);
    let mut has_null = false;
    for item in items {
        match item {
            Operand::Lit(n) => numbers.push(*n)?,
            Operand::Col(number) => push_once(&mut places, columns.place_of(*number)?)?,
            Operand::Null => has_null = true,
        }
    }
    Ok(Items {
        numbers: Numbers::new(alloc, numbers)?,
        columns: places,
        has_null,
    })
}

/// Adds a place to those that don't have it.
fn push_once(places: &mut Vec<usize>, place: usize) -> Result<(), Fault>
    ensures added { OnOk result ((row : List Value) (x : Value)
        → in_list x (map (value_in row) places.new.items)
        ≡ greatest (in_list x (map (value_in row) places.old.items))
        (compare_values Eq x (value_in row place))) }
    ensures within { OnOk result ((count : ℕ) → place < count
        → list_all (λ place. nat_lt place count) places.old.items ≡ true
        → list_all (λ place. nat_lt place count) places.new.items ≡ true) }
    ensures only_oom { IsOkUnless result no_memory }
{
    if !places.contains(&place) {
        places.push(place)?;
    }
    Ok(())
}
