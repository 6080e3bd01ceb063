//! Copies: equal values in memory of their own. Each call fails only if memory is refused.
ghost use Rattle.std.specs.Prelude.{◌≡◌, ℕ, IfOk, IsOkUnless, List, map};
ghost use Rattle.bw_model.specs.Cond.{truth_of, names_within, is_whole};
ghost use Rattle.bw_model.specs.CondTree.{tree_of};
ghost use Rattle.bw_model.specs.Row.{Value};
ghost use Rattle.bw_model.specs.Fault.{no_memory};

use crate::column::Column;
use crate::cond::Cond;
use crate::fault::Fault;
use crate::name::Name;
use crate::schema::Schema;
use std::alloc::Global;

impl Name {
    /// Returns an equal name.
    pub(crate) fn copy(&self, alloc: Global) -> Result<Self, Fault>
        ensures equal { IfOk result (λ name. name ≡ self.now) }
        ensures only_oom { IsOkUnless result no_memory }
    {
        Ok(Name::new(alloc, self.as_bytes())?)
    }
}

impl Column {
    /// Returns an equal column.
    pub(crate) fn copy(&self, alloc: Global) -> Result<Self, Fault>
        ensures equal { IfOk result (λ column. column ≡ self.now) }
        ensures only_oom { IsOkUnless result no_memory }
    {
        Ok(Column {
            name: self.name.copy(alloc)?,
            lo: self.lo,
            hi: self.hi,
            nullable: self.nullable,
        })
    }
}

impl Schema {
    /// Returns an equal schema. Errors: 801 if memory is refused.
    pub fn copy(&self, alloc: Global) -> Result<Self, Fault>
        ensures name { IfOk result (λ schema. schema.name ≡ self.now.name) }
        ensures columns { IfOk result (λ schema. schema.columns.items ≡ self.now.columns.items) }
        ensures only_oom { IsOkUnless result no_memory }
    {
        let mut columns = Vec::new(alloc);
        for column in &self.columns {
            columns.push(column.copy(alloc)?)?;
        }
        Ok(Schema {
            name: self.name.copy(alloc)?,
            columns,
        })
    }
}

impl Cond {
    /// A law: conditions with the same tree have the same truth on every row and name the same
    /// columns. If one is whole, so is the other.
    pub fn same_meaning(&self, other: &Cond)
        requires { tree_of self.now ≡ tree_of other.now }
        ensures truth { (row : List Value) → truth_of row self.now ≡ truth_of row other.now }
        ensures columns { (n : ℕ) → names_within n self.now ≡ names_within n other.now }
        ensures whole { is_whole self.now ≡ is_whole other.now }
    {}

    /// Returns an equal condition. Errors: 801 if memory is refused.
    #[cycle(copy)]
    #[tactic(auto, using(crate::proofs::TreeLemmas::trees))]
    pub fn copy(&self, alloc: Global) -> Result<Self, Fault>
        ensures equal { IfOk result (λ cond. tree_of cond ≡ tree_of self.now) }
        ensures only_oom { IsOkUnless result no_memory }
    {
        match self {
            Cond::Always => Ok(Cond::Always),
            Cond::Cmp(op, x, y) => Ok(Cond::Cmp(*op, *x, *y)),
            Cond::Between(x, y, z) => Ok(Cond::Between(*x, *y, *z)),
            Cond::Among(x, items) => Ok(Cond::Among(*x, Vec::from_slice(alloc, items)?)),
            Cond::IsNull(x) => Ok(Cond::IsNull(*x)),
            Cond::And(parts) => Ok(Cond::And(copies(alloc, parts)?)),
            Cond::Or(parts) => Ok(Cond::Or(copies(alloc, parts)?)),
            Cond::Not(part) => Ok(Cond::Not(Box::new(alloc, part.copy(alloc)?)?)),
            Cond::Test(part, wanted) => Ok(Cond::Test(
                Box::new(alloc, part.copy(alloc)?)?,
                *wanted,
            )),
        }
    }
}

/// Returns copies of the conditions, in their order.
#[cycle(copy)]
fn copies(alloc: Global, conds: &[Cond]) -> Result<Vec<Cond>, Fault>
    ensures equal { IfOk result (λ copies. map tree_of copies.items ≡ map tree_of conds.now) }
    ensures only_oom { IsOkUnless result no_memory }
{
    let mut copies = Vec::new(alloc);
    for cond in conds {
        copies.push(cond.copy(alloc)?)?;
    }
    Ok(copies)
}
