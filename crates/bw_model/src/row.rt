//! Rows of a table, and their values.
use crate::fault::Fault;
use std::alloc::Global;

/// A value of a table: null, or a whole number.
pub type Value = Option<i64>;

/// The values of one row, one for each column, in the schema's order.
#[derive(Drop)]
pub struct Row {
    pub values: Vec<Value>,
}

impl Row {
    ghost use Rattle.std.specs.Prelude.{◌≡◌, IfOk, IsOkUnless};
    ghost use Rattle.bw_model.specs.Fault.{no_memory};
    ghost use Rattle.bw_model.specs.Row.{values_of};

    /// Returns an equal row. Fails only if memory is refused.
    pub fn copy(&self, alloc: Global) -> Result<Self, Fault>
        ensures equal { IfOk result (λ row. values_of row ≡ values_of self.now) }
        ensures only_oom { IsOkUnless result no_memory }
    {
        Ok(Row {
            values: Vec::from_slice(alloc, &self.values)?,
        })
    }
}
