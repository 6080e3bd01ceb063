//! What a field may spell.
ghost use Rattle.std.specs.Prelude.{◌≡◌, IfOk, map, replicate};
ghost use Rattle.bw_csv.specs.Rule.{any_number, rule_of};

use bw_model::Column;
use std::alloc::{AllocError, Global};

/// What the fields of a column may spell: the numbers from `lo` to `hi`, and null if it is
/// `nullable`.
#[derive(Clone, Copy)]
pub struct FieldRule {
    pub lo: i64,
    pub hi: i64,
    pub nullable: bool,
}

/// The rule of a column without a schema: null, and every number of 64 bits.
const ANY_NUMBER: FieldRule = FieldRule {
    lo: i64::MIN,
    hi: i64::MAX,
    nullable: true,
};

impl FieldRule {
    /// Returns the rule of a schema's column.
    pub fn of(column: &Column) -> Self
        ensures { result ≡ rule_of column.now }
    {
        FieldRule {
            lo: column.lo,
            hi: column.hi,
            nullable: column.nullable,
        }
    }

    /// Returns the rule of a column without a schema.
    pub fn any_number() -> Self
        ensures { result ≡ any_number }
    {
        ANY_NUMBER
    }
}

/// Returns the rules of columns. Errors: memory is refused.
pub(crate) fn rules_of(alloc: Global, columns: &[Column]) -> Result<Vec<FieldRule>, AllocError>
    ensures { IfOk result (λ rules. rules.items ≡ map rule_of columns.now) }
{
    let mut rules = Vec::with_capacity(alloc, columns.len())?;
    for column in columns {
        rules.push(FieldRule::of(column))?;
    }
    Ok(rules)
}

/// Returns the rules of `width` columns without a schema. Errors: memory is refused.
pub fn rules_without_schema(alloc: Global, width: usize) -> Result<Vec<FieldRule>, AllocError>
    ensures { IfOk result (λ rules. rules.items ≡ replicate width any_number) }
{
    let mut rules = Vec::new(alloc);
    rules.resize(width, FieldRule::any_number())?;
    Ok(rules)
}
