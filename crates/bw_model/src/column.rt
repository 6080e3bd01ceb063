//! A column of a schema.
ghost use Rattle.std.specs.Prelude.{◌<ℤ◌, ◌≤ℤ◌, ◌-ℤ◌, ◌^◌, pos};

use crate::name::Name;

/// A column: its name, its minimum and maximum, and whether it is nullable.
#[derive(Drop)]
pub struct Column {
    pub name: Name,
    pub lo: i64,
    pub hi: i64,
    pub nullable: bool,
    pub ghost ordered: { lo ≤ℤ hi },
    /// A code, the distance of a value from `lo`, has at most 63 bits.
    pub ghost narrow: { (hi -ℤ lo) <ℤ pos (2 ^ 63) },
}
