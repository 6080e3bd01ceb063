//! Three-valued logic, and comparisons in it, after SQL-92.
ghost use Rattle.std.specs.Prelude.{◌≡◌};
ghost use Rattle.bw_model.specs.Truth.{least, greatest, negation, compare_values, between};

use bw_model::{Op, Truth, Value};

/// Returns AND of two truth values, their minimum.
pub fn both(a: Truth, b: Truth) -> Truth
    ensures { result ≡ least a b }
{
    match (a, b) {
        (Truth::No, _) | (_, Truth::No) => Truth::No,
        (Truth::Yes, Truth::Yes) => Truth::Yes,
        _ => Truth::Unknown,
    }
}

/// Returns OR of two truth values, their maximum.
pub fn either(a: Truth, b: Truth) -> Truth
    ensures { result ≡ greatest a b }
{
    match (a, b) {
        (Truth::Yes, _) | (_, Truth::Yes) => Truth::Yes,
        (Truth::No, Truth::No) => Truth::No,
        _ => Truth::Unknown,
    }
}

/// Returns NOT of a truth value.
pub fn opposite(a: Truth) -> Truth
    ensures { result ≡ negation a }
{
    match a {
        Truth::No => Truth::Yes,
        Truth::Unknown => Truth::Unknown,
        Truth::Yes => Truth::No,
    }
}

/// Returns the truth of a comparison: UNKNOWN if a value is null.
pub fn compare_values(op: Op, x: Value, y: Value) -> Truth
    ensures { result ≡ compare_values op x y }
{
    match (x, y) {
        (Some(x), Some(y)) => Truth::of(op.holds(x, y)),
        _ => Truth::Unknown,
    }
}

/// Returns the truth of `x BETWEEN y AND z`.
pub fn between(x: Value, y: Value, z: Value) -> Truth
    ensures { result ≡ between x y z }
{
    both(compare_values(Op::Ge, x, y), compare_values(Op::Le, x, z))
}
