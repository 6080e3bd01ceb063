//! The least and the greatest number among values.
ghost use Rattle.std.specs.Prelude.{◌≡◌, ◌∷◌, ◌++◌, ◌≤◌, [], List, Some};
ghost use Rattle.bw_model.specs.Limits.{most_rows};
ghost use Rattle.bw_model.specs.Row.{Value};
ghost use Rattle.bw_encode.specs.Seen.{IsSeenOf, seen_of_codes};

use bw_model::Value;

/// What was seen of values: their least and greatest number, or 0 and 0 if there is none, and
/// whether one of them is null.
#[derive(Clone, Copy)]
pub(crate) struct Seen {
    pub(crate) lo: i64,
    pub(crate) hi: i64,
    pub(crate) has_number: bool,
    pub(crate) has_null: bool,
}

impl Seen {
    /// Returns what was seen of no value.
    pub(crate) fn new() -> Self
        ensures { IsSeenOf [] result }
    {
        Seen {
            lo: 0,
            hi: 0,
            has_number: false,
            has_null: false,
        }
    }

    /// Returns what was seen of the codes from 0 up to a count of at most 2^24, each at least once.
    pub(crate) fn of_codes(count: usize) -> Self
        requires { count ≤ most_rows }
        ensures { result ≡ seen_of_codes count }
    {
        Seen {
            lo: 0,
            hi: count.saturating_sub(1) as i64,
            has_number: count > 0,
            has_null: false,
        }
    }

    /// Returns what was seen of the values and one more.
    pub(crate) fn and(self, value: Value) -> Self
        ensures { (values : List Value) → IsSeenOf values self
            → IsSeenOf (values ++ value ∷ []) result }
    {
        match value {
            None => Seen {
                has_null: true,
                ..self
            },
            Some(n) => self.and_number(n),
        }
    }

    /// Returns what was seen of the values and one number more.
    fn and_number(self, n: i64) -> Self
        ensures { (values : List Value) → IsSeenOf values self
            → IsSeenOf (values ++ Some n ∷ []) result }
    {
        if !self.has_number {
            return Seen {
                lo: n,
                hi: n,
                has_number: true,
                has_null: self.has_null,
            };
        }
        Seen {
            lo: self.lo.min(n),
            hi: self.hi.max(n),
            ..self
        }
    }
}
