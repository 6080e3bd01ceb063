//! Lists of numbers in which a value is looked up.
ghost use Rattle.std.specs.Prelude.{◌≡◌, ◌<◌, ℤ, false, IfOk};
ghost use Rattle.std.specs.List.{list_any};
ghost use Rattle.std.specs.List.Sorted.{IsSorted};
ghost use Rattle.std.specs.Ordering.{int_cmp, int_eq};
ghost use Rattle.bw_model.specs.Row.{Value};
ghost use Rattle.bw_rowwise.specs.Numbers.{ArePlaced, among_numbers, place_of};

use bw_model::{Truth, Value};
use std::alloc::{AllocError, Global};

/// This many places rule out most numbers that aren't in a list, and fit a processor's first cache.
const PLACES: u64 = 16_381;

/// Whole numbers, ascending, in which a number is found by halving. Its place is tested first: if
/// it isn't taken, the number isn't in the list.
#[derive(Drop)]
pub struct Numbers {
    sorted: Vec<i64>,
    places: Vec<bool>,
    ghost ascending: { IsSorted int_cmp sorted.items },
    ghost placed: { ArePlaced places.items sorted.items },
}

impl Numbers {
    /// Returns these numbers, sorted, each once. Fails only if memory is refused.
    pub fn new(alloc: Global, numbers: Vec<i64>) -> Result<Self, AllocError>
        ensures { IfOk result (λ made. (x : Value) → among_numbers x made.sorted.items
            ≡ among_numbers x numbers.items) }
    {
        let sorted = sorted_once(numbers);
        let places = places_of(alloc, &sorted)?;
        Ok(Numbers { sorted, places })
    }

    /// Returns whether a value is one of the numbers, as `IN` has it: UNKNOWN if it is null, and
    /// FALSE if there are none.
    #[tactic(auto, using(crate::proofs::NumberLemmas::number_among))]
    pub fn among(&self, x: Value) -> Truth
        ensures { result ≡ among_numbers x self.now.sorted.items }
    {
        match x {
            Some(n) => Truth::of(self.may_have(n) && self.have(n)),
            None if self.sorted.is_empty() => Truth::No,
            None => Truth::Unknown,
        }
    }

    /// Returns whether a number's place is taken; if it isn't, the number is none of them.
    fn may_have(&self, n: i64) -> bool
        ensures { result ≡ false → list_any (int_eq n) self.now.sorted.items ≡ false }
    {
        self.places.get(place(n)).copied().unwrap_or(true)
    }

    /// Returns whether a number is one of them.
    fn have(&self, n: i64) -> bool
        ensures { result ≡ list_any (int_eq n) self.now.sorted.items }
    {
        self.sorted.binary_search(&n).is_ok()
    }
}

/// Returns these numbers sorted, each once.
fn sorted_once(mut numbers: Vec<i64>) -> Vec<i64>
    ensures ascending { IsSorted int_cmp result.items }
    ensures same { (x : Value) → among_numbers x result.items ≡ among_numbers x numbers.items }
{
    numbers.sort_unstable();
    numbers.dedup();
    numbers
}

/// Returns the place of a number.
fn place(n: i64) -> usize
    ensures is { result ≡ place_of n }
    ensures within { result < 16381 }
{
    (n.unsigned_abs() % PLACES) as usize
}

/// Returns for each place whether it is that of a number.
fn places_of(alloc: Global, numbers: &[i64]) -> Result<Vec<bool>, AllocError>
    ensures { IfOk result (λ places. ArePlaced places.items numbers.now) }
{
    let mut places = Vec::with_capacity(alloc, PLACES as usize)?;
    places.resize(PLACES as usize, false)?;
    for n in numbers {
        if let Some(slot) = places.get_mut(place(*n)) {
            *slot = true;
        }
    }
    Ok(places)
}
