//! The words after the first one of a line: numbers, and numbers that may be `-`.
ghost use Rattle.std.specs.Prelude.{◌≡◌, map};
ghost use Rattle.bw_cert_text.specs.Operand.{optional_of, number_in};

use bw_text::natural_number;

/// Reads a number that the line may leave out by `-`. Any other word is an error, None.
#[tactic(auto, unfolding(crate::specs::Operand::optional_of))]
pub(crate) fn optional_of(word: &[u8]) -> Option<Option<u64>>
    ensures { result ≡ optional_of word.now }
{
    match natural_number(word) {
        Some(number) => Some(Some(number)),
        None if word == b"-".as_slice() => Some(None),
        None => None,
    }
}

/// Reads the only word of a line that has one number.
pub(crate) fn number_in(words: &[&[u8]]) -> Option<u64>
    ensures { result ≡ number_in (map (λ word. word.now) words.now) }
{
    let [n] = words else {
        return None;
    };
    natural_number(n)
}
