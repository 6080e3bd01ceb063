//! The words of the connectives of product rows.
ghost use Rattle.std.specs.Prelude.{◌≡◌};
ghost use Rattle.bw_cert_text.specs.Connective.{connective_spelling, connective_of};

use bw_diagram::Connective;
use bw_text::is_same_text;

/// All connectives.
const CONNECTIVES: [Connective; 4] = [
    Connective::And,
    Connective::Or,
    Connective::Xor,
    Connective::Diff,
];

/// Returns a connective's word in capitals.
pub(crate) fn connective_spelling(op: Connective) -> &'static [u8]
    ensures { result.now ≡ connective_spelling op }
{
    match op {
        Connective::And => b"AND",
        Connective::Or => b"OR",
        Connective::Xor => b"XOR",
        Connective::Diff => b"DIFF",
    }
}

/// Returns the connective that a word spells, ignoring case.
#[tactic(auto, unfolding(crate::specs::Connective::connective_of))]
pub(crate) fn connective_of(word: &[u8]) -> Option<Connective>
    ensures { result ≡ connective_of word.now }
{
    CONNECTIVES
        .iter()
        .copied()
        .find(|op| is_same_text(connective_spelling(*op), word))
}
