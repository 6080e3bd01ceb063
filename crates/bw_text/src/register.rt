//! Registers, as programs and certificates name them.
ghost use Rattle.std.specs.Prelude.{◌≡◌, ◌<◌, IfSome};
ghost use Rattle.bw_text.specs.Register.{register_of};

use crate::number::natural_number;

/// The number of registers of a scan program, which are numbered from 0.
pub const REGISTERS: u64 = 64;

/// Returns the register that a word names: `r` or `R`, and a number below 64, with any number of
/// leading zeros. Returns None for another word.
#[tactic(auto, unfolding(crate::specs::Register::register_of))]
pub fn register_of(word: &[u8]) -> Option<u8>
    ensures register { result ≡ register_of word.now }
    ensures below { IfSome result (λ register. register < 64) }
{
    let [b'r' | b'R', digits @ ..] = word else {
        return None;
    };
    match natural_number(digits) {
        Some(number) if number < REGISTERS => Some(number as u8),
        _ => None,
    }
}
