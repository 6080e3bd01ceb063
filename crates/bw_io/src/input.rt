//! Complete inputs, read from a source up to a limit.
ghost use Rattle.std.specs.Prelude.{◌+◌, ◌-◌, ◌^◌, ◌<◌, IfErr, IsTrue};
ghost use Rattle.bw_io.specs.Source.{ReadOutcome, TookAtMost, TellsFailure, is_input_fault};
ghost use Rattle.bw_io.specs.Input.{arrival};

use crate::failed::Failed;
use crate::source::Source;
use bw_model::{Fault, code};
use std::alloc::Global;

/// The most bytes that a read asks for.
const PIECE: usize = 64 * 1024;

/// The bytes that a source yielded.
#[derive(Debug, Drop)]
pub enum Input {
    /// All its bytes.
    Whole(Vec<u8>),
    /// More bytes than the limit.
    Over,
}

/// Reads a source to its end, or until it yields one byte more than `limit` bytes. The limit must
/// be less than 2^63, and the source's count of failures less than 2^64 - 1. Errors: 701 at the
/// first read that fails; 801 if memory is refused.
pub fn read_limited<S: Source>(alloc: Global, source: &mut S, limit: u64) -> Result<Input, Fault>
    requires counter_fits { (S.state source.old).failures < 2 ^ 64 - 1 }
    requires limited { limit < 2 ^ 63 }
    ensures came { ReadOutcome limit (S.state source.old) (S.state source.new) (arrival result) }
    ensures took { TookAtMost (limit + 1) (S.state source.old) (S.state source.new) }
    ensures failed { TellsFailure (S.state source.old) (S.state source.new) result }
    ensures fault { IfErr result (λ fault. IsTrue (is_input_fault fault)) }
{
    let most = limit as usize + 1;
    let mut piece = [0u8; PIECE];
    let mut bytes = Vec::new(alloc);
    while bytes.len() < most {
        let room = PIECE.min(most - bytes.len());
        match source.read(&mut piece[..room]) {
            Ok(0) => return Ok(Input::Whole(bytes)),
            Ok(n) => bytes.extend_from_slice(&piece[..n])?,
            Err(Failed) => return Err(Fault::new(code::READ_FAILED)),
        }
    }
    Ok(Input::Over)
}
