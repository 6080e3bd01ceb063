//! Reads statements from a source, one at a time.
ghost use Rattle.std.specs.Prelude.{◌≡◌, ◌-◌, ◌^◌, ◌<◌, IfOk, IfErr, OnOk, IsTrue};
ghost use Rattle.std.specs.Io.KnownBytes.{Keeps};
ghost use Rattle.bw_model.specs.FaultTable.{READ_FAILED};
ghost use Rattle.bw_model.specs.Fault.{nowhere};
ghost use Rattle.bw_io.specs.Source.{TellsFailure, is_input_fault};
ghost use Rattle.bw_session.specs.Reading.{HasReadBeginning, HasReadByte, HasReadStatement};
ghost use Rattle.bw_session.specs.Reading.{with_byte};

use crate::statement_state::StatementState;
use bw_io::{Failed, Source};
use bw_model::{Fault, code};
use std::alloc::AllocError;

/// A statement has at most this many bytes.
pub(crate) const MAX_LEN: usize = 65_536;

/// Reads the next statement with what ends it: a `;` outside a comment, an empty line or the end of
/// the source. Of a statement that is too long, only the first bytes are stored, one more than a
/// statement may have. Returns false at the end of the source, else true.
///
/// Reads one byte at a time, so that nothing after the statement is read: pass a source that reads
/// ahead.
pub(crate) fn next_statement<S: Source>(
    source: &mut S,
    statement: &mut Vec<u8>,
) -> Result<bool, Fault>
    requires { (S.state source.old).failures < 2 ^ 64 - 1 }
    ensures statement { IfOk result (HasReadStatement (S.state source.old).known
        (S.state source.new).known statement.new.items) }
    ensures failed { TellsFailure (S.state source.old) (S.state source.new) result }
    ensures fault { IfErr result (λ fault. IsTrue (is_input_fault fault)) }
    ensures begun { IfErr result (HasReadBeginning (S.state source.old).known
        (S.state source.new).known) }
{
    statement.clear();
    let mut standing = StatementState::Blank;
    for _ in 0..u64::MAX {
        let Some(byte) = read_byte(source)? else {
            return Ok(false);
        };
        store_byte(statement, byte)?;
        standing = standing.after(byte);
        if standing.is_ended() {
            return Ok(true);
        }
    }
    Err(Fault::new(code::OUT_OF_MEMORY))
}

/// Reads one byte. Returns None at the end of the source.
fn read_byte<S: Source>(source: &mut S) -> Result<Option<u8>, Fault>
    requires { (S.state source.old).failures < 2 ^ 64 - 1 }
    ensures byte { IfOk result (HasReadByte (S.state source.old).known (S.state source.new).known) }
    ensures failed { TellsFailure (S.state source.old) (S.state source.new) result }
    ensures fault { IfErr result (λ fault. fault ≡ nowhere READ_FAILED) }
    ensures same { IfErr result (λ _. Keeps (S.state source.old).known (S.state source.new).known) }
{
    let mut byte = [0u8; 1];
    match source.read(&mut byte) {
        Ok(0) => Ok(None),
        Ok(_) => Ok(Some(byte[0])),
        Err(Failed) => Err(Fault::new(code::READ_FAILED)),
    }
}

/// Stores a byte of a statement, unless it already has one more than it may.
fn store_byte(statement: &mut Vec<u8>, byte: u8) -> Result<(), AllocError>
    ensures { OnOk result (statement.new.items ≡ with_byte statement.old.items byte) }
{
    if statement.len() <= MAX_LEN {
        statement.push(byte)?;
    }
    Ok(())
}
