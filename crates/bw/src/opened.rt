//! Opens and reads the files of a command.
ghost use Rattle.std.specs.Prelude.{◌≡◌, ◌<◌, ◌^◌, IfOk};
ghost use Rattle.bw_io.specs.ReadAhead.{read_failures};

use crate::failure::{CommandFailure, or_failure};
use crate::in_file::InFile;
use bw_file::FromRead;
use bw_io::ReadAhead;
use bw_model::{Fault, MAX_CSV_LEN, MAX_SCHEMA_LEN, code};
use bw_shell::{Input, MAX_PROGRAM_FILE_LEN, read_limited};
use std::fs::File;
use std::io::Stdin;

/// The number of bytes of a table file in one read: 128 KiB.
const PIECE: usize = 128 * 1024;

pub fn open<'a>(rt: &HostRuntime, path: &'a str) -> Result<InFile, CommandFailure<'a>> {
    match File::open(rt, path) {
        Ok(file) => Ok(InFile::new(file)),
        Err(error) => Err(CommandFailure::unreadable(path, error)),
    }
}

/// Opens two files, in this order.
pub fn open_both<'a>(
    rt: &HostRuntime,
    first: &'a str,
    second: &'a str,
) -> Result<(InFile, InFile), CommandFailure<'a>> {
    let first = open(rt, first)?;
    let second = open(rt, second)?;
    Ok((first, second))
}

/// Returns all bytes of a schema file.
pub fn read_schema<'a>(
    rt: &HostRuntime,
    path: &'a str,
    file: InFile,
) -> Result<Vec<u8>, CommandFailure<'a>> {
    match read_text(rt, path, file, MAX_SCHEMA_LEN as u64)? {
        Input::Whole(text) => Ok(text),
        Input::Over => Err(CommandFailure::new(Fault::new(code::SCHEMA_TOO_LONG))),
    }
}

/// Returns all bytes of a program file.
pub fn read_program<'a>(
    rt: &HostRuntime,
    path: &'a str,
    file: InFile,
) -> Result<Vec<u8>, CommandFailure<'a>> {
    match read_text(rt, path, file, MAX_PROGRAM_FILE_LEN as u64)? {
        Input::Whole(bytes) => Ok(bytes),
        Input::Over => {
            let fault = Fault::new(code::PROGRAM_FILE_TOO_LONG);
            Err(CommandFailure::of_program(fault, Some(path)))
        }
    }
}

/// Returns all bytes of a text of numbers, which may have as many as a CSV text.
pub fn read_numbers<'a>(
    rt: &HostRuntime,
    path: &'a str,
    file: InFile,
) -> Result<Vec<u8>, CommandFailure<'a>> {
    match read_text(rt, path, file, MAX_CSV_LEN)? {
        Input::Whole(text) => Ok(text),
        Input::Over => Err(CommandFailure::new(Fault::new(code::CSV_TOO_LONG))),
    }
}

/// Returns all bytes of a table file. None has as many as the limit.
pub fn read_table<'a>(
    rt: &HostRuntime,
    path: &'a str,
    file: InFile,
) -> Result<Vec<u8>, CommandFailure<'a>> {
    match read_text(rt, path, file, 1 << 40)? {
        Input::Whole(bytes) => Ok(bytes),
        Input::Over => Err(CommandFailure::new(Fault::new(code::OUT_OF_MEMORY))),
    }
}

/// Returns the bytes of a file, if there are no more than a limit.
fn read_text<'a>(
    rt: &HostRuntime,
    path: &'a str,
    mut file: InFile,
    limit: u64,
) -> Result<Input, CommandFailure<'a>>
    requires { limit < 2 ^ 63 }
{
    let mut source = FromRead::new(&mut file);
    let done = read_limited(rt.alloc(), &mut source, limit);
    or_failure(done, &[(path, file.reads())])
}

/// Returns a table file that is read in large pieces, or in one if it's smaller, since unneeded
/// memory would have to be cleared.
pub fn read_ahead<'f>(
    rt: &HostRuntime,
    file: &'f mut InFile,
) -> Result<ReadAhead<&'f mut InFile>, CommandFailure<'static>>
    ensures { IfOk result (λ source. read_failures source ≡ 0) }
{
    let piece = match file.len() {
        Some(len) if 0 < len && len < PIECE as u64 => len as usize,
        _ => PIECE,
    };
    match ReadAhead::new(rt.alloc(), file, piece) {
        Ok(source) => Ok(source),
        Err(fault) => Err(CommandFailure::new(fault)),
    }
}

/// Returns standard input, read in pieces of up to 128 KiB.
pub fn input_ahead(rt: &HostRuntime) -> Result<ReadAhead<Stdin>, CommandFailure<'static>>
    ensures { IfOk result (λ source. read_failures source ≡ 0) }
{
    match ReadAhead::new(rt.alloc(), rt.stdin(), PIECE) {
        Ok(source) => Ok(source),
        Err(fault) => Err(CommandFailure::new(fault)),
    }
}
