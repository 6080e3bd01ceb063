//! Why a command failed.
use bw_model::{Fault, code};
use std::io::{self, ErrorKind};

/// The outcome of the reads of a file.
#[derive(Clone, Copy)]
pub enum Reads {
    /// No read failed.
    Good,
    /// A read failed, or the file couldn't be opened, for this reason of the system.
    Failed(io::Error),
    /// The file changed meanwhile.
    Changed,
    /// It is a pipe, and was to be read at places.
    OfPipe,
}

/// Why a command failed: its error; the program file that has it, if the command may have several;
/// the file whose reads failed, if that is the error; and why a write failed, if that is.
#[derive(Clone, Copy)]
pub struct CommandFailure<'a> {
    pub fault: Fault,
    pub program: Option<&'a str>,
    pub failed_file: Option<(&'a str, Reads)>,
    pub write_error: Option<io::Error>,
}

impl<'a> CommandFailure<'a> {
    /// Returns the failure of a command that read no file.
    pub fn new(fault: Fault) -> Self {
        CommandFailure {
            fault,
            program: None,
            failed_file: None,
            write_error: None,
        }
    }

    /// Returns the failure of a command that couldn't open one of its files.
    pub fn unreadable(path: &'a str, error: io::Error) -> Self {
        CommandFailure {
            failed_file: Some((path, Reads::Failed(error))),
            ..CommandFailure::new(Fault::new(code::READ_FAILED))
        }
    }

    /// Returns the failure of a command, given the files that it had opened and the outcome of
    /// their reads, and the system's reason for a failed write.
    pub fn of(fault: Fault, files: &[(&'a str, Reads)], write_error: Option<io::Error>) -> Self {
        let failed = files
            .iter()
            .find(|(_, reads)| !matches!(reads, Reads::Good));
        CommandFailure {
            failed_file: failed.copied(),
            write_error,
            ..CommandFailure::new(fault)
        }
    }

    /// Returns the failure of a command by one of its program files.
    pub fn of_program(fault: Fault, path: Option<&'a str>) -> Self {
        CommandFailure {
            program: path,
            ..CommandFailure::new(fault)
        }
    }

    /// Returns whether a write failed since the reader of a pipe has ended, as in `bw dump t.bw |
    /// head`.
    pub fn is_closed_pipe(&self) -> bool {
        let is_pipe = self
            .write_error
            .is_some_and(|error| error.kind() == ErrorKind::BrokenPipe);
        self.fault.code == code::WRITE_FAILED && is_pipe
    }
}

/// Returns the result of a call, or the failure of the command: the call's error, and the files
/// that it read, each with whether its reads failed.
pub fn or_failure<'a, T>(
    done: Result<T, Fault>,
    files: &[(&'a str, Reads)],
) -> Result<T, CommandFailure<'a>> {
    match done {
        Ok(given) => Ok(given),
        Err(fault) => Err(CommandFailure::of(fault, files, None)),
    }
}

/// Returns the same for a call that writes, with the reason of a failed write.
pub fn or_write_failure<'a, T>(
    done: Result<T, Fault>,
    files: &[(&'a str, Reads)],
    error: Option<io::Error>,
) -> Result<T, CommandFailure<'a>> {
    match done {
        Ok(given) => Ok(given),
        Err(fault) => Err(CommandFailure::of(fault, files, error)),
    }
}
