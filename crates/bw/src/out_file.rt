//! A file that is created by the first write.
ghost use Rattle.std.specs.Prelude.{◌≡◌, None};
ghost use Rattle.bw_io.specs.Sink.{sink_state};

use bw_file::{Failed, Sink};
use std::fs::{self, File};
use std::io::{self, Write};
use std::os::unix::fs::MetadataExt;

/// A file to write to. It's created, or emptied, by the first write, so a call that writes nothing
/// leaves it as it was. If it can't be created, that write fails.
#[derive(Drop)]
pub struct OutFile<'a> {
    rt: &'a HostRuntime,
    path: &'a str,
    file: Option<File>,
    failures: u64,
    error: Option<io::Error>,
}

impl<'a> OutFile<'a> {
    pub fn new(rt: &'a HostRuntime, path: &'a str) -> Self
        ensures { result.failures ≡ 0 }
    {
        OutFile {
            rt,
            path,
            file: None,
            failures: 0,
            error: None,
        }
    }

    /// Returns why the system failed to create the file or to write to it, if it did.
    pub fn error(&self) -> Option<io::Error> {
        self.error
    }
}

/// Returns whether two names are of one regular file, by its device and its number there, so links
/// of both kinds are followed.
pub fn is_same_file(rt: &HostRuntime, one: &str, other: &str) -> bool {
    match (fs::metadata(rt, one), fs::metadata(rt, other)) {
        (Ok(one), Ok(other)) => {
            one.is_file() && one.dev() == other.dev() && one.ino() == other.ino()
        }
        _ => false,
    }
}

impl Sink for OutFile<'_> {
    ghost state = { λ out. sink_state None out.failures };

    fn write(&mut self, bytes: &[u8]) -> Result<usize, Failed> {
        if self.file.is_none() {
            match File::create(self.rt, self.path) {
                Ok(file) => self.file = Some(file),
                Err(error) => self.error = Some(error),
            }
        }
        if let Some(file) = &mut self.file {
            match file.write(bytes) {
                Ok(n) if n > 0 || bytes.is_empty() => return Ok(n),
                Ok(_) => {}
                Err(error) => self.error = Some(error),
            }
        }
        self.failures += 1;
        Err(Failed)
    }

    fn failures(&self) -> u64 {
        self.failures
    }
}
