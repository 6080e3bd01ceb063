//! An input file that is read at places.
ghost use Rattle.std.specs.Prelude.{◌≡◌, None, false};
ghost use Rattle.bw_io.specs.RandomAccess.{access_state};

use crate::failure::Reads;
use crate::in_file::InFile;
use bw_io::{Failed, RandomAccess};

/// A regular file that is read at places. It states no bytes, and its length is the one that it had
/// when it was opened. A pipe has no length: asking for it fails. Its first eight bytes can be read.
#[derive(Drop)]
pub struct FileAt<'f> {
    file: &'f mut InFile,
    failures: u64,
    is_confirmed: bool,
}

impl<'f> FileAt<'f> {
    pub fn new(file: &'f mut InFile) -> Self
        ensures { result.failures ≡ 0 }
    {
        FileAt {
            file,
            failures: 0,
            is_confirmed: false,
        }
    }

    /// Returns whether the file's reads failed so far, and why.
    pub fn reads(&self) -> Reads {
        self.file.reads()
    }
}

impl RandomAccess for FileAt<'_> {
    ghost state = { λ device. access_state None device.failures device.is_confirmed };

    fn read_at(&mut self, at: u64, buffer: &mut [u8]) -> Result<usize, Failed> {
        self.is_confirmed = false;
        match self.file.read_at(at, buffer) {
            Ok(count) => Ok(count),
            Err(_) => {
                self.failures += 1;
                Err(Failed)
            }
        }
    }

    fn size(&mut self) -> Result<u64, Failed> {
        match self.file.len() {
            Some(size) => Ok(size),
            None => {
                self.file.refuse_places();
                self.failures += 1;
                Err(Failed)
            }
        }
    }

    fn confirm(&mut self) -> Result<(), Failed> {
        if self.file.confirm() {
            self.is_confirmed = true;
            Ok(())
        } else {
            self.failures += 1;
            Err(Failed)
        }
    }
}
