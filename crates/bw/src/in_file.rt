//! An input file that mustn't change while it is read.
ghost use Rattle.std.specs.Prelude.{◌+◌, ◌≤◌, length};
ghost use Rattle.std.specs.Io.{ReadsAtMost};

use crate::failure::Reads;
use std::fs::File;
use std::io::{self, ErrorKind, Read, Seek, SeekFrom};
use std::os::unix::fs::{FileExt, MetadataExt};

/// The metadata of a regular file that changes whenever its bytes do.
#[derive(Clone, Copy)]
struct Version {
    length: u64,
    /// The time of the last change of its bytes: seconds and nanoseconds.
    modified: (i64, i64),
    /// The time of the last change of anything about it, its times and its names included.
    changed: (i64, i64),
    /// The number of its names.
    names: u64,
}

impl Version {
    /// Returns the version of a regular file; none for a pipe or a device, or if the system has no
    /// metadata.
    fn of(file: &File) -> Option<Self> {
        let found = file.metadata().ok()?;
        found.is_file().then_some(Version {
            length: found.len(),
            modified: (found.mtime(), found.mtime_nsec()),
            changed: (found.ctime(), found.ctime_nsec()),
            names: found.nlink(),
        })
    }

    /// Returns whether the file may have other bytes now. A file that lost a name, because another
    /// was moved onto it, has the same bytes.
    fn differs_from(&self, now: &Version) -> bool {
        self.length != now.length
            || self.modified != now.modified
            || (self.changed != now.changed && self.names == now.names)
    }
}

/// The first bytes of a pipe, of which some have been given to a reader.
#[derive(Clone, Copy)]
struct Front {
    bytes: [u8; 8],
    count: usize,
    given: usize,
    ghost all: { count ≤ 8 },
    ghost some: { given ≤ count },
}

impl Front {
    /// Reads the first eight bytes, or fewer if there are no more.
    fn read(file: &mut File) -> io::Result<Self> {
        let mut bytes = [0u8; 8];
        let mut count = 0;
        while count < bytes.len() {
            match file.read(&mut bytes[count..])? {
                0 => break,
                n => count += n,
            }
        }
        Ok(Front {
            bytes,
            count,
            given: 0,
        })
    }

    /// Copies the bytes from a place on into the front of the buffer. Returns how many they are.
    fn copy_from(&self, at: usize, buffer: &mut [u8]) -> usize
        requires { at ≤ self.now.count }
        ensures buffer { result ≤ length buffer.new }
        ensures front { at + result ≤ self.now.count }
    {
        let bytes = &self.bytes[at..self.count];
        let count = bytes.len().min(buffer.len());
        buffer[..count].copy_from_slice(&bytes[..count]);
        count
    }
}

/// A file to read from. At its end, a regular file is compared with what it was when it was opened.
/// If it has changed, the read that finds the end fails. Reads at places compare nothing:
/// [`InFile::confirm`] does. Of a pipe only the first eight bytes can be read at places.
#[derive(Drop)]
pub struct InFile {
    file: File,
    opened: Option<Version>,
    reads: Reads,
    front: Option<Front>,
}

impl InFile {
    /// Returns a file that was just opened.
    pub fn new(file: File) -> Self {
        let opened = Version::of(&file);
        InFile {
            file,
            opened,
            reads: Reads::Good,
            front: None,
        }
    }

    /// Returns the length of a regular file when it was opened.
    pub fn len(&self) -> Option<u64> {
        self.opened.map(|version| version.length)
    }

    /// Returns whether its reads failed so far, and why.
    pub fn reads(&self) -> Reads {
        self.reads
    }

    /// Reads from a place on into the front of the buffer. Returns how many bytes were read.
    pub fn read_at(&mut self, at: u64, buffer: &mut [u8]) -> io::Result<usize>
        ensures { ReadsAtMost result buffer.new }
    {
        let done = match self.opened {
            Some(_) => self.file.read_at(buffer, at),
            None => self.read_front(at, buffer),
        };
        if let Err(error) = done {
            self.reads = Reads::Failed(error);
        }
        done
    }

    /// Reads the first bytes of a pipe from a place on.
    fn read_front(&mut self, at: u64, buffer: &mut [u8]) -> io::Result<usize>
        ensures { ReadsAtMost result buffer.new }
    {
        let front = match self.front {
            Some(front) => front,
            None => Front::read(&mut self.file)?,
        };
        self.front = Some(front);
        Ok(front.copy_from(front.count.min(at as usize), buffer))
    }

    /// Notes that a pipe is to be read at places.
    pub fn refuse_places(&mut self) {
        self.reads = Reads::OfPipe;
    }

    /// Goes back to the first byte of a regular file. Returns whether it did.
    pub fn rewind(&mut self) -> bool {
        match self.file.seek(SeekFrom::Start(0)) {
            Ok(_) => true,
            Err(error) => {
                self.reads = Reads::Failed(error);
                false
            }
        }
    }

    /// Compares a regular file with what it was when it was opened. Returns whether it's the same.
    pub fn confirm(&mut self) -> bool {
        let is_same = !self.has_changed();
        if !is_same {
            self.reads = Reads::Changed;
        }
        is_same
    }

    fn has_changed(&self) -> bool {
        match (&self.opened, Version::of(&self.file)) {
            (Some(opened), Some(now)) => opened.differs_from(&now),
            (Some(_), None) => true,
            (None, _) => false,
        }
    }
}

impl Read for InFile {
    fn read(&mut self, buffer: &mut [u8]) -> io::Result<usize> {
        if let Some(front) = &mut self.front {
            if front.given < front.count {
                let count = front.copy_from(front.given, buffer);
                front.given += count;
                return Ok(count);
            }
        }
        let done = self.file.read(buffer);
        match done {
            Err(error) => self.reads = Reads::Failed(error),
            Ok(0) if !buffer.is_empty() && self.has_changed() => {
                self.reads = Reads::Changed;
                return Err(ErrorKind::Other.into());
            }
            Ok(_) => {}
        }
        done
    }
}
