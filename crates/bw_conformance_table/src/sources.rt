//! Table files from sources that yield little, or fail.
use crate::files::worked_files;
use bw_file::TableReader;
use bw_io::{FromRead, Source};
use bw_model::{Fault, code};
use std::alloc::Global;
use std::io;
use std::io::Read;
use std::test::Fail;

/// Yields a byte a read, and fails at one of the reads.
#[derive(Drop)]
struct Drops<'a> {
    rest: &'a [u8],
    left: usize,
}

impl Read for Drops<'_> {
    fn read(&mut self, buffer: &mut [u8]) -> io::Result<usize> {
        if self.left == 0 {
            return Err(io::ErrorKind::Interrupted.into());
        }
        self.left -= 1;
        match self.rest {
            [byte, rest @ ..] if !buffer.is_empty() => {
                buffer[0] = *byte;
                self.rest = rest;
                Ok(1)
            }
            _ => Ok(0),
        }
    }
}

/// Returns how many rows a file has, read from a source that fails after this many reads: each is
/// one byte's, and one is the end's.
fn rows_after(alloc: Global, file: &[u8], reads: usize) -> Result<u32, Fault> {
    let mut source = FromRead::new(Drops {
        rest: file,
        left: reads,
    });
    let mut reader = TableReader::begin(alloc, &mut source)?;
    for _ in 0..2 {
        if source.failures() > 0 {
            break;
        }
        reader.next_segment(&mut source)?;
    }
    Ok(reader.given())
}

#[test]
fn a_read_that_fails_is_reported(rt: HostRuntime) -> Result<(), Fail> {
    let alloc = rt.alloc();
    for (file, rows) in worked_files(&rt)?.iter().zip([5, 5, 3, 3]) {
        for reads in 0..=file.len() {
            let failed = rows_after(alloc, file, reads).err();
            assert_eq!(rt;
                failed,
                Some(Fault::new(code::READ_FAILED)),
                "after {reads} reads"
            );
        }
        assert_eq!(rt; rows_after(alloc, file, file.len() + 1), Ok(rows));
    }
    Ok(())
}

/// Yields its bytes, and then zeros without end.
#[derive(Drop)]
struct Endless<'a> {
    rest: &'a [u8],
}

impl Read for Endless<'_> {
    fn read(&mut self, buffer: &mut [u8]) -> io::Result<usize> {
        let n = buffer.len().min(self.rest.len());
        buffer[..n].copy_from_slice(&self.rest[..n]);
        buffer[n..].fill(0);
        self.rest = &self.rest[n..];
        Ok(buffer.len())
    }
}

#[test]
fn what_never_ends_is_refused_after_the_last_block(rt: HostRuntime) -> Result<(), Fail> {
    let alloc = rt.alloc();
    for file in &worked_files(&rt)? {
        let mut source = FromRead::new(Endless { rest: file });
        let mut reader = TableReader::begin(alloc, &mut source)?;
        assert!(rt; reader.next_segment(&mut source)?.is_some());
        let end = Fault::at_byte(309, file.len() as u64);
        for _ in 0..2 {
            assert_eq!(rt; source.failures(), 0);
            assert_eq!(rt; reader.next_segment(&mut source).err(), Some(end));
        }
    }
    let mut source = FromRead::new(Endless { rest: &[] });
    let magic = TableReader::begin(alloc, &mut source).err();
    assert_eq!(rt; magic, Some(Fault::at_byte(301, 0)));
    Ok(())
}
