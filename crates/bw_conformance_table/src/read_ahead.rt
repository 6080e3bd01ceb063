//! Table files from a source that reads ahead and shares its buffer.
ghost use Rattle.std.specs.Prelude.{◌<◌};

use crate::damage::flip;
use crate::files::{long_file, worked_files};
use bw_file::{Layout, TableReader, decode};
use bw_io::{Failed, ReadAhead, Source};
use bw_model::{Fault, Value};
use bw_segment::Segment;
use std::alloc::Global;
use std::io;
use std::io::Read;
use std::process::Abort;
use std::test::Fail;

/// Returns the first value of each segment of a file, while all of them are borrowed, or the file's
/// first error. The source requests this many bytes at a time.
fn first_values(alloc: Global, file: &[u8], piece: usize) -> Result<Vec<Value>, Fault>
    requires { 0 < piece }
{
    let mut source = ReadAhead::new(alloc, file, piece)?;
    let mut reader = TableReader::begin(alloc, &mut source)?;
    let mut held = Vec::new(alloc);
    for _ in 0..4 {
        if source.failures() > 0 {
            break;
        }
        if let Some(segment) = reader.next_segment(&mut source)? {
            held.push(segment)?;
        }
    }
    let mut values = Vec::new(alloc);
    for segment in &held {
        if segment.rows_in() > 0 && !segment.schema().columns.is_empty() {
            values.push(segment.value(0, 0))?;
        }
    }
    Ok(values)
}

/// Ends the test unless this is a file's first error, if it has one; `at` says where it was changed.
pub(crate) fn assert_ahead(
    rt: &impl Abort,
    alloc: Global,
    file: &[u8],
    at: usize,
    fault: Option<Fault>,
) {
    for piece in [700, 8192] {
        let found = first_values(alloc, file, piece).err();
        assert_eq!(rt; found, fault, "byte {at}, pieces of {piece}");
    }
}

#[test]
fn each_bit_is_reported_the_same(rt: HostRuntime) -> Result<(), Fail> {
    let alloc = rt.alloc();
    for file in &mut worked_files(&rt)? {
        for at in 0..file.len() {
            flip(file, at, 1);
            assert_ahead(&rt, alloc, file, at, decode(alloc, file).err());
            flip(file, at, 1);
        }
    }
    Ok(())
}

/// Rows 0, 1, 2 and so on to 1,199, in three segments: whatever is read after a segment leaves its
/// bytes as they are.
#[test]
fn segments_that_are_held_keep_their_bytes(rt: HostRuntime) -> Result<(), Fail> {
    let alloc = rt.alloc();
    for layout in [Layout::Planes, Layout::Slices] {
        let file = long_file(&rt, layout, 1_200)?;
        for piece in [1, 100, 1_500, 3_000, 100_000] {
            let values = first_values(alloc, &file, piece)?;
            assert_eq!(rt;
                values.as_slice(),
                [Some(0), Some(512), Some(1_024)].as_slice(),
                "pieces of {piece}"
            );
        }
    }
    Ok(())
}

/// Fails at its second read, and yields a byte at each other one.
#[derive(Drop)]
struct FailsOnce {
    reads: u32,
}

impl Read for FailsOnce {
    fn read(&mut self, buffer: &mut [u8]) -> io::Result<usize> {
        self.reads = self.reads.saturating_add(1);
        if self.reads == 2 {
            return Err(io::ErrorKind::Interrupted.into());
        }
        match buffer {
            [first, ..] => {
                *first = 7;
                Ok(1)
            }
            [] => Ok(0),
        }
    }
}

#[test]
fn a_read_ahead_that_fails_is_counted(rt: HostRuntime) -> Result<(), Fail> {
    let mut source = ReadAhead::new(rt.alloc(), FailsOnce { reads: 0 }, 16)?;
    let mut buffer = [0; 4];
    assert_eq!(rt; source.read(&mut buffer), Ok(1));
    assert_eq!(rt; source.read(&mut buffer), Err(Failed));
    assert_eq!(rt; source.failures(), 1);
    assert_eq!(rt; source.read(&mut buffer), Ok(1));
    assert_eq!(rt; source.failures(), 1);
    Ok(())
}
