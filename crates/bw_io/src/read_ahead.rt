//! A source over any reader of std that reads ahead.
ghost use Rattle.std.specs.Prelude.{◌≡◌, ◌<◌, ◌≤◌, drop, length, vec_len};
ghost use Rattle.std.specs.Io.{ReadsAtMost};
ghost use Rattle.std.specs.Io.KnownBytes.{ReadConsumes};
ghost use Rattle.bw_io.specs.declared.read_ahead.TheConstants.{FRONT};

use crate::failed::Failed;
use crate::shared::SharedBytes;
use crate::source::Source;
use bw_model::Fault;
use std::alloc::Global;
use std::io::{Error, Read};
use std::rc::Rc;

/// The number of unused bytes of the memory before a piece. A system's allocator returns memory as
/// large as a piece from 16 bytes after a multiple of 64 on, and a system copies a file fastest to
/// such a multiple.
const FRONT: usize = 48;

/// A reader of std as a source, which reads one piece at a time. The unread rest of a piece can be
/// shared. Each error of the reader counts as a failure, that of an interrupted call too.
#[derive(Drop)]
pub struct ReadAhead<R> {
    inner: R,
    memory: Rc<Vec<u8>>,
    start: usize,
    end: usize,
    failures: u64,
    ghost nonempty: { FRONT < vec_len memory.value },
    ghost ordered: { start ≤ end },
    ghost within: { end ≤ vec_len memory.value },
}

impl<R: Drop> ReadAhead<R> {
    ghost use Rattle.std.specs.Prelude.{◌≡◌, [], IfOk, IsOkUnless};
    ghost use Rattle.bw_model.specs.Fault.{no_memory};
    ghost use Rattle.bw_io.specs.ReadAhead.{buffered_bytes, read_failures, reader_of};

    /// Returns a source that reads `piece` bytes at a time, which must be at least 1. Errors: 801
    /// if memory is refused.
    pub fn new(alloc: Global, inner: R, piece: usize) -> Result<Self, Fault>
        requires { 0 < piece }
        ensures reader { IfOk result (λ source. reader_of source ≡ inner) }
        ensures count { IfOk result (λ source. read_failures source ≡ 0) }
        ensures empty { IfOk result (λ source. buffered_bytes source ≡ []) }
        ensures only_oom { IsOkUnless result no_memory }
    {
        let size = piece.saturating_add(FRONT);
        let mut bytes = Vec::with_capacity(alloc, size)?;
        bytes.resize(size, 0)?;
        let memory = Rc::new(alloc, bytes)?;
        Ok(ReadAhead {
            inner,
            memory,
            start: FRONT,
            end: FRONT,
            failures: 0,
        })
    }
}

impl<R: Read> ReadAhead<R> {
    ghost use Rattle.std.specs.Prelude.{◌≡◌, ◌-◌, ◌^◌, [], IfOk, false, true};
    ghost use Rattle.std.specs.Io.{ReadsAtMost};
    ghost use Rattle.std.specs.Io.KnownBytes.{IsAtEnd, Keeps, ReadConsumes};
    ghost use Rattle.bw_io.specs.Failure.{failures_after};
    ghost use Rattle.bw_io.specs.ReadAhead.{unread_bytes, buffered_bytes, read_failures};

    /// Reads a piece if the one before is used up. Returns whether it could: not while others own
    /// the memory.
    fn fill(&mut self) -> Result<bool, Failed>
        requires counter_fits { read_failures self.old < 2 ^ 64 - 1 }
        requires empty { self.old.start ≡ self.old.end }
        ensures bytes { Keeps (unread_bytes R.remaining self.old)
            (unread_bytes R.remaining self.new) }
        ensures ended { IfOk result (λ read. read ≡ true → buffered_bytes self.new ≡ []
            → IsAtEnd (unread_bytes R.remaining self.new)) }
        ensures still { IfOk result (λ read. read ≡ false → self.new.start ≡ self.new.end) }
        ensures count { read_failures self.new ≡ failures_after result (read_failures self.old) }
    {
        let Some(memory) = Rc::get_mut(&mut self.memory) else {
            return Ok(false);
        };
        self.start = FRONT;
        self.end = FRONT;
        match read_piece(&mut self.inner, memory) {
            Ok(count) => {
                self.end = FRONT + count;
                Ok(true)
            }
            Err(_) => {
                self.failures += 1;
                Err(Failed)
            }
        }
    }

    /// Reads into a buffer from the reader itself.
    fn read_past(&mut self, buffer: &mut [u8]) -> Result<usize, Failed>
        requires counter_fits { read_failures self.old < 2 ^ 64 - 1 }
        requires empty { self.old.start ≡ self.old.end }
        ensures bound { ReadsAtMost result buffer.new }
        ensures bytes { ReadConsumes (unread_bytes R.remaining self.old)
            (unread_bytes R.remaining self.new) result buffer.new }
        ensures count { read_failures self.new ≡ failures_after result (read_failures self.old) }
    {
        match self.inner.read(buffer) {
            Ok(count) => Ok(count),
            Err(_) => {
                self.failures += 1;
                Err(Failed)
            }
        }
    }
}

impl<R> ReadAhead<R> {
    ghost use Rattle.std.specs.Prelude.{◌≡◌, ◌++◌, length, min, take};
    ghost use Rattle.bw_io.specs.ReadAhead.{buffered_bytes, read_failures, reader_of};

    /// Copies as many bytes as are left and fit the buffer. Returns how many.
    fn hand_over(&mut self, buffer: &mut [u8]) -> usize
        ensures count { result ≡ min (length (buffered_bytes self.old)) (length buffer.old) }
        ensures bytes { buffered_bytes self.old
            ≡ take result buffer.new ++ buffered_bytes self.new }
        ensures reader { reader_of self.new ≡ reader_of self.old }
        ensures failures { read_failures self.new ≡ read_failures self.old }
    {
        let memory: &Vec<u8> = &self.memory;
        let left = &memory[self.start..self.end];
        let given = left.len().min(buffer.len());
        buffer[..given].copy_from_slice(&left[..given]);
        self.start += given;
        given
    }
}

impl<R: Read> Source for ReadAhead<R> {
    ghost use Rattle.bw_io.specs.ReadAhead.{unread_bytes, buffered_bytes, read_failures};
    ghost use Rattle.bw_io.specs.Source.{source_state};

    ghost state = { λ s. source_state (unread_bytes R.remaining s) (read_failures s) };

    ghost kept = { buffered_bytes };

    fn read(&mut self, buffer: &mut [u8]) -> Result<usize, Failed> {
        if self.start == self.end && !(buffer.len() < self.memory.len() && self.fill()?) {
            return self.read_past(buffer);
        }
        Ok(self.hand_over(buffer))
    }

    fn share(&self, count: usize) -> Option<SharedBytes> {
        if self.end - self.start < count {
            return None;
        }
        SharedBytes::part(&self.memory, self.start, self.start + count)
    }

    fn pass(&mut self, count: usize) {
        self.start += count;
    }

    fn failures(&self) -> u64 {
        self.failures
    }
}

/// Reads into memory, after its front.
fn read_piece<R: Read>(inner: &mut R, memory: &mut [u8]) -> Result<usize, Error>
    requires { FRONT ≤ length memory.old }
    ensures bound { ReadsAtMost result (drop FRONT memory.new) }
    ensures bytes { ReadConsumes (R.remaining inner.old) (R.remaining inner.new) result
        (drop FRONT memory.new) }
    ensures long { length memory.new ≡ length memory.old }
{
    inner.read(&mut memory[FRONT..])
}
