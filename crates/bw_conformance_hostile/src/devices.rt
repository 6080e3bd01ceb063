//! Sources and sinks that move few bytes at a time, fail at a given call, or never end.
ghost use Rattle.std.specs.Prelude.{◌≡◌, None, []};
ghost use Rattle.bw_io.specs.Sink.{sink_state};
ghost use Rattle.bw_io.specs.Source.{source_state};

use bw_io::{Failed, SharedBytes, Sink, Source};

/// What one call may move, at which call the device fails (from 1; 0 for never), and what has
/// happened.
#[derive(Drop)]
pub struct Calls {
    pub piece: usize,
    pub fail_at: u64,
    pub made: u64,
    pub failures: u64,
}

impl Calls {
    fn new(piece: usize, fail_at: u64) -> Self
        ensures { result.failures ≡ 0 }
    {
        Calls {
            piece,
            fail_at,
            made: 0,
            failures: 0,
        }
    }
}

/// Yields the unread bytes, and then nothing.
#[derive(Drop)]
pub struct Pieces<'a> {
    pub left: &'a [u8],
    pub calls: Calls,
}

impl<'a> Pieces<'a> {
    pub fn new(left: &'a [u8], piece: usize, fail_at: u64) -> Self
        ensures { result.calls.failures ≡ 0 }
    {
        Pieces {
            left,
            calls: Calls::new(piece, fail_at),
        }
    }
}

impl Source for Pieces<'_> {
    ghost state = { λ s. source_state None s.calls.failures };

    ghost kept = { λ _. [] };

    fn read(&mut self, buffer: &mut [u8]) -> Result<usize, Failed> {
        self.calls.made = self.calls.made.saturating_add(1);
        if self.calls.made == self.calls.fail_at {
            self.calls.failures += 1;
            return Err(Failed);
        }
        let n = self.calls.piece.min(buffer.len()).min(self.left.len());
        buffer[..n].copy_from_slice(&self.left[..n]);
        self.left = &self.left[n..];
        Ok(n)
    }

    fn share(&self, _count: usize) -> Option<SharedBytes> {
        None
    }

    fn pass(&mut self, _count: usize) {}

    fn failures(&self) -> u64 {
        self.calls.failures
    }
}

/// Yields the unread bytes, and then one byte without end, and counts what it yielded.
#[derive(Drop)]
pub struct Endless<'a> {
    pub left: &'a [u8],
    pub then: u8,
    pub piece: usize,
    pub given: usize,
}

impl Source for Endless<'_> {
    ghost state = { λ _. source_state None 0 };

    ghost kept = { λ _. [] };

    fn read(&mut self, buffer: &mut [u8]) -> Result<usize, Failed> {
        let all = self.piece.min(buffer.len());
        let n = all.min(self.left.len());
        buffer[..n].copy_from_slice(&self.left[..n]);
        self.left = &self.left[n..];
        for byte in buffer[n..all].iter_mut() {
            *byte = self.then;
        }
        self.given = self.given.saturating_add(all);
        Ok(all)
    }

    fn share(&self, _count: usize) -> Option<SharedBytes> {
        None
    }

    fn pass(&mut self, _count: usize) {}

    fn failures(&self) -> u64 {
        0
    }
}

/// Yields a byte this many times, then a text, and then nothing.
#[derive(Drop)]
pub struct Repeated<'a> {
    pub byte: u8,
    pub left: usize,
    pub then: &'a [u8],
}

impl Source for Repeated<'_> {
    ghost state = { λ _. source_state None 0 };

    ghost kept = { λ _. [] };

    fn read(&mut self, buffer: &mut [u8]) -> Result<usize, Failed> {
        if self.left == 0 {
            let n = buffer.len().min(self.then.len());
            buffer[..n].copy_from_slice(&self.then[..n]);
            self.then = &self.then[n..];
            return Ok(n);
        }
        let n = buffer.len().min(self.left);
        for byte in buffer[..n].iter_mut() {
            *byte = self.byte;
        }
        self.left -= n;
        Ok(n)
    }

    fn share(&self, _count: usize) -> Option<SharedBytes> {
        None
    }

    fn pass(&mut self, _count: usize) {}

    fn failures(&self) -> u64 {
        0
    }
}

/// Stores the bytes that it consumed.
#[derive(Drop)]
pub struct ByteSink {
    pub taken: Vec<u8>,
    pub calls: Calls,
}

impl ByteSink {
    pub fn new(taken: Vec<u8>, piece: usize, fail_at: u64) -> Self
        ensures { result.calls.failures ≡ 0 }
    {
        ByteSink {
            taken,
            calls: Calls::new(piece, fail_at),
        }
    }

    /// Consumes all that it is given, and never fails.
    pub fn without_failures(taken: Vec<u8>) -> Self
        ensures { result.calls.failures ≡ 0 }
    {
        ByteSink::new(taken, usize::MAX, 0)
    }
}

impl Sink for ByteSink {
    ghost state = { λ s. sink_state None s.calls.failures };

    fn write(&mut self, bytes: &[u8]) -> Result<usize, Failed> {
        self.calls.made = self.calls.made.saturating_add(1);
        let n = self.calls.piece.max(1).min(bytes.len());
        if self.calls.made == self.calls.fail_at
            || self.taken.extend_from_slice(&bytes[..n]).is_err()
        {
            self.calls.failures += 1;
            return Err(Failed);
        }
        Ok(n)
    }

    fn failures(&self) -> u64 {
        self.calls.failures
    }
}
