//! Standard output, with the reason of a failed write.
use std::io::{self, Write};

/// A writer that stores the last error of its writes.
#[derive(Drop)]
pub struct OutStream<W> {
    inner: W,
    error: Option<io::Error>,
}

impl<W> OutStream<W> {
    /// Returns a writer of which no write has failed.
    pub fn new(inner: W) -> Self {
        OutStream { inner, error: None }
    }

    /// Returns why the last write failed, if one did.
    pub fn error(&self) -> Option<io::Error> {
        self.error
    }
}

impl<W: Write> Write for OutStream<W> {
    fn write(&mut self, bytes: &[u8]) -> io::Result<usize> {
        let done = self.inner.write(bytes);
        if let Err(error) = done {
            self.error = Some(error);
        }
        done
    }

    fn flush(&mut self) -> io::Result<()> {
        self.inner.flush()
    }
}
