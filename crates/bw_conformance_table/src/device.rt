//! Sources and sinks over memory and over a reader that fails: pieces, counted failures, and whole
//! inputs and texts.
use bw_io::{Failed, FromRead, Input, Sink, Source, ToWrite, read_limited, write_whole};
use std::io;
use std::io::{Read, Write};
use std::test::Fail;

/// Is interrupted once; then its end is read, and it accepts everything.
struct Interrupted {
    once: bool,
}

impl Interrupted {
    /// Fails the first time.
    fn interrupt(&mut self) -> io::Result<()> {
        if self.once {
            return Ok(());
        }
        self.once = true;
        Err(io::ErrorKind::Interrupted.into())
    }
}

impl Read for Interrupted {
    fn read(&mut self, _buffer: &mut [u8]) -> io::Result<usize> {
        self.interrupt()?;
        Ok(0)
    }
}

impl Write for Interrupted {
    fn write(&mut self, bytes: &[u8]) -> io::Result<usize> {
        self.interrupt()?;
        Ok(bytes.len())
    }

    fn flush(&mut self) -> io::Result<()> {
        Ok(())
    }
}

#[test]
fn bytes_come_from_memory(rt: HostRuntime) {
    let mut source = FromRead::new(b"bytes".as_slice());
    let mut buffer = [0; 4];
    assert_eq!(rt; source.read(&mut buffer), Ok(4));
    assert_eq!(rt; &buffer, b"byte");
    assert_eq!(rt; source.read(&mut buffer), Ok(1));
    assert_eq!(rt; source.read(&mut buffer), Ok(0));
    assert_eq!(rt; source.failures(), 0);
    assert_eq!(rt; source.into_inner().len(), 0);
}

#[test]
fn an_interrupted_read_counts(rt: HostRuntime) {
    let mut source = FromRead::new(Interrupted { once: false });
    assert_eq!(rt; source.read(&mut [0; 4]), Err(Failed));
    assert_eq!(rt; source.failures(), 1);
    assert_eq!(rt; source.read(&mut [0; 4]), Ok(0));
    assert_eq!(rt; source.failures(), 1);
    let Interrupted { once } = source.into_inner();
    assert!(rt; once);
}

#[test]
fn an_interrupted_write_counts(rt: HostRuntime) {
    let mut sink = ToWrite::new(Interrupted { once: false });
    assert_eq!(rt; sink.write(b"bytes"), Err(Failed));
    assert_eq!(rt; sink.failures(), 1);
    assert_eq!(rt; sink.write(b"bytes"), Ok(5));
    assert_eq!(rt; sink.failures(), 1);
    let Interrupted { once } = sink.into_inner();
    assert!(rt; once);
}

#[test]
fn bytes_go_to_memory(rt: HostRuntime) {
    let mut sink = ToWrite::new(Vec::new(rt.alloc()));
    assert_eq!(rt; sink.write(b"by"), Ok(2));
    assert_eq!(rt; sink.write(b""), Ok(0));
    assert_eq!(rt; sink.write(b"tes"), Ok(3));
    assert_eq!(rt; sink.failures(), 0);
    assert_eq!(rt; sink.into_inner().as_slice(), b"bytes".as_slice());
}

#[test]
fn a_full_writer_counts(rt: HostRuntime) {
    let mut room = [0; 3];
    let mut sink = ToWrite::new(room.as_mut_slice());
    assert_eq!(rt; sink.write(b"bytes"), Ok(3));
    assert_eq!(rt; sink.write(b"es"), Err(Failed));
    assert_eq!(rt; sink.failures(), 1);
    assert_eq!(rt; sink.write(b""), Ok(0));
    assert_eq!(rt; sink.failures(), 1);
    assert_eq!(rt; sink.into_inner().len(), 0);
}

#[test]
fn a_source_is_read_whole_or_is_over(rt: HostRuntime) -> Result<(), Fail> {
    let text = b"TABLE t".as_slice();
    for limit in [0, 6, 7, 8, 100] {
        let mut source = FromRead::new(text);
        let input = read_limited(rt.alloc(), &mut source, limit)?;
        let came = match input {
            Input::Whole(bytes) => bytes.as_slice() == text,
            Input::Over => false,
        };
        assert_eq!(rt; came, limit >= 7, "at limit {limit}");
        let left = source.into_inner();
        let taken = (limit as usize + 1).min(7);
        assert_eq!(rt; left.len(), 7 - taken, "at limit {limit}");
    }
    Ok(())
}

#[test]
fn a_text_is_written_whole(rt: HostRuntime) -> Result<(), Fail> {
    let mut sink = ToWrite::new(Vec::new(rt.alloc()));
    write_whole(&mut sink, b"COUNT(*)\n")?;
    write_whole(&mut sink, b"")?;
    write_whole(&mut sink, b"3\n")?;
    assert_eq!(rt; sink.into_inner().as_slice(), b"COUNT(*)\n3\n".as_slice());
    Ok(())
}
