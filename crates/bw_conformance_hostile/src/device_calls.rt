//! Calls over sources and sinks that move little at a time, fail at a given call, or never end.
ghost use Rattle.std.specs.Prelude.{◌≡◌};

use crate::calls::{
    COUNT, COUNTED, CSV, Call, DUMP, HEADER_LEN, INFO, LAYOUTS, Reads, SCHEMA, plan_file,
    table_file,
};
use crate::devices::{ByteSink, Endless};
use bw_file::{FromRead, Layout, ToWrite};
use bw_model::{Fault, MAX_CSV_LEN, code};
use bw_shell::{
    Accepted, By, Input, Served, accepted_line, answer, direct, dump, infer, load, read_limited,
    report, stats_line,
};
use std::process::Abort;
use std::test::Fail;

/// A call through a sink of one byte makes a write for each byte of its text. If a write fails, the
/// bytes before it went out, and the call says so.
fn check_writes(
    rt: &(impl Abort + AllocGlobal),
    call: Call<'_>,
    file: &[u8],
    text: &[u8],
) -> Result<(), Fail> {
    let whole = (text.len() as u64).saturating_add(1);
    for fail_at in 1..=whole {
        let mut sink = ByteSink::new(Vec::new(rt.alloc()), 1, fail_at);
        let outcome = call.make(rt.alloc(), Reads::WHOLE, file, &mut sink);
        let expected = if fail_at == whole {
            Ok(call.served_by())
        } else {
            Err(Fault::new(code::WRITE_FAILED))
        };
        assert_eq!(rt; outcome, expected, "at {fail_at}");
        assert_eq!(rt;
            sink.calls.made,
            fail_at.min(text.len() as u64),
            "at {fail_at}"
        );
        assert!(rt; text.starts_with(&sink.taken), "at {fail_at}");
        assert_eq!(rt; sink.taken.len() as u64, fail_at - 1);
    }
    Ok(())
}

#[test]
fn each_write_may_fail(rt: HostRuntime) -> Result<(), Fail> {
    let plan = plan_file(rt.alloc(), COUNT)?;
    assert_eq!(rt; COUNTED.len(), 11);
    check_writes(&rt, Call::Direct(COUNT), b"", COUNTED.as_bytes())?;
    check_writes(&rt, Call::Plan(COUNT), b"", &plan)?;
    check_writes(&rt, Call::Infer, b"", SCHEMA.as_bytes())?;
    let file = table_file(rt.alloc(), Layout::Planes)?;
    check_writes(&rt, Call::Info, &file, INFO.as_bytes())?;
    for layout in LAYOUTS {
        let file = table_file(rt.alloc(), layout)?;
        for program in [None, Some(plan.as_slice())] {
            check_writes(&rt, Call::Answer(COUNT, program), &file, COUNTED.as_bytes())?;
        }
        check_writes(&rt, Call::Dump, &file, DUMP.as_bytes())?;
        check_writes(&rt, Call::Load(layout), b"", &file)?;
    }
    Ok(())
}

/// Checks a call whose source, the one of this number, yields one byte a read: it reads its bytes
/// and the end, and if a read fails, the call returns that error and has written nothing.
fn check_reads(
    rt: &(impl Abort + AllocGlobal),
    call: Call<'_>,
    source: usize,
    file: &[u8],
    text: &[u8],
) -> Result<(), Fail> {
    let lens = [SCHEMA.len(), CSV.len(), file.len()];
    let whole = (lens.get(source).copied().unwrap_or(0) as u64).saturating_add(2);
    for fail in 1..=whole {
        let mut fail_at = [0; 3];
        if source < 3 {
            fail_at[source] = fail;
        }
        let mut sink = ByteSink::without_failures(Vec::new(rt.alloc()));
        let outcome = call.make(rt.alloc(), Reads { piece: 1, fail_at }, file, &mut sink);
        if fail == whole {
            assert_eq!(rt; outcome, Ok(call.served_by()), "source {source}");
            assert!(rt; sink.taken.as_slice() == text, "source {source}");
        } else {
            let failed = Err(Fault::new(code::READ_FAILED));
            assert_eq!(rt; outcome, failed, "source {source} at {fail}");
            assert_eq!(rt; sink.calls.made, 0, "source {source} at {fail}");
        }
    }
    Ok(())
}

#[test]
fn each_read_may_fail(rt: HostRuntime) -> Result<(), Fail> {
    let plan = plan_file(rt.alloc(), COUNT)?;
    check_reads(&rt, Call::Infer, 1, b"", SCHEMA.as_bytes())?;
    for layout in LAYOUTS {
        let file = table_file(rt.alloc(), layout)?;
        for source in [0, 1] {
            check_reads(&rt, Call::Direct(COUNT), source, b"", COUNTED.as_bytes())?;
            check_reads(&rt, Call::Load(layout), source, b"", &file)?;
        }
        for program in [None, Some(plan.as_slice())] {
            let call = Call::Answer(COUNT, program);
            check_reads(&rt, call, 2, &file, COUNTED.as_bytes())?;
        }
        check_reads(&rt, Call::Dump, 2, &file, DUMP.as_bytes())?;
    }
    Ok(())
}

/// No more than the header is read of a file whose facts are reported.
#[test]
fn facts_need_the_header_alone(rt: HostRuntime) -> Result<(), Fail> {
    let file = table_file(rt.alloc(), Layout::Planes)?;
    for fail in 1..=HEADER_LEN + 1 {
        let mut sink = ByteSink::without_failures(Vec::new(rt.alloc()));
        let reads = Reads {
            piece: 1,
            fail_at: [0, 0, fail],
        };
        let outcome = Call::Info.make(rt.alloc(), reads, &file, &mut sink);
        if fail <= HEADER_LEN {
            let failed = Err(Fault::new(code::READ_FAILED));
            assert_eq!(rt; outcome, failed, "at {fail}");
            assert!(rt; sink.taken.is_empty(), "at {fail}");
        } else {
            assert_eq!(rt; outcome, Ok(None));
            assert!(rt; sink.taken.as_slice() == INFO.as_bytes());
        }
    }
    Ok(())
}

/// A statement is rejected once the header was read, whatever the segments are: its error is
/// returned if the header's 56 bytes arrive, and a failed read if they don't.
#[test]
fn a_statement_comes_before_the_segments(rt: HostRuntime) -> Result<(), Fail> {
    let file = table_file(rt.alloc(), Layout::Planes)?;
    for fail in 1..=100 {
        let mut sink = ByteSink::without_failures(Vec::new(rt.alloc()));
        let reads = Reads {
            piece: 1,
            fail_at: [0, 0, fail],
        };
        let outcome = Call::Answer("SELECT zz FROM t", None).make(
            rt.alloc(),
            reads,
            &file,
            &mut sink,
        );
        let fault = if fail <= HEADER_LEN {
            Fault::new(code::READ_FAILED)
        } else {
            Fault::at_byte(code::UNKNOWN_COLUMN, 7)
        };
        assert_eq!(rt; outcome, Err(fault), "at {fail}");
    }
    Ok(())
}

/// Returns a source of these bytes, and then one without end.
fn endless(left: &[u8], then: u8, piece: usize) -> Endless<'_> {
    Endless {
        left,
        then,
        piece,
        given: 0,
    }
}

#[test]
fn an_endless_source_is_over(rt: HostRuntime) -> Result<(), Fail> {
    for piece in [1, 7, 1_000_000] {
        let mut source = endless(b"", b'#', piece);
        let input = read_limited(rt.alloc(), &mut source, 1000)?;
        assert!(rt; matches!(&input, Input::Over), "by {piece}");
        assert_eq!(rt; source.given, 1001, "by {piece}");
    }
    Ok(())
}

#[test]
fn an_endless_schema_is_too_long(rt: HostRuntime) {
    let too_long = Err(Fault::new(code::SCHEMA_TOO_LONG));
    let mut sink = ToWrite::new(Vec::new(rt.alloc()));
    for piece in [1, 4096] {
        let mut csv = FromRead::new(CSV.as_bytes());
        let mut schema = endless(b"", b'#', piece);
        let sql = COUNT.as_bytes();
        let mut to = ToWrite::new(Vec::new(rt.alloc()));
        let told = direct(rt.alloc(), &mut schema, &mut csv, sql, &mut to);
        assert_eq!(rt; told, too_long);
        assert_eq!(rt; schema.given, 65_537);
        assert!(rt; to.into_inner().is_empty());
        let mut csv = FromRead::new(CSV.as_bytes());
        let mut schema = endless(b"", b'#', piece);
        let mut to = ToWrite::new(Vec::new(rt.alloc()));
        let told = load(rt.alloc(), &mut schema, &mut csv, Layout::Slices, &mut to);
        assert_eq!(rt; told, too_long);
        assert!(rt; to.into_inner().is_empty());
    }
    let _ = report(&Fault::new(code::SCHEMA_TOO_LONG), &mut sink);
    assert!(rt; sink.into_inner().as_slice().starts_with(b"bw: 106 "));
}

/// A call over a CSV text without end reads one byte more than a CSV text may have.
#[test]
fn an_endless_csv_is_too_long(rt: HostRuntime) {
    let piece = 1 << 20;
    for call in 0..3 {
        let mut schema = FromRead::new(SCHEMA.as_bytes());
        let mut csv = endless(b"a,b\n", b'7', piece);
        let mut to = ToWrite::new(Vec::new(rt.alloc()));
        let told = match call {
            0 => direct(rt.alloc(), &mut schema, &mut csv, COUNT.as_bytes(), &mut to),
            1 => load(rt.alloc(), &mut schema, &mut csv, Layout::Planes, &mut to),
            _ => infer(rt.alloc(), b"t", &mut csv, &mut to),
        };
        assert_eq!(rt; told, Err(Fault::new(code::CSV_TOO_LONG)), "call {call}");
        assert_eq!(rt; csv.given as u64, MAX_CSV_LEN + 1, "call {call}");
        assert!(rt; to.into_inner().is_empty(), "call {call}");
    }
}

#[test]
fn an_endless_table_file_is_refused(rt: HostRuntime) -> Result<(), Fail> {
    let plan = plan_file(rt.alloc(), COUNT)?;
    for (layout, len) in [(Layout::Planes, 952), (Layout::Slices, 1144)] {
        let file = table_file(rt.alloc(), layout)?;
        for (left, fault) in [
            (file.as_slice(), Fault::at_byte(code::BYTES_AFTER_END, len)),
            (b"".as_slice(), Fault::at_byte(code::MAGIC, 0)),
        ] {
            let mut to = ToWrite::new(Vec::new(rt.alloc()));
            let mut source = endless(left, 0, 1000);
            assert_eq!(rt; dump(rt.alloc(), &mut source, &mut to), Err(fault));
            assert!(rt; to.into_inner().is_empty());
            for program in [None, Some(plan.as_slice())] {
                let mut to = ToWrite::new(Vec::new(rt.alloc()));
                let mut source = endless(left, 0, 1000);
                let sql = COUNT.as_bytes();
                let told = answer(rt.alloc(), &mut source, sql, program, &mut to);
                assert_eq!(rt; told, Err(fault));
                assert!(rt; to.into_inner().is_empty());
            }
        }
    }
    Ok(())
}

/// A line that a call prints beside its result.
#[derive(Clone, Copy, Debug)]
enum Line {
    Report,
    Stats,
    Accepted,
}

impl Line {
    /// Writes the line, and returns whether the call reports a failed write, which `report` never
    /// does.
    fn write(self, rt: &impl Abort, sink: &mut ByteSink) -> bool
        requires { sink.old.calls.failures ≡ 0 }
    {
        let served = Served {
            by: By::Program,
            segments: 2,
            loads: 3,
            skips: 1,
        };
        let accepted = Accepted {
            instructions: 4,
            skips: 1,
            nodes: 6,
            chains: 9,
            rows: 17,
        };
        let outcome = match self {
            Line::Report => {
                assert_eq!(rt; report(&Fault::new(code::OUT_OF_MEMORY), sink), 6);
                Ok(())
            }
            Line::Stats => stats_line(&served, sink),
            Line::Accepted => accepted_line(&accepted, sink),
        };
        match outcome {
            Ok(()) => false,
            Err(fault) => {
                assert_eq!(rt; fault, Fault::new(code::WRITE_FAILED));
                true
            }
        }
    }
}

#[test]
fn each_write_of_a_line_may_fail(rt: HostRuntime) -> Result<(), Fail> {
    for (line, text) in [
        (Line::Report, "bw: 801 out of memory\n"),
        (Line::Stats, "served program segments 2 loads 3 skips 1\n"),
        (
            Line::Accepted,
            "accepted: 4 instructions, 1 skips, 6 nodes, 9 chains, 17 rows\n",
        ),
    ] {
        let whole = (text.len() as u64).saturating_add(1);
        for fail_at in 1..=whole {
            let mut sink = ByteSink::new(Vec::new(rt.alloc()), 1, fail_at);
            let told = line.write(&rt, &mut sink);
            let fails = fail_at < whole;
            let silent = matches!(line, Line::Report);
            assert_eq!(rt; told, fails && !silent, "{line:?} at {fail_at}");
            assert_eq!(rt;
                sink.calls.failures,
                u64::from(fails),
                "{line:?} at {fail_at}"
            );
            assert!(rt;
                text.as_bytes().starts_with(&sink.taken),
                "{line:?} at {fail_at}"
            );
            assert_eq!(rt; sink.taken.len() as u64, fail_at - 1, "{line:?}");
        }
    }
    Ok(())
}
