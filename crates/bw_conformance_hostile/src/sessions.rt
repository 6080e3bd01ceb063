//! Sessions: statements from hostile sources, answers to hostile sinks, and refused memory.
ghost use Rattle.std.specs.Prelude.{◌<◌, ◌-◌, ◌^◌, None};

use crate::calls::{LAYOUTS, plan_file, table_file};
use crate::devices::{ByteSink, Pieces, Repeated};
use crate::scarcity::{LEFT, STEP, take_all};
use bw_file::{FromRead, Source};
use bw_model::{Fault, code};
use bw_shell::{Listener, MemoryTable, ProgramCache, Served, answer_statements};
use std::alloc::Global;
use std::process::Abort;
use std::test::Fail;

/// Statements whose first two have equal conditions.
const STATEMENTS: &str = "SELECT COUNT(*) FROM t WHERE a < 8; SELECT MAX(a) FROM t WHERE a < 8\n\n\
                          SELECT b FROM t WHERE a = b;SELECT b FROM t WHERE a = 8";

/// Their answers, without the line feed after each.
const ANSWERS: [&str; 4] = ["COUNT(*)\n3\n", "MAX(a)\n7\n", "b\n", "b\n0\n"];

/// The same as one text.
const OUTPUT: &str = "COUNT(*)\n3\n\nMAX(a)\n7\n\nb\n\nb\n0\n\n";

/// The statement whose plan is given to sessions.
const PLANNED: &str = "SELECT a FROM t WHERE a = 8";

/// Counts the answered and the rejected statements.
#[derive(Drop)]
struct Counter {
    answered: usize,
    rejected: usize,
}

impl Counter {
    fn new() -> Self {
        Counter {
            answered: 0,
            rejected: 0,
        }
    }
}

impl Listener for Counter {
    ghost told = { λ _. None };

    fn wait(&mut self) {}

    fn note_answer(&mut self, _served: &Served) {
        self.answered = self.answered.saturating_add(1);
    }

    fn note_settled(&mut self, _segments: u32) {}

    fn note_refusal(&mut self, _statement: &[u8], _fault: &Fault) {
        self.rejected = self.rejected.saturating_add(1);
    }
}

/// Reads a table file, and answers the statements of a source over it, with one program file.
fn run_session<S: Source>(
    alloc: Global,
    file: &[u8],
    program: &[u8],
    input: &mut S,
    sink: &mut ByteSink,
    counter: &mut Counter,
) -> Result<Option<Fault>, Fault>
    requires input { (S.state input.old).failures < 2 ^ 64 - 1 }
    requires sink { sink.old.calls.failures < 2 ^ 64 - 1 }
{
    let mut bytes = FromRead::new(file);
    let mut table = MemoryTable::read(alloc, &mut bytes)?;
    let mut files = Vec::new(alloc);
    files.push(Vec::from_slice(alloc, program)?)?;
    run_over(alloc, &mut table, files, input, sink, counter)
}

/// Answers the statements of a source over a table, with these program files.
fn run_over<S: Source>(
    alloc: Global,
    table: &mut MemoryTable,
    files: Vec<Vec<u8>>,
    input: &mut S,
    sink: &mut ByteSink,
    counter: &mut Counter,
) -> Result<Option<Fault>, Fault>
    requires input { (S.state input.old).failures < 2 ^ 64 - 1 }
    requires sink { sink.old.calls.failures < 2 ^ 64 - 1 }
{
    match ProgramCache::new(alloc, table.schema(), files) {
        Ok(mut programs) => answer_statements(alloc, table, &mut programs, input, sink, counter),
        Err(rejected) => Err(rejected.fault),
    }
}

/// Runs a session over a text of statements, given in pieces.
fn run_text(
    alloc: Global,
    file: &[u8],
    program: &[u8],
    text: &[u8],
    piece: usize,
    sink: &mut ByteSink,
) -> Result<Option<Fault>, Fault>
    requires { sink.old.calls.failures < 2 ^ 64 - 1 }
{
    let mut input = Pieces::new(text, piece, 0);
    let mut counter = Counter::new();
    run_session(alloc, file, program, &mut input, sink, &mut counter)
}

/// Returns whether a text is what some statements are answered by, each one by its answer and a
/// line feed, or by a line feed alone.
fn is_output(text: &[u8]) -> bool {
    let mut left = text;
    for answer in ANSWERS {
        left = left.strip_prefix(answer.as_bytes()).unwrap_or(left);
        match left.strip_prefix(b"\n") {
            Some(rest) => left = rest,
            None => return false,
        }
    }
    left.is_empty()
}

/// A session runs with 128 bytes more each time: the table isn't read; or each statement has its
/// answer, or the line feed alone; or, if a statement's text had no memory, the session ends.
#[test]
fn growths_of_a_session_are_refused(rt: HostRuntime) -> Result<(), Fail> {
    let file = table_file(rt.alloc(), LAYOUTS[0])?;
    let program = plan_file(rt.alloc(), PLANNED)?;
    let mut output = Vec::with_capacity(rt.alloc(), 16_384)?;
    let blocks = take_all(rt.alloc(), LEFT)?;
    let memory = Fault::new(code::OUT_OF_MEMORY);
    let mut refused = 0;
    let mut outcome = Err(memory);
    for step in 1..LEFT / (8 * STEP) {
        let plug: Result<Vec<u8>, _> = Vec::with_capacity(rt.alloc(), LEFT - step * 8 * STEP);
        let mut sink = ByteSink::without_failures(output);
        outcome = run_text(
            rt.alloc(),
            &file,
            &program,
            STATEMENTS.as_bytes(),
            7,
            &mut sink,
        );
        output = sink.taken;
        drop(plug);
        match outcome {
            Ok(None) => break,
            Ok(Some(fault)) => {
                assert_eq!(rt; fault, memory, "at step {step}");
                assert!(rt; is_output(&output), "at step {step}");
            }
            Err(fault) => assert_eq!(rt; fault, memory, "at step {step}"),
        }
        refused = step;
        output.clear();
    }
    drop(blocks);
    assert_eq!(rt; outcome, Ok(None));
    assert!(rt; refused > 8, "{refused} calls were refused");
    assert_eq!(rt; output.as_slice(), OUTPUT.as_bytes());
    Ok(())
}

#[test]
fn each_write_of_a_session_may_fail(rt: HostRuntime) -> Result<(), Fail> {
    let program = plan_file(rt.alloc(), PLANNED)?;
    let whole = (OUTPUT.len() as u64).saturating_add(1);
    for layout in LAYOUTS {
        let file = table_file(rt.alloc(), layout)?;
        for fail_at in 1..=whole {
            let mut sink = ByteSink::new(Vec::new(rt.alloc()), 1, fail_at);
            let text = STATEMENTS.as_bytes();
            let outcome = run_text(rt.alloc(), &file, &program, text, usize::MAX, &mut sink);
            let expected = if fail_at == whole {
                Ok(None)
            } else {
                Err(Fault::new(code::WRITE_FAILED))
            };
            assert_eq!(rt; outcome, expected, "at {fail_at}");
            assert!(rt; OUTPUT.as_bytes().starts_with(&sink.taken), "at {fail_at}");
            assert_eq!(rt; sink.taken.len() as u64, fail_at - 1);
        }
    }
    Ok(())
}

/// A failed read ends the session. What was answered before is a beginning of the answers.
#[test]
fn each_read_of_a_session_may_fail(rt: HostRuntime) -> Result<(), Fail> {
    let program = plan_file(rt.alloc(), PLANNED)?;
    let file = table_file(rt.alloc(), LAYOUTS[1])?;
    for fail_at in 1..=STATEMENTS.len() as u64 {
        let mut input = Pieces::new(STATEMENTS.as_bytes(), 1, fail_at);
        let mut sink = ByteSink::without_failures(Vec::new(rt.alloc()));
        let mut counter = Counter::new();
        let outcome = run_session(
            rt.alloc(),
            &file,
            &program,
            &mut input,
            &mut sink,
            &mut counter,
        );
        assert_eq!(rt; outcome, Err(Fault::new(code::READ_FAILED)), "at {fail_at}");
        assert!(rt; OUTPUT.as_bytes().starts_with(&sink.taken), "at {fail_at}");
        assert!(rt; counter.answered < ANSWERS.len(), "at {fail_at}");
        assert_eq!(rt; counter.rejected, 0);
    }
    Ok(())
}

/// A statement of 16 MiB is one error, whatever byte it is of, and takes less than 4 MiB; the
/// statement after it is answered.
#[test]
fn an_unending_statement_is_too_long(rt: HostRuntime) -> Result<(), Fail> {
    let program = plan_file(rt.alloc(), PLANNED)?;
    let file = table_file(rt.alloc(), LAYOUTS[0])?;
    let blocks = take_all(rt.alloc(), 4 << 20)?;
    for byte in [b'x', b' ', b'(', 0, 255] {
        let mut input = Repeated {
            byte,
            left: 1 << 24,
            then: b";SELECT MAX(a) FROM t WHERE a < 8",
        };
        let mut sink = ByteSink::without_failures(Vec::new(rt.alloc()));
        let mut counter = Counter::new();
        let outcome = run_session(
            rt.alloc(),
            &file,
            &program,
            &mut input,
            &mut sink,
            &mut counter,
        );
        let too_long = Fault::at_byte(code::STATEMENT_TOO_LONG, 65_536);
        assert_eq!(rt; outcome, Ok(Some(too_long)), "{byte}");
        assert_eq!(rt;
            sink.taken.as_slice(),
            b"\nMAX(a)\n7\n\n".as_slice(),
            "{byte}"
        );
        assert_eq!(rt; (counter.answered, counter.rejected), (1, 1), "{byte}");
    }
    drop(blocks);
    Ok(())
}

#[test]
fn a_nul_is_no_end_of_a_statement(rt: HostRuntime) -> Result<(), Fail> {
    let program = plan_file(rt.alloc(), PLANNED)?;
    for layout in LAYOUTS {
        let file = table_file(rt.alloc(), layout)?;
        for (text, place, output) in [
            (
                "SELECT\0a FROM t;SELECT a FROM t WHERE a = 8",
                6,
                "\na\n8\n\n",
            ),
            ("\0;SELECT a FROM t WHERE a = 8\0;", 0, "\n\n"),
            ("SELECT a FROM t WHERE a = 8;\0\n\0", 0, "a\n8\n\n\n"),
            (
                "-- \0\0\nSELECT a FROM t WHERE a = 8 -- \0;\n\n\0",
                0,
                "a\n8\n\n\n",
            ),
        ] {
            let mut sink = ByteSink::without_failures(Vec::new(rt.alloc()));
            let outcome = run_text(rt.alloc(), &file, &program, text.as_bytes(), 3, &mut sink);
            let nul = Fault::at_byte(code::CHARACTER, place);
            assert_eq!(rt; outcome, Ok(Some(nul)), "{text:?}");
            assert_eq!(rt; sink.taken.as_slice(), output.as_bytes(), "{text:?}");
        }
    }
    Ok(())
}

/// The table is as it was when it was read, whatever becomes of its file's bytes.
#[test]
fn a_session_keeps_the_table_that_it_read(rt: HostRuntime) -> Result<(), Fail> {
    for layout in LAYOUTS {
        let mut file = table_file(rt.alloc(), layout)?;
        let mut bytes = FromRead::new(file.as_slice());
        let mut table = MemoryTable::read(rt.alloc(), &mut bytes)?;
        drop(bytes);
        for byte in file.iter_mut() {
            *byte = 255;
        }
        let mut input = Pieces::new(STATEMENTS.as_bytes(), usize::MAX, 0);
        let mut sink = ByteSink::without_failures(Vec::new(rt.alloc()));
        let mut counter = Counter::new();
        let outcome = run_over(
            rt.alloc(),
            &mut table,
            Vec::new(rt.alloc()),
            &mut input,
            &mut sink,
            &mut counter,
        );
        assert_eq!(rt; outcome, Ok(None));
        assert_eq!(rt; sink.taken.as_slice(), OUTPUT.as_bytes());
    }
    Ok(())
}
