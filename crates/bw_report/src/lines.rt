//! The lines that a call prints beside its result, made without allocating memory.
ghost use Rattle.std.specs.Prelude.{◌≡◌, ◌+◌, ◌-◌, ◌^◌, ◌<◌, ◌≤◌, ◌++◌, length};
ghost use Rattle.std.specs.Fmt.InlineText.{inline_text};
ghost use Rattle.bw_model.specs.Fault.{fault_line, place_text};
ghost use Rattle.bw_report.specs.Lines.{status_of, IsWritten, accepted_line, by_text, stats_line};
ghost use Rattle.bw_report.specs.Lines.{settled_line, with_count};
ghost use Rattle.bw_io.specs.Sink.{GoesOut};

use crate::served::{By, Served};
use bw_cert::Accepted;
use bw_io::{Sink, write_whole};
use bw_model::{Fault, Place, words_of};
use itoa::Buffer;
use std::fmt::InlineText;

/// The most bytes of a line.
const LINE: usize = 128;

/// The most bytes of the line of an accepted file.
const LONG_LINE: usize = 192;

/// Returns the exit status of an error: 3 for one of the schema, the CSV, the table file, the
/// statement or the program text, 4 for one of the certificate, 5 for one of an I/O device, 6 for
/// out of memory.
fn status_of(fault: &Fault) -> u8
    ensures { result ≡ status_of fault.now }
{
    match fault.code {
        0..600 => 3,
        600..700 => 4,
        700..800 => 5,
        _ => 6,
    }
}

/// Returns the line of an error, as `bw: 404 unknown column at byte 7`, with its line end.
fn line_of(fault: &Fault) -> InlineText<LINE>
    ensures { inline_text result ≡ fault_line fault.now }
{
    let line = and_count(InlineText::new(), "bw: ", u64::from(fault.code));
    let line = and_words(line, " ");
    let line = and_words(line, words_of(fault.code));
    let line = and_place(line, fault.place);
    and_words(line, "\n")
}

/// Returns the line with a place appended, as ` at byte 7`, of at most 31 bytes, for which it must
/// have space.
fn and_place<const N: usize>(line: InlineText<N>, place: Place) -> InlineText<N>
    requires { length (inline_text line) + 31 < N }
    ensures text { inline_text result ≡ inline_text line.entry ++ place_text place }
    ensures capacity { length (inline_text result) ≤ length (inline_text line.entry) + 31 }
{
    match place {
        Place::Nowhere => line,
        Place::Byte(at) => and_count(line, " at byte ", at),
        Place::Line(at) => and_count(line, " at line ", at),
        Place::Rec(at) => and_count(line, " at record ", u64::from(at)),
    }
}

/// Writes the line of an error, as `bw: 404 unknown column at byte 7`: its number, its words and
/// its place, by the table of errors in `bw_model`. Returns the exit status. A failed write doesn't
/// change it; the sink has then consumed the beginning of the line. The sink's count of failures
/// must be less than 2^64 - 1.
pub fn report<K: Sink>(fault: &Fault, sink: &mut K) -> u8
    requires { (K.state sink.old).failures < 2 ^ 64 - 1 }
    ensures status { result ≡ status_of fault.now }
    ensures line { IsWritten (K.state sink.old) (K.state sink.new) (fault_line fault.now) }
{
    let line = line_of(fault);
    let _ = write_whole(sink, line.as_str().as_bytes());
    status_of(fault)
}

/// Returns the line with words appended, for which it must have space.
fn and_words<const N: usize>(line: InlineText<N>, words: &str) -> InlineText<N>
    requires { length (inline_text line) + length words.now < N }
    ensures { inline_text result ≡ inline_text line.entry ++ words.now }
{
    line.and_str(words, words.len())
}

/// Returns the line with words and then a number appended, in decimal, of at most 20 bytes, for
/// which it must have space.
fn and_count<const N: usize>(line: InlineText<N>, words: &str, count: u64) -> InlineText<N>
    requires { length (inline_text line) + length words.now + 20 < N }
    ensures text { inline_text result ≡ inline_text line.entry ++ with_count words.now count }
    ensures capacity { length (inline_text result) ≤ length (inline_text line.entry)
        + length words.now + 20 }
{
    let line = and_words(line, words);
    and_words(line, Buffer::new().format(count))
}

/// Returns the line of scan statistics, as `served rows segments 1 loads 0 skips 0`, with its line
/// end.
fn line_of_served(served: &Served) -> InlineText<LINE>
    ensures { inline_text result ≡ stats_line served.now }
{
    let line = and_words(InlineText::new(), "served ");
    let line = and_words(line, by_text(served.by));
    let line = and_count(line, " segments ", u64::from(served.segments));
    let line = and_count(line, " loads ", served.loads);
    let line = and_count(line, " skips ", served.skips);
    and_words(line, "\n")
}

/// Returns the word for who selected a query's rows.
fn by_text(by: By) -> &'static str
    ensures words { result.now ≡ by_text by }
    ensures short { length result.now ≤ 7 }
{
    match by {
        By::Program => "program",
        By::Rows => "rows",
    }
}

/// Writes the line of scan statistics, as `served rows segments 1 loads 0 skips 0`. The sink's
/// count of failures must be less than 2^64 - 1. Errors: 702 if a write fails.
pub fn stats_line<K: Sink>(served: &Served, sink: &mut K) -> Result<(), Fault>
    requires { (K.state sink.old).failures < 2 ^ 64 - 1 }
    ensures { GoesOut (K.state sink.old) (K.state sink.new) (stats_line served.now) result }
{
    let line = line_of_served(served);
    write_whole(sink, line.as_str().as_bytes())
}

/// Returns the line of the number of segments that were settled, as `settled 19300 segments`,
/// with its line end.
fn line_of_settled(segments: u32) -> InlineText<LINE>
    ensures { inline_text result ≡ settled_line segments }
{
    let line = and_count(InlineText::new(), "settled ", u64::from(segments));
    and_words(line, " segments\n")
}

/// Writes the line of the number of segments that were settled, as `settled 19300 segments`.
/// The sink's count of failures must be less than 2^64 - 1. Errors: 702 if a write fails.
pub fn settled_line<K: Sink>(segments: u32, sink: &mut K) -> Result<(), Fault>
    requires { (K.state sink.old).failures < 2 ^ 64 - 1 }
    ensures { GoesOut (K.state sink.old) (K.state sink.new) (settled_line segments) result }
{
    let line = line_of_settled(segments);
    write_whole(sink, line.as_str().as_bytes())
}

/// Returns the line of an accepted program file, as `accepted: 4 instructions, 1 skips, 6 nodes, 9
/// chains, 17 rows`, with its line end.
fn line_of_accepted(accepted: &Accepted) -> InlineText<LONG_LINE>
    ensures { inline_text result ≡ accepted_line accepted.now }
{
    let line = and_count(
        InlineText::new(),
        "accepted: ",
        accepted.instructions as u64,
    );
    let line = and_count(line, " instructions, ", accepted.skips as u64);
    let line = and_count(line, " skips, ", accepted.nodes as u64);
    let line = and_count(line, " nodes, ", accepted.chains as u64);
    let line = and_count(line, " chains, ", accepted.rows as u64);
    and_words(line, " rows\n")
}

/// Writes the line of an accepted program file, as `accepted: 4 instructions, 1 skips, 6 nodes, 9
/// chains, 17 rows`. The sink's count of failures must be less than 2^64 - 1. Errors: 702 if a
/// write fails.
pub fn accepted_line<K: Sink>(accepted: &Accepted, sink: &mut K) -> Result<(), Fault>
    requires { (K.state sink.old).failures < 2 ^ 64 - 1 }
    ensures { GoesOut (K.state sink.old) (K.state sink.new) (accepted_line accepted.now) result }
{
    let line = line_of_accepted(accepted);
    write_whole(sink, line.as_str().as_bytes())
}
