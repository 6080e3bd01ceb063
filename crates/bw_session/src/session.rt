//! Runs a session: the statements of a source, one after another.
ghost use Rattle.std.specs.Prelude.{◌≡◌, ◌-◌, ◌^◌, ◌<◌, ◌≤◌, ◌↔◌, IfOk, IsTrue, [], false, length};
ghost use Rattle.std.specs.Prelude.{true};
ghost use Rattle.bw_model.specs.Fault.{is_memory};
ghost use Rattle.bw_io.specs.Sink.{is_write_fault};
ghost use Rattle.bw_memory.specs.MemoryTable.{schema_of};
ghost use Rattle.bw_query.specs.ProgramCache.{Serves, files_of};
ghost use Rattle.bw_session.specs.Session.{Answers, AnswersOne, AsksNothing, EndsLine, first_of};
ghost use Rattle.bw_session.specs.Note.{Hears, served_notes};
ghost use Rattle.bw_session.specs.Session.{NeedsLoss, TellsLoss, session_table};

use crate::listener::Listener;
use crate::reading::{MAX_LEN, next_statement};
use bw_io::{Sink, Source, write_whole};
use bw_memory::ColumnStore;
use bw_model::{Fault, code};
use bw_query::{ProgramCache, StoreServed, answer_with_programs};
use bw_sql::has_no_token;
use std::alloc::Global;

/// Runs the statements of a source over a table, one after another. A column is read when a statement
/// first names it, unless it is in memory. A statement ends with a `;` outside a comment, with an
/// empty line, or with the source. For each the sink takes the CSV
/// text of its meaning over the rows and an LF; an LF alone if it is rejected; nothing if it has
/// only spaces, tabs, line ends and comments. Each result is written before the next statement is
/// read. Returns the error of the first rejected statement, if there is one; if memory was refused
/// to any statement, it returns that error (801). It is a failed read (701) only if a call of the
/// columns' device failed, in this session or before.
///
/// Each statement is run by [`answer_with_programs`], whose errors (401 to 408, 306 to 308, 305, 701
/// and 801) don't end the session. The listener is told of each statement that isn't empty: before
/// its LF is written, how it was served and how many segments were settled, if any were; or its
/// text (the first 65,537 bytes) and its error. The session ends early by a failed read (701) or
/// write (702), and if there is no memory for a statement's text (801). The programs must serve the
/// table's columns, and the counts of errors of the source and of the sink must be able to rise.
pub fn answer_statements<C: ColumnStore, S: Source, K: Sink, L: Listener>(
    alloc: Global,
    store: &mut C,
    programs: &mut ProgramCache,
    input: &mut S,
    sink: &mut K,
    listener: &mut L,
) -> Result<Option<Fault>, Fault>
    requires serves { Serves (schema_of (C.table store.old)).columns.items programs.old }
    requires input { (S.state input.old).failures < 2 ^ 64 - 1 }
    requires sink { (K.state sink.old).failures < 2 ^ 64 - 1 }
    ensures answers { Answers (session_table (files_of programs.old)
        (schema_of (C.table store.old)) (C.source store.old)) (S.state input.old)
        (S.state input.new) (K.state sink.old) (K.state sink.new) (L.told listener.old)
        (L.told listener.new) result }
    ensures lost { IfOk result (TellsLoss (C.is_lost store.old) (C.failures store.old)
        (C.failures store.new)) }
{
    let mut statement = Vec::new(alloc);
    let mut first = None;
    for _ in 0..u64::MAX {
        wait_if_unread(input, listener);
        let more = match next_statement(input, &mut statement) {
            Ok(more) => more,
            Err(fault) => return Err(fault),
        };
        match answer_one(alloc, store, programs, &statement, sink, listener) {
            Ok(fault) => first = first_of(first, fault),
            Err(fault) => return Err(fault),
        }
        if !more {
            return Ok(first);
        }
    }
    Err(Fault::new(code::OUT_OF_MEMORY))
}

/// Tells the listener that the session waits, if no byte of the next statement is there yet.
fn wait_if_unread<S: Source, L: Listener>(input: &S, listener: &mut L)
    ensures { Hears (L.told listener.old) (L.told listener.new) [] }
{
    if input.share(1).is_none() {
        listener.wait();
    }
}

/// Runs a statement, and writes its result and an LF. Returns its error if it is rejected. Errors:
/// 702.
fn answer_one<C: ColumnStore, K: Sink, L: Listener>(
    alloc: Global,
    store: &mut C,
    programs: &mut ProgramCache,
    sql: &[u8],
    sink: &mut K,
    listener: &mut L,
) -> Result<Option<Fault>, Fault>
    requires serves { Serves (schema_of (C.table store.old)).columns.items programs.old }
    requires sink { (K.state sink.old).failures < 2 ^ 64 - 1 }
    requires stored { length sql.now ≤ 65537 }
    ensures answers { AnswersOne (session_table (files_of programs.old)
        (schema_of (C.table store.old)) (C.source store.old)) sql.now (K.state sink.old)
        (K.state sink.new) (L.told listener.old) (L.told listener.new) result }
    ensures serves { Serves (schema_of (C.table store.new)).columns.items programs.new }
    ensures files { files_of programs.new ≡ files_of programs.old }
    ensures source { C.source store.new ≡ C.source store.old }
    ensures schema { schema_of (C.table store.new) ≡ schema_of (C.table store.old) }
    ensures lost { IfOk result (NeedsLoss (C.is_lost store.new)) }
    ensures failed { C.is_lost store.old ≡ false → C.is_lost store.new ≡ true
        → C.failures store.old < C.failures store.new }
    ensures count { C.failures store.old ≤ C.failures store.new }
{
    if asks_nothing(sql) {
        return Ok(None);
    }
    match answer_with_programs(alloc, store, sql, programs, sink) {
        Ok(served) => {
            note_served(listener, &served);
            end_line(sink, None)
        }
        Err(fault) => {
            if is_write_fault(&fault) {
                return Err(fault);
            }
            listener.note_refusal(sql, &fault);
            end_line(sink, Some(fault))
        }
    }
}

/// Tells the listener how a statement was served.
fn note_served<L: Listener>(listener: &mut L, how: &StoreServed)
    ensures { Hears (L.told listener.old) (L.told listener.new) (served_notes how.now) }
{
    listener.note_answer(&how.served);
    if how.settled > 0 {
        listener.note_settled(how.settled);
    }
}

/// Writes an LF, and returns the error of the statement before it. Errors: 702.
fn end_line<K: Sink>(sink: &mut K, fault: Option<Fault>) -> Result<Option<Fault>, Fault>
    requires { (K.state sink.old).failures < 2 ^ 64 - 1 }
    ensures { EndsLine (K.state sink.old) (K.state sink.new) fault result }
{
    match write_whole(sink, b"\n") {
        Ok(()) => Ok(fault),
        Err(failed) => Err(failed),
    }
}

/// Returns whether a write failed.
fn is_write_fault(fault: &Fault) -> bool
    ensures { result ≡ is_write_fault fault.now }
{
    fault.code == code::WRITE_FAILED
}

/// Returns whether a statement is empty: it isn't too long, and has only spaces, tabs, line ends
/// and comments.
fn asks_nothing(sql: &[u8]) -> bool
    ensures { IsTrue result ↔ AsksNothing sql.now }
{
    sql.len() <= MAX_LEN && has_no_token(sql)
}

/// Returns of two errors the one that is out of memory, else the first, if there is one.
fn first_of(first: Option<Fault>, other: Option<Fault>) -> Option<Fault>
    ensures { result ≡ first_of first other }
{
    match (first, other) {
        (None, other) => other,
        (Some(_), Some(memory)) if memory.is_memory() => Some(memory),
        (Some(fault), _) => Some(fault),
    }
}
