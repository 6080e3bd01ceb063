//! I/O sources and sinks of bytes, which may fail at any call.
//!
//! An `Ok` of [`Source::read`] delivers the next bytes, and an `Ok` of [`Sink::write`] consumes
//! bytes from the front. Each `Err` raises the device's count of failures by one, so an error that
//! names a device can be traced to a failure that was counted.
//!
//! [`FromRead`] and [`ToWrite`] make a source and a sink of a reader and a writer of std.
//! [`ReadAhead`] is a source that reads in large pieces and shares what it has buffered of them.
//! [`read_limited`] reads a source completely, up to a limit, and [`write_whole`] writes a text.
//!
//! A [`RandomAccess`] yields its bytes from any place on. Its clauses tell whether it was found
//! unchanged since the last read. [`BytesAt`] is one in memory.
//!
//! Read `source.rt` and `specs/Source.antt`, which defines what a source yielded, and
//! `specs/Sink.antt` for what was written.
#![tactic(auto)]

mod failed;
mod from_read;
mod input;
mod output;
mod random_access;
mod read_ahead;
mod shared;
mod sink;
mod source;
mod to_write;

pub use failed::Failed;
pub use from_read::FromRead;
pub use input::{Input, read_limited};
pub use output::write_whole;
pub use random_access::{BytesAt, RandomAccess};
pub use read_ahead::ReadAhead;
pub use shared::SharedBytes;
pub use sink::Sink;
pub use source::Source;
pub use to_write::ToWrite;
