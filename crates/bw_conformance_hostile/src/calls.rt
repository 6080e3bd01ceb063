//! Calls over one table: its texts, its file in either layout, and program files for its
//! conditions.
ghost use Rattle.std.specs.Prelude.{◌<◌, ◌-◌, ◌^◌};

use crate::devices::{ByteSink, Pieces};
use bw_file::{FromRead, Layout, ToWrite};
use bw_model::Fault;
use bw_shell::{By, answer, check_text, direct, dump, infer, info, load, plan_text};
use std::alloc::Global;

/// A table of bytes and of small numbers, some of them null.
pub const SCHEMA: &str = "TABLE t\nCOLUMN a 0 255 NOT NULL\nCOLUMN b -10 10\n";

pub const CSV: &str = "a,b\n0,-10\n255,10\n7,\n7,NULL\n8,0\n";

/// All its rows.
pub const DUMP: &str = "a,b\n0,-10\n255,10\n7,NULL\n7,NULL\n8,0\n";

pub const COUNT: &str = "SELECT COUNT(*) FROM t WHERE a < 8";

pub const COUNTED: &str = "COUNT(*)\n3\n";

/// The header facts of its file in bit planes, whose header has 56 bytes.
pub const INFO: &str = "TABLE t\nCOLUMN a 0 255 NOT NULL\nCOLUMN b -10 10\n\
                        # rows 5\n# segments 1\n# layout planes\n# version 1\n# bytes 952\n";

pub const HEADER_LEN: u64 = 56;

pub const LAYOUTS: [Layout; 2] = [Layout::Planes, Layout::Slices];

/// A call over the table's texts, or over its file, with a statement, and a program file if there
/// is one.
#[derive(Clone, Copy)]
pub enum Call<'a> {
    Direct(&'a str),
    Infer,
    Info,
    Load(Layout),
    Answer(&'a str, Option<&'a [u8]>),
    Dump,
    Check(&'a str, &'a [u8]),
    Plan(&'a str),
}

/// The most bytes that a read yields, and the read, from 1, at which the source of the schema, of
/// the CSV text and of the table file fails (0 for never).
#[derive(Clone, Copy)]
pub struct Reads {
    pub piece: usize,
    pub fail_at: [u64; 3],
}

impl Reads {
    /// Sources that yield all that is requested.
    pub const WHOLE: Reads = Reads {
        piece: usize::MAX,
        fail_at: [0; 3],
    };
}

impl Call<'_> {
    /// Makes the call, and returns its result: also what served the query, if that is reported.
    pub fn make(
        self,
        alloc: Global,
        reads: Reads,
        file: &[u8],
        sink: &mut ByteSink,
    ) -> Result<Option<By>, Fault>
        requires { sink.old.calls.failures < 2 ^ 64 - 1 }
    {
        let [schema_fails, csv_fails, file_fails] = reads.fail_at;
        let mut schema = Pieces::new(SCHEMA.as_bytes(), reads.piece, schema_fails);
        let mut csv = Pieces::new(CSV.as_bytes(), reads.piece, csv_fails);
        let mut table = Pieces::new(file, reads.piece, file_fails);
        let mut by = None;
        match self {
            Call::Direct(sql) => direct(alloc, &mut schema, &mut csv, sql.as_bytes(), sink)?,
            Call::Infer => infer(alloc, b"t", &mut csv, sink)?,
            Call::Info => info(alloc, &mut table, sink)?,
            Call::Load(layout) => load(alloc, &mut schema, &mut csv, layout, sink)?,
            Call::Answer(sql, program) => {
                by = Some(answer(alloc, &mut table, sql.as_bytes(), program, sink)?.by);
            }
            Call::Dump => dump(alloc, &mut table, sink)?,
            Call::Check(sql, program) => {
                let _ = check_text(alloc, SCHEMA.as_bytes(), sql.as_bytes(), program)?;
            }
            Call::Plan(sql) => plan_text(alloc, SCHEMA.as_bytes(), sql.as_bytes(), sink)?,
        }
        Ok(by)
    }

    /// Returns what is to serve the call's query, if that is reported.
    pub fn served_by(self) -> Option<By> {
        match self {
            Call::Answer(_, _) => Some(By::Program),
            _ => None,
        }
    }
}

/// Returns the table's file.
pub fn table_file(alloc: Global, layout: Layout) -> Result<Vec<u8>, Fault> {
    let mut schema = FromRead::new(SCHEMA.as_bytes());
    let mut csv = FromRead::new(CSV.as_bytes());
    let mut sink = ToWrite::new(Vec::new(alloc));
    load(alloc, &mut schema, &mut csv, layout, &mut sink)?;
    Ok(sink.into_inner())
}

/// Returns the planner's program file for a statement's condition, which is accepted for it.
pub fn plan_file(alloc: Global, sql: &str) -> Result<Vec<u8>, Fault> {
    let mut sink = ToWrite::new(Vec::new(alloc));
    plan_text(alloc, SCHEMA.as_bytes(), sql.as_bytes(), &mut sink)?;
    let file = sink.into_inner();
    let _ = check_text(alloc, SCHEMA.as_bytes(), sql.as_bytes(), &file)?;
    Ok(file)
}
