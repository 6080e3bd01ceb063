//! Errors: their numbers, their words and their places.
ghost use Rattle.std.specs.Prelude.{◌≡◌, ◌≤◌, IsTrue, Some, length};
ghost use Rattle.bw_model.specs.Fault.{no_memory, nowhere, at_byte, at_line, at_record, place_text};
ghost use Rattle.bw_model.specs.Fault.{is_memory};
ghost use Rattle.bw_model.specs.FaultTable.{words_of, SCHEMA_FORM, SCHEMA_NAME, SCHEMA_RANGE};
ghost use Rattle.bw_model.specs.FaultTable.{NAME_TWICE, COLUMN_COUNT, SCHEMA_TOO_LONG, NO_HEADING};
ghost use Rattle.bw_model.specs.FaultTable.{HEADING, RECORD_LENGTH, NOT_A_NUMBER, OUT_OF_RANGE};
ghost use Rattle.bw_model.specs.FaultTable.{NULL_NOT_ALLOWED, TOO_MANY_ROWS, CSV_TOO_LONG};
ghost use Rattle.bw_model.specs.FaultTable.{CSV_FAULT, MAGIC, VERSION, LAYOUT, HEADER, TRUNCATED};
ghost use Rattle.bw_model.specs.FaultTable.{CODE_TOO_LARGE, NULL_WITH_CODE, PADDING};
ghost use Rattle.bw_model.specs.FaultTable.{BYTES_AFTER_END, ROW_COUNT, CHARACTER, SYNTAX};
ghost use Rattle.bw_model.specs.FaultTable.{UNKNOWN_TABLE, UNKNOWN_COLUMN, LITERAL, MIXED_ITEMS};
ghost use Rattle.bw_model.specs.FaultTable.{STATEMENT_TOO_LONG, NESTING, PROGRAM_FORM, REGISTER};
ghost use Rattle.bw_model.specs.FaultTable.{COLUMN_OR_BIT, SKIP_TARGET, PROGRAM_TOO_LONG};
ghost use Rattle.bw_model.specs.FaultTable.{NO_RESULT, NO_NULLS, PROGRAM_FILE_TOO_LONG, NODE};
ghost use Rattle.bw_model.specs.FaultTable.{PRODUCT_ROW, CHAIN_ROW, LIMIT, CERTIFICATE_FORM};
ghost use Rattle.bw_model.specs.FaultTable.{CONDITION_LINE, INSTRUCTION_LINE, JOIN};
ghost use Rattle.bw_model.specs.FaultTable.{REGISTER_UNKNOWN, END, NO_PROGRAM, NO_CERTIFICATE};
ghost use Rattle.bw_model.specs.FaultTable.{READ_FAILED, WRITE_FAILED, OUT_OF_MEMORY};
ghost use Rattle.bw_model.specs.declared.fault.code.TheConstants as constant;

use std::alloc::{AllocError, AllocFailed};
use std::fmt;
use thiserror::Error;

/// The numbers of the errors. The hundreds name the part: 1 the schema, 2 the CSV, 3 the table
/// file, 4 the statement, 5 the program, 6 its certificate, 7 an I/O device, 8 memory.
pub mod code {
    pub const SCHEMA_FORM: u16 = 101;

    pub const SCHEMA_NAME: u16 = 102;

    pub const SCHEMA_RANGE: u16 = 103;

    pub const NAME_TWICE: u16 = 104;

    pub const COLUMN_COUNT: u16 = 105;

    pub const SCHEMA_TOO_LONG: u16 = 106;

    pub const NO_HEADING: u16 = 201;

    pub const HEADING: u16 = 202;

    pub const RECORD_LENGTH: u16 = 203;

    pub const NOT_A_NUMBER: u16 = 204;

    pub const OUT_OF_RANGE: u16 = 205;

    pub const NULL_NOT_ALLOWED: u16 = 206;

    pub const TOO_MANY_ROWS: u16 = 207;

    pub const CSV_TOO_LONG: u16 = 208;

    pub const CSV_FAULT: u16 = 209;

    pub const MAGIC: u16 = 301;

    pub const VERSION: u16 = 302;

    pub const LAYOUT: u16 = 303;

    pub const HEADER: u16 = 304;

    pub const TRUNCATED: u16 = 305;

    pub const CODE_TOO_LARGE: u16 = 306;

    pub const NULL_WITH_CODE: u16 = 307;

    pub const PADDING: u16 = 308;

    pub const BYTES_AFTER_END: u16 = 309;

    pub const ROW_COUNT: u16 = 310;

    pub const CHARACTER: u16 = 401;

    pub const SYNTAX: u16 = 402;

    pub const UNKNOWN_TABLE: u16 = 403;

    pub const UNKNOWN_COLUMN: u16 = 404;

    pub const LITERAL: u16 = 405;

    pub const MIXED_ITEMS: u16 = 406;

    pub const STATEMENT_TOO_LONG: u16 = 407;

    pub const NESTING: u16 = 408;

    pub const PROGRAM_FORM: u16 = 501;

    pub const REGISTER: u16 = 502;

    pub const COLUMN_OR_BIT: u16 = 503;

    pub const SKIP_TARGET: u16 = 504;

    pub const PROGRAM_TOO_LONG: u16 = 505;

    pub const NO_RESULT: u16 = 506;

    pub const NO_NULLS: u16 = 507;

    pub const PROGRAM_FILE_TOO_LONG: u16 = 508;

    pub const NODE: u16 = 601;

    pub const PRODUCT_ROW: u16 = 602;

    pub const CHAIN_ROW: u16 = 603;

    pub const LIMIT: u16 = 604;

    pub const CERTIFICATE_FORM: u16 = 605;

    pub const CONDITION_LINE: u16 = 606;

    pub const INSTRUCTION_LINE: u16 = 607;

    pub const JOIN: u16 = 608;

    pub const REGISTER_UNKNOWN: u16 = 609;

    pub const END: u16 = 610;

    pub const NO_PROGRAM: u16 = 651;

    pub const NO_CERTIFICATE: u16 = 652;

    pub const READ_FAILED: u16 = 701;

    pub const WRITE_FAILED: u16 = 702;

    pub const OUT_OF_MEMORY: u16 = 801;
}

/// The place of an error.
#[derive(Clone, Copy, Debug, PartialEq, Eq)]
pub enum Place {
    Nowhere,
    /// A byte, from 0.
    Byte(u64),
    /// A line, from 1.
    Line(u64),
    /// A record of a CSV text, of which the heading is record 0.
    Rec(u32),
}

impl fmt::Display for Place {
    ghost output = { λ place. Some (place_text place) };

    fn fmt<W: fmt::Write>(&self, f: &mut fmt::Formatter<W>) -> fmt::Result {
        match self {
            Place::Nowhere => Ok(()),
            Place::Byte(at) => write!(f, " at byte {at}"),
            Place::Line(at) => write!(f, " at line {at}"),
            Place::Rec(at) => write!(f, " at record {at}"),
        }
    }
}

/// Why a call failed, and where. It is shown as `404 unknown column at byte 7`.
#[derive(Clone, Copy, Debug, PartialEq, Eq, Error)]
#[error("{code} {}{place}", words_of(*.code))]
pub struct Fault {
    pub code: u16,
    pub place: Place,
}

impl Fault {
    /// Returns an error without a place.
    pub const fn new(code: u16) -> Self
        ensures { result ≡ nowhere code }
    {
        Fault {
            code,
            place: Place::Nowhere,
        }
    }

    /// Returns an error at a byte, from 0.
    pub const fn at_byte(code: u16, at: u64) -> Self
        ensures { result ≡ at_byte code at }
    {
        Fault {
            code,
            place: Place::Byte(at),
        }
    }

    /// Returns an error at a line, from 1.
    pub const fn at_line(code: u16, line: u64) -> Self
        ensures { result ≡ at_line code line }
    {
        Fault {
            code,
            place: Place::Line(line),
        }
    }

    /// Returns an error at a record, of which the heading is record 0.
    pub const fn at_record(code: u16, record: u32) -> Self
        ensures { result ≡ at_record code «record» }
    {
        Fault {
            code,
            place: Place::Rec(record),
        }
    }

    /// Returns whether the error is that memory was refused.
    pub const fn is_memory(self) -> bool
        ensures test { result ≡ is_memory self }
        ensures exact { IsTrue result → self ≡ no_memory }
    {
        matches!(
            self,
            Fault {
                code: code::OUT_OF_MEMORY,
                place: Place::Nowhere,
            }
        )
    }
}

impl From<AllocError> for Fault {
    ghost from_gives = { λ _ fault. fault ≡ no_memory };

    fn from(_error: AllocError) -> Self {
        Fault::new(code::OUT_OF_MEMORY)
    }
}

impl<T: Drop> From<AllocFailed<T>> for Fault {
    ghost from_gives = { λ _ fault. fault ≡ no_memory };

    fn from(_error: AllocFailed<T>) -> Self {
        Fault::new(code::OUT_OF_MEMORY)
    }
}

/// Returns the words of an error's number, or `fault` if the number isn't in the table of errors.
#[tactic(auto, unfolding(crate::specs::FaultTable::words_of))]
pub const fn words_of(code: u16) -> &'static str
    ensures words { result.now ≡ words_of code }
    ensures short { length result.now ≤ 28 }
{
    match code {
        code::SCHEMA_FORM => "line form",
        code::SCHEMA_NAME => "name",
        code::SCHEMA_RANGE => "range",
        code::NAME_TWICE => "name twice",
        code::COLUMN_COUNT => "number of columns",
        code::SCHEMA_TOO_LONG => "schema too long",
        code::NO_HEADING => "no heading",
        code::HEADING => "heading",
        code::RECORD_LENGTH => "record length",
        code::NOT_A_NUMBER => "not a whole number",
        code::OUT_OF_RANGE => "out of range",
        code::NULL_NOT_ALLOWED => "null not allowed",
        code::TOO_MANY_ROWS => "too many rows",
        code::CSV_TOO_LONG => "csv too long",
        code::CSV_FAULT => "csv fault",
        code::MAGIC => "magic",
        code::VERSION => "version",
        code::LAYOUT => "layout",
        code::HEADER => "header",
        code::TRUNCATED => "truncated",
        code::CODE_TOO_LARGE => "code too large",
        code::NULL_WITH_CODE => "null with a code",
        code::PADDING => "padding",
        code::BYTES_AFTER_END => "bytes after the end",
        code::ROW_COUNT => "row count",
        code::CHARACTER => "character",
        code::SYNTAX => "syntax",
        code::UNKNOWN_TABLE => "unknown table",
        code::UNKNOWN_COLUMN => "unknown column",
        code::LITERAL => "literal",
        code::MIXED_ITEMS => "columns and aggregates mixed",
        code::STATEMENT_TOO_LONG => "statement too long",
        code::NESTING => "nesting",
        code::PROGRAM_FORM => "line form",
        code::REGISTER => "register",
        code::COLUMN_OR_BIT => "column or bit",
        code::SKIP_TARGET => "skip target",
        code::PROGRAM_TOO_LONG => "program too long",
        code::NO_RESULT => "no result",
        code::NO_NULLS => "column has no nulls",
        code::PROGRAM_FILE_TOO_LONG => "program file too long",
        code::NODE => "node",
        code::PRODUCT_ROW => "product row",
        code::CHAIN_ROW => "chain row",
        code::LIMIT => "limit",
        code::CERTIFICATE_FORM => "line form",
        code::CONDITION_LINE => "condition line",
        code::INSTRUCTION_LINE => "instruction line",
        code::JOIN => "join",
        code::REGISTER_UNKNOWN => "register unknown",
        code::END => "end",
        code::NO_PROGRAM => "no program within the limits",
        code::NO_CERTIFICATE => "no certificate found",
        code::READ_FAILED => "read failed",
        code::WRITE_FAILED => "write failed",
        code::OUT_OF_MEMORY => "out of memory",
        _ => "fault",
    }
}

/// A law: each constant of [`code`] is the number that the table of errors lists under its name.
pub fn constants_are_listed()
    ensures schema { (constant.SCHEMA_FORM ≡ SCHEMA_FORM) × (constant.SCHEMA_NAME ≡ SCHEMA_NAME)
        × (constant.SCHEMA_RANGE ≡ SCHEMA_RANGE) × (constant.NAME_TWICE ≡ NAME_TWICE)
        × (constant.COLUMN_COUNT ≡ COLUMN_COUNT) × (constant.SCHEMA_TOO_LONG ≡ SCHEMA_TOO_LONG) }
    ensures csv { (constant.NO_HEADING ≡ NO_HEADING) × (constant.HEADING ≡ HEADING)
        × (constant.RECORD_LENGTH ≡ RECORD_LENGTH) × (constant.NOT_A_NUMBER ≡ NOT_A_NUMBER)
        × (constant.OUT_OF_RANGE ≡ OUT_OF_RANGE) × (constant.NULL_NOT_ALLOWED ≡ NULL_NOT_ALLOWED)
        × (constant.TOO_MANY_ROWS ≡ TOO_MANY_ROWS) × (constant.CSV_TOO_LONG ≡ CSV_TOO_LONG)
        × (constant.CSV_FAULT ≡ CSV_FAULT) }
    ensures table { (constant.MAGIC ≡ MAGIC) × (constant.VERSION ≡ VERSION)
        × (constant.LAYOUT ≡ LAYOUT) × (constant.HEADER ≡ HEADER)
        × (constant.TRUNCATED ≡ TRUNCATED) × (constant.CODE_TOO_LARGE ≡ CODE_TOO_LARGE)
        × (constant.NULL_WITH_CODE ≡ NULL_WITH_CODE) × (constant.PADDING ≡ PADDING)
        × (constant.BYTES_AFTER_END ≡ BYTES_AFTER_END) × (constant.ROW_COUNT ≡ ROW_COUNT) }
    ensures statement { (constant.CHARACTER ≡ CHARACTER) × (constant.SYNTAX ≡ SYNTAX)
        × (constant.UNKNOWN_TABLE ≡ UNKNOWN_TABLE) × (constant.UNKNOWN_COLUMN ≡ UNKNOWN_COLUMN)
        × (constant.LITERAL ≡ LITERAL) × (constant.MIXED_ITEMS ≡ MIXED_ITEMS)
        × (constant.STATEMENT_TOO_LONG ≡ STATEMENT_TOO_LONG) × (constant.NESTING ≡ NESTING) }
    ensures program { (constant.PROGRAM_FORM ≡ PROGRAM_FORM) × (constant.REGISTER ≡ REGISTER)
        × (constant.COLUMN_OR_BIT ≡ COLUMN_OR_BIT) × (constant.SKIP_TARGET ≡ SKIP_TARGET)
        × (constant.PROGRAM_TOO_LONG ≡ PROGRAM_TOO_LONG) × (constant.NO_RESULT ≡ NO_RESULT)
        × (constant.NO_NULLS ≡ NO_NULLS)
        × (constant.PROGRAM_FILE_TOO_LONG ≡ PROGRAM_FILE_TOO_LONG) }
    ensures certificate { (constant.NODE ≡ NODE) × (constant.PRODUCT_ROW ≡ PRODUCT_ROW)
        × (constant.CHAIN_ROW ≡ CHAIN_ROW) × (constant.LIMIT ≡ LIMIT)
        × (constant.CERTIFICATE_FORM ≡ CERTIFICATE_FORM)
        × (constant.CONDITION_LINE ≡ CONDITION_LINE)
        × (constant.INSTRUCTION_LINE ≡ INSTRUCTION_LINE) × (constant.JOIN ≡ JOIN)
        × (constant.REGISTER_UNKNOWN ≡ REGISTER_UNKNOWN) × (constant.END ≡ END)
        × (constant.NO_PROGRAM ≡ NO_PROGRAM) × (constant.NO_CERTIFICATE ≡ NO_CERTIFICATE) }
    ensures device { (constant.READ_FAILED ≡ READ_FAILED) × (constant.WRITE_FAILED ≡ WRITE_FAILED) }
    ensures memory { (constant.OUT_OF_MEMORY ≡ OUT_OF_MEMORY) }
{}
