//! The lines of a certificate, by their sections. Each has the number of its line in the file.
ghost use Rattle.std.specs.Prelude.{◌<◌};

use crate::edge_pairs::EdgePairs;
use bw_diagram::{ChainColumns, Connective, Reason};

/// `NODE n v low high`: node `n` tests variable `v`.
#[derive(Clone, Copy)]
pub struct NodeLine {
    pub line: u64,
    pub n: u64,
    pub v: u64,
    pub low: u64,
    pub high: u64,
}

/// `CHAIN n LT|EQ ..` or `CHAIN n LT2|EQ2 ..`: chain `n`.
#[derive(Clone, Copy)]
pub struct ChainLine<'a> {
    pub line: u64,
    pub n: u64,
    pub columns: ChainColumns<'a>,
}

/// `ROW n AND|OR|XOR|DIFF a b c S`, or `.. V v i j` in place of `S`: product row `n`.
#[derive(Clone, Copy)]
pub struct ProductLine {
    pub line: u64,
    pub n: u64,
    pub op: Connective,
    pub a: u64,
    pub b: u64,
    pub c: u64,
    pub reason: Reason,
}

/// A line after the product rows and before the end.
#[derive(Drop)]
pub struct BodyLine<'a> {
    pub line: u64,
    pub entry: Entry<'a>,
}

/// The fields of such a line.
#[derive(Drop)]
pub enum Entry<'a> {
    Condition(ConditionEntry),
    Instruction(InstructionEntry),
    /// `JOIN L`: the skips to instruction `L` meet here.
    Join(u64),
    Keep(Keep<'a>),
}

/// The line of one step of the condition. The numbers are those of a chain or of product rows.
#[derive(Clone, Copy)]
pub enum ConditionEntry {
    /// `CMP chain rn rp rq`: a column and a literal. The first two may be `-`.
    Compare {
        chain: Option<u64>,
        value: Option<u64>,
        yes: u64,
        no: u64,
    },
    /// `CMP2 chain rc rd rm rp rq`: two columns. The first three may be `-`.
    CompareColumns {
        chain: Option<u64>,
        left: Option<u64>,
        right: Option<u64>,
        both: u64,
        yes: u64,
        no: u64,
    },
    /// `FIXED`: the step has the same truth on every row.
    Fixed,
    /// `NULLTEST rn`: a column is null.
    NullTest(u64),
    /// `AND i j`.
    And(u64, u64),
    /// `OR i j`.
    Or(u64, u64),
    /// `NOT`.
    Not,
    /// `IS i`: the step before it is TRUE, or FALSE.
    Is(u64),
    /// `IS i j`: the step before it is UNKNOWN.
    IsUnknown(u64, u64),
}

/// The line of one instruction.
#[derive(Clone, Copy, PartialEq, Eq)]
pub enum InstructionEntry {
    /// `LOAD node`: of `LOAD` and `NULLS`.
    Load(u64),
    /// `FILL`.
    Fill,
    /// `OP i`: of `AND`, `OR`, `XOR` and `NOT`.
    Op(u64),
    /// `BYTE chain`, a number or `-`: of `BYTELT` and `BYTEEQ`.
    Byte(Option<u64>),
    /// `SKIP`.
    Skip,
}

/// `KEEP r h x { i j }`: after a join, register `r`, one of r0 to r63, has node `h`. Row `x` shows
/// this on fall-through, and a pair of rows by each skip.
#[derive(Drop)]
pub struct Keep<'a> {
    pub register: u8,
    pub node: u64,
    pub through: u64,
    pub edges: EdgePairs<'a>,
    pub ghost in_range: { register < 64 },
}

/// The rows of one skip to a join: how the register's node there differs from the kept one, and
/// that it differs only if the skip's register is 1.
#[derive(Clone, Copy)]
pub struct EdgeProducts {
    pub differs: u64,
    pub within: u64,
}

/// `END i`.
#[derive(Clone, Copy)]
pub struct EndLine {
    pub line: u64,
    pub row: u64,
}
