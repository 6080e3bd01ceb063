//! Scan statistics of a query.

/// Who selected a query's rows.
#[derive(Clone, Copy, Debug, PartialEq, Eq)]
pub enum By {
    /// A scan program.
    Program,
    /// The fallback, which evaluates the condition itself.
    Rows,
}

/// Scan statistics of a query over a table file: who selected the rows, over how many segments,
/// with how many loads of planes or bytes and how many skips taken.
#[derive(Clone, Copy, Debug, PartialEq, Eq)]
pub struct Served {
    pub by: By,
    pub segments: u32,
    pub loads: u64,
    pub skips: u64,
}
