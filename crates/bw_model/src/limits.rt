//! Limits of what is accepted. The numbers are this project's own.

/// The most bytes of a schema text.
pub const MAX_SCHEMA_LEN: usize = 65_536;

/// The most columns of a table.
pub const MAX_COLUMNS: usize = 64;

/// The most bytes of a CSV text.
pub const MAX_CSV_LEN: u64 = 1 << 30;

/// The most rows of a table.
pub const MAX_ROWS: u32 = 1 << 24;
