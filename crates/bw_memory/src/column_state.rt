//! What is known of a column of a file by columns.
use bw_model::Fault;

/// Whether a column has been read, or what its error is.
#[derive(Clone, Copy)]
pub enum ColumnState {
    Unread,
    Read,
    /// It has this error, which each later read returns.
    Damaged(Fault),
}
