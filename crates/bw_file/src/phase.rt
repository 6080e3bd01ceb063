//! Whether a reader continues.
use bw_model::Fault;

/// Whether a reader continues, and what it returns if it doesn't.
#[derive(Clone, Copy, PartialEq, Eq)]
pub(crate) enum Phase {
    /// It continues.
    Reading,
    /// It returns that nothing follows.
    Ended,
    /// It returns this error.
    Failed(Fault),
}
