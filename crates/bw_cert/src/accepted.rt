//! The numbers of an accepted program file.

/// The numbers of a program and of its certificate: its instructions, the skips among them, and the
/// NODE, CHAIN and ROW lines.
#[derive(Clone, Copy, Debug, PartialEq, Eq)]
pub struct Accepted {
    pub instructions: usize,
    pub skips: usize,
    pub nodes: usize,
    pub chains: usize,
    pub rows: usize,
}
