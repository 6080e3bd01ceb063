//! How the parts of a condition are joined.

/// A connective of a condition's parts: `All` is AND, `Any` is OR.
#[derive(Clone, Copy, PartialEq, Eq)]
pub enum Junction {
    All,
    Any,
}
