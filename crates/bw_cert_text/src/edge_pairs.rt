//! The pairs of product rows on a line KEEP.
ghost use Rattle.std.specs.Prelude.{◌≡◌};

use crate::lines::EdgeProducts;
use std::marker::Model;

/// The pairs of rows on a line KEEP, one for each skip; equal lists at different addresses are
/// equal.
#[derive(Drop)]
pub struct EdgePairs<'a> {
    pairs: &'a [EdgeProducts],
}

impl<'a> Model for EdgePairs<'a> {
    ghost use Rattle.std.specs.Prelude.{List};
    ghost use Rattle.bw_cert_text.specs.declared.lines.EdgeProducts.{EdgeProducts};

    ghost Value = { List EdgeProducts };

    ghost view = { λ edges. edges.pairs.now };
}

impl<'a> EdgePairs<'a> {
    /// Borrows the pairs from where a line's reader or its body stores them.
    pub fn new(pairs: &'a [EdgeProducts]) -> Self
        ensures { result ≡ pairs.now }
    {
        EdgePairs { pairs }
    }

    /// Returns the pairs in the order of the skips.
    pub fn as_slice(&self) -> &'a [EdgeProducts]
        ensures { result.now ≡ self.now }
    {
        self.pairs
    }
}
