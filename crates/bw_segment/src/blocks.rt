//! The bytes of a segment, and the place of each column's block among them.
ghost use Rattle.std.specs.Prelude.{◌≡◌, ◌&&◌, Bool, IfSome, IsTrue, ℕ, List, length, nat_le};
ghost use Rattle.std.specs.Prelude.{slice_range, take};
ghost use Rattle.bw_io.specs.Shared.{bytes_in};

use bw_io::SharedBytes;

/// The bytes of a segment, in which each column's block is contiguous.
pub trait Blocks {
    /// The bytes: the blocks of the columns, one after the other.
    ghost bytes: { Self → List ℕ };

    /// Whether the block of a column is between these two places of the bytes.
    ghost holds: { Self → ℕ → ℕ → ℕ → Bool };

    /// Returns the block of a column, which is between these two places of the bytes.
    fn block(&self, col: usize, start: usize, end: usize) -> &[u8]
        requires { IsTrue (holds self.now col start end) }
        ensures { result.now ≡ slice_range (bytes self.now) start end };

    /// Returns the first 64 bytes of the block of a column, which is between these two places of
    /// the bytes, if they are stored apart too.
    fn front(&self, col: usize, start: usize, end: usize) -> Option<&[u8]>
        requires { IsTrue (holds self.now col start end) }
        ensures front { IfSome result (λ front. front.now
            ≡ take 64 (slice_range (bytes self.now) start end)) }
        ensures size { IfSome result (λ front. length front.now ≡ 64) };
}

/// All blocks in one contiguous piece.
impl Blocks for SharedBytes {
    ghost bytes = { bytes_in };

    ghost holds = { λ shared col start end. nat_le start end
        && nat_le end (length (bytes_in shared)) };

    #[inline(always)]
    fn block(&self, _col: usize, start: usize, end: usize) -> &[u8] {
        &self.as_slice()[start..end]
    }

    #[inline(always)]
    fn front(&self, _col: usize, _start: usize, _end: usize) -> Option<&[u8]> {
        None
    }
}
