//! The fields of a table file's header: their values and errors.
ghost use Rattle.std.specs.Prelude.{◌≡◌, ◌≤◌, ◌^◌, ◌≤ℤ◌, ◌<ℤ◌, ◌-ℤ◌, pos, length, ℕ, List};
ghost use Rattle.std.specs.Prelude.{Result, IfOk, IsTrue};
ghost use Rattle.bw_model.specs.Limits.{most_rows};
ghost use Rattle.bw_file.specs.FileBytes.{are_bounds, magic};
ghost use Rattle.bw_file.specs.Reading.{at_offset};
ghost use Rattle.bw_file.specs.TableReading.{bound_in, is_version, parse_magic, parse_version, parse_layout};
ghost use Rattle.bw_file.specs.TableReading.{parse_count, parse_row_count, parse_bounds};
ghost use Rattle.bw_file.specs.TableReading.{parse_nullable, parse_name};

use crate::layout::Layout;
use crate::order::FileOrder;
use bw_model::{Column, Fault, MAX_ROWS, code, is_name};

/// Returns the bytes that a file begins with, by the order of its blocks.
#[tactic(auto, unfolding(crate::specs::FileBytes::magic))]
pub(crate) fn magic_bytes(order: FileOrder) -> &'static [u8; 8]
    ensures { result.now ≡ magic order }
{
    match order {
        FileOrder::ByRows => b"BWCOLUMN",
        FileOrder::ByColumns => b"BWBYCOLS",
    }
}

/// Returns the value of a field, or its error at this byte.
pub(crate) fn at_offset<T>(at: u64, said: Result<T, u16>) -> Result<T, Fault>
    ensures { result ≡ at_offset at said }
{
    match said {
        Ok(value) => Ok(value),
        Err(code) => Err(Fault::at_byte(code, at)),
    }
}

/// A field of `N` bytes.
pub(crate) trait Field<const N: usize> {
    type Contents;

    /// The value of the field's bytes, or the number of its error.
    ghost value_of: { Self → List ℕ → Result Self.Contents ℕ };

    /// What holds of each value.
    ghost valid: { Self.Contents → Type 0 } = { λ _. Unit {0} };

    /// Returns the value of the field's bytes.
    fn parse(&self, bytes: &[u8; N]) -> Result<Self::Contents, u16>
        ensures value { result ≡ value_of self.now bytes.now }
        ensures valid { IfOk result valid };
}

/// The magic of a file in this order. Errors: 301.
#[derive(Clone, Copy)]
pub(crate) struct Magic(pub(crate) FileOrder);

impl Field<8> for Magic {
    type Contents = ();

    ghost value_of = { λ field. parse_magic field.0 };

    #[tactic(auto, unfolding(crate::specs::TableReading::parse_magic))]
    fn parse(&self, bytes: &[u8; 8]) -> Result<(), u16> {
        if bytes == magic_bytes(self.0) {
            Ok(())
        } else {
            Err(code::MAGIC)
        }
    }
}

/// The version: 1 or 2, and 2 in a file by columns. Errors: 302.
#[derive(Clone, Copy)]
pub(crate) struct Version(pub(crate) FileOrder);

impl Field<1> for Version {
    type Contents = u8;

    ghost value_of = { λ field. parse_version field.0 };

    #[tactic(auto, unfolding(crate::specs::TableReading::parse_version))]
    fn parse(&self, bytes: &[u8; 1]) -> Result<u8, u16> {
        let version = bytes[0];
        if is_version(self.0, version) {
            Ok(version)
        } else {
            Err(code::VERSION)
        }
    }
}

/// Returns whether files in this order may have this version.
fn is_version(order: FileOrder, version: u8) -> bool
    ensures { result ≡ is_version order version }
{
    match order {
        FileOrder::ByRows => version == 1 || version == 2,
        FileOrder::ByColumns => version == 2,
    }
}

/// The layout. Errors: 303.
#[derive(Clone, Copy)]
pub(crate) struct LayoutByte;

impl Field<1> for LayoutByte {
    type Contents = Layout;

    ghost value_of = { λ _. parse_layout };

    #[tactic(auto, unfolding(crate::specs::TableReading::parse_layout))]
    fn parse(&self, bytes: &[u8; 1]) -> Result<Layout, u16> {
        match bytes[0] {
            0 => Ok(Layout::Planes),
            1 => Ok(Layout::Slices),
            _ => Err(code::LAYOUT),
        }
    }
}

/// The number of columns, 1 to 64. Errors: 304.
#[derive(Clone, Copy)]
pub(crate) struct ColumnCount;

impl Field<2> for ColumnCount {
    type Contents = u16;

    ghost value_of = { λ _. parse_count };

    ghost valid = { λ count. (1 ≤ count) × (count ≤ 64) };

    #[tactic(auto, unfolding(crate::specs::TableReading::parse_count))]
    fn parse(&self, bytes: &[u8; 2]) -> Result<u16, u16> {
        let count = u16::from_le_bytes(*bytes);
        if count == 0 || count > 64 {
            Err(code::HEADER)
        } else {
            Ok(count)
        }
    }
}

/// The number of rows, at most 2^24. Errors: 310.
#[derive(Clone, Copy)]
pub(crate) struct RowCount;

impl Field<4> for RowCount {
    type Contents = u32;

    ghost value_of = { λ _. parse_row_count };

    ghost valid = { λ rows. rows ≤ most_rows };

    #[tactic(auto, unfolding(crate::specs::TableReading::parse_row_count))]
    fn parse(&self, bytes: &[u8; 4]) -> Result<u32, u16> {
        let rows = u32::from_le_bytes(*bytes);
        if rows > MAX_ROWS {
            Err(code::ROW_COUNT)
        } else {
            Ok(rows)
        }
    }
}

/// A column's minimum and maximum.
#[derive(Clone, Copy, PartialEq, Eq)]
pub(crate) struct Bounds {
    pub(crate) lo: i64,
    pub(crate) hi: i64,
}

/// The bounds of a column, in a file of this version. Errors: 304 if they are out of order or too
/// far apart.
#[derive(Clone, Copy)]
pub(crate) struct ColumnBounds(pub(crate) u8);

impl Field<16> for ColumnBounds {
    type Contents = Bounds;

    ghost value_of = { λ field. parse_bounds field.0 };

    ghost valid = { λ bounds. (bounds.lo ≤ℤ bounds.hi)
        × ((bounds.hi -ℤ bounds.lo) <ℤ pos (2 ^ 63)) };

    #[tactic(auto, unfolding(crate::specs::TableReading::parse_bounds))]
    fn parse(&self, bytes: &[u8; 16]) -> Result<Bounds, u16> {
        let lo = bound_in(&bytes[..8]);
        let hi = bound_in(&bytes[8..]);
        if are_bounds(self.0, lo, hi) {
            Ok(Bounds { lo, hi })
        } else {
            Err(code::HEADER)
        }
    }
}

/// Returns the number of eight bytes, little-endian, in two's complement.
fn bound_in(bytes: &[u8]) -> i64
    requires { length bytes.now ≡ 8 }
    ensures { result ≡ bound_in bytes.now }
{
    i64::from_le_bytes([
        bytes[0], bytes[1], bytes[2], bytes[3], bytes[4], bytes[5], bytes[6], bytes[7],
    ])
}

/// Returns whether the bounds are in order, and less than 2^32 apart in version 1 or 2^63 in
/// another.
#[tactic(auto, unfolding(crate::specs::FileBytes::are_bounds))]
pub(crate) fn are_bounds(version: u8, lo: i64, hi: i64) -> bool
    ensures test { result ≡ are_bounds version lo hi }
    ensures ordered { IsTrue result → lo ≤ℤ hi }
    ensures narrow { IsTrue result → (hi -ℤ lo) <ℤ pos (2 ^ 63) }
{
    if lo > hi {
        return false;
    }
    let distance = hi.abs_diff(lo);
    if version == 1 {
        distance < 1 << 32
    } else {
        distance < 1 << 63
    }
}

/// Whether a column is nullable, from a byte that is 0 or 1. Errors: 304.
#[derive(Clone, Copy)]
pub(crate) struct Nullable;

impl Field<1> for Nullable {
    type Contents = bool;

    ghost value_of = { λ _. parse_nullable };

    #[tactic(auto, unfolding(crate::specs::TableReading::parse_nullable))]
    fn parse(&self, bytes: &[u8; 1]) -> Result<bool, u16> {
        match bytes[0] {
            0 => Ok(false),
            1 => Ok(true),
            _ => Err(code::HEADER),
        }
    }
}
