//! The instructions of scan programs.

/// The number of a register, 0 to 63: r0 to r63. A register has a bit for each of a segment's 512
/// lanes.
pub type Register = u8;

/// The number of a column of the schema, from 0.
pub type ColumnIndex = u8;

/// The number of a bit of a column's codes, from 0, the least, to 63.
pub type BitIndex = u8;

/// The number of a slice of a column's codes, which has eight bits, from 0, the least, to 7.
pub type SliceIndex = u8;

/// One instruction: what its first register becomes in each of a segment's 512 lanes, or where a
/// run continues.
#[derive(Clone, Copy)]
pub enum Instr {
    /// `(r, col, bit)`: register r becomes the plane of a bit of column col's codes.
    Load(Register, ColumnIndex, BitIndex),
    /// `(r, col)`: r becomes the null plane of column col.
    Nulls(Register, ColumnIndex),
    /// `(r, bit)`: r becomes the same bit in every lane.
    Fill(Register, bool),
    /// `(r, x, y)`: r becomes the AND of registers x and y, lane by lane.
    And(Register, Register, Register),
    /// `(r, x, y)`: r becomes the OR of registers x and y, lane by lane.
    Or(Register, Register, Register),
    /// `(r, x, y)`: r becomes the XOR of registers x and y, lane by lane.
    Xor(Register, Register, Register),
    /// `(r, x)`: r becomes the complement of register x, in padding lanes too.
    Not(Register, Register),
    /// `(r, col, slice, k)`: r becomes 1 in the lanes in which the byte of a slice of column col's
    /// codes is less than k, else 0.
    ByteLt(Register, ColumnIndex, SliceIndex, u8),
    /// `(r, col, slice, k)`: r becomes 1 in the lanes in which the byte of a slice of column col's
    /// codes is k, else 0.
    ByteEq(Register, ColumnIndex, SliceIndex, u8),
    /// `(x, target)`: if register x is 0 in all 512 lanes, the run continues at instruction
    /// `target`, else at the next one. The number after the last instruction is the end.
    Skip(Register, usize),
}
