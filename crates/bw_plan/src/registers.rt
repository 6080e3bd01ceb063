//! What the registers of a program hold.
use crate::unplanned::Unplanned;
use bw_program::{BitIndex, ColumnIndex, Instr, Register, SliceIndex};

/// What a register may hold so that it can be used again, wherever it was computed.
#[derive(Clone, Copy, PartialEq, Eq)]
pub(crate) enum Content {
    /// A bit of a column's codes.
    Bit(ColumnIndex, BitIndex),
    /// 1 if a column, which may be null, is null.
    Nulls(ColumnIndex),
    /// 1 if a column, which may be null, has a value.
    Values(ColumnIndex),
    /// 1 if a byte of a column's codes is less than a number.
    Less(ColumnIndex, SliceIndex, u8),
    /// 1 if a byte of a column's codes is a number.
    Equal(ColumnIndex, SliceIndex, u8),
}

impl Content {
    /// Returns the instruction that sets a register to it: for `Values` to its opposite.
    pub(crate) fn instr(self, to: Register) -> Instr {
        match self {
            Content::Bit(column, bit) => Instr::Load(to, column, bit),
            Content::Nulls(column) | Content::Values(column) => Instr::Nulls(to, column),
            Content::Less(column, slice, byte) => Instr::ByteLt(to, column, slice, byte),
            Content::Equal(column, slice, byte) => Instr::ByteEq(to, column, slice, byte),
        }
    }
}

/// What is known of a register: what it holds, if that can be used again, and whether it
/// is needed.
#[derive(Clone, Copy, Default)]
struct State {
    content: Option<Content>,
    needed: bool,
}

/// The 64 registers.
#[derive(Clone, Copy)]
pub(crate) struct RegisterStates {
    states: [State; 64],
}

impl RegisterStates {
    /// Returns registers of which nothing is known.
    pub(crate) fn new() -> Self {
        RegisterStates {
            states: [State::default(); 64],
        }
    }

    /// Returns a register that isn't needed, preferably one that holds nothing.
    pub(crate) fn claim(&self) -> Result<Register, Unplanned> {
        let empty = self.find(None);
        let free = empty.or(self.states.iter().position(|state| !state.needed));
        Ok((free.ok_or(Unplanned::Length)? % 64) as Register)
    }

    /// Returns a register that isn't needed and holds this.
    fn find(&self, content: Option<Content>) -> Option<usize> {
        let mut states = self.states.iter();
        states.position(|state| !state.needed && state.content == content)
    }

    /// Returns a register that holds this and from now on is needed, if one isn't needed so far.
    pub(crate) fn reserve(&mut self, content: Content) -> Option<Register> {
        let register = (self.find(Some(content))? % 64) as Register;
        self.occupy(register, Some(content));
        Some(register)
    }

    /// Makes a register one that is needed, and holds this.
    pub(crate) fn occupy(&mut self, register: Register, content: Option<Content>) {
        self.states[usize::from(register % 64)] = State {
            content,
            needed: true,
        };
    }

    /// Records that a register isn't needed. What it holds may be used again.
    pub(crate) fn release(&mut self, register: Register) {
        self.states[usize::from(register % 64)].needed = false;
    }

    /// Forgets what isn't the same by a skip from a place where these were known.
    pub(crate) fn meet(&mut self, others: &RegisterStates) {
        for (state, other) in self.states.iter_mut().zip(others.states.iter()) {
            if state.content != other.content {
                state.content = None;
            }
        }
    }
}
