//! The words that begin the lines of a program text.
ghost use Rattle.std.specs.Prelude.{◌≡◌, Some};
ghost use Rattle.bw_text.specs.Opcode.{opcode_spelling, opcode_of};

use crate::text::is_same_text;

/// The operation of a program text's line: the kind of an instruction, or the result register.
#[derive(Clone, Copy)]
pub enum Opcode {
    Load,
    Nulls,
    Fill,
    And,
    Or,
    Xor,
    Not,
    ByteLt,
    ByteEq,
    Skip,
    Result,
}

/// All opcodes.
const OPCODES: [Opcode; 11] = [
    Opcode::Load,
    Opcode::Nulls,
    Opcode::Fill,
    Opcode::And,
    Opcode::Or,
    Opcode::Xor,
    Opcode::Not,
    Opcode::ByteLt,
    Opcode::ByteEq,
    Opcode::Skip,
    Opcode::Result,
];

impl Opcode {
    /// Returns the word in capitals.
    pub fn spelling(self) -> &'static [u8]
        ensures { result.now ≡ opcode_spelling self }
    {
        match self {
            Opcode::Load => b"LOAD",
            Opcode::Nulls => b"NULLS",
            Opcode::Fill => b"FILL",
            Opcode::And => b"AND",
            Opcode::Or => b"OR",
            Opcode::Xor => b"XOR",
            Opcode::Not => b"NOT",
            Opcode::ByteLt => b"BYTELT",
            Opcode::ByteEq => b"BYTEEQ",
            Opcode::Skip => b"SKIP",
            Opcode::Result => b"RESULT",
        }
    }

    /// Returns the opcode that a word spells, ignoring the case of ASCII letters.
    #[tactic(auto, unfolding(crate::specs::Opcode::opcode_of))]
    pub fn of(word: &[u8]) -> Option<Opcode>
        ensures { result ≡ opcode_of word.now }
    {
        OPCODES
            .iter()
            .copied()
            .find(|opcode| is_same_text(opcode.spelling(), word))
    }

    /// A law: each opcode is the one that its spelling spells.
    pub fn is_of_its_spelling(self)
        ensures { opcode_of (opcode_spelling self) ≡ Some self }
    {}
}
