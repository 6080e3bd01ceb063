//! The words that begin the lines of a certificate text.
ghost use Rattle.std.specs.Prelude.{◌≡◌, Some};
ghost use Rattle.bw_text.specs.LineKind.{kind_spelling, kind_of};

use crate::text::is_same_text;

/// The kind of a certificate's line, by its first word.
#[derive(Clone, Copy)]
pub enum LineKind {
    Node,
    Chain,
    Row,
    Condition(ConditionKind),
    Instruction(InstructionKind),
    Join,
    Keep,
    End,
}

/// The lines of a condition's steps.
#[derive(Clone, Copy)]
pub enum ConditionKind {
    Compare,
    CompareColumns,
    Fixed,
    NullTest,
    And,
    Or,
    Not,
    Is,
}

/// The lines of instructions.
#[derive(Clone, Copy)]
pub enum InstructionKind {
    Load,
    Fill,
    Op,
    Byte,
    Skip,
}

/// All kinds.
const KINDS: [LineKind; 19] = [
    LineKind::Node,
    LineKind::Chain,
    LineKind::Row,
    LineKind::Condition(ConditionKind::Compare),
    LineKind::Condition(ConditionKind::CompareColumns),
    LineKind::Condition(ConditionKind::Fixed),
    LineKind::Condition(ConditionKind::NullTest),
    LineKind::Condition(ConditionKind::And),
    LineKind::Condition(ConditionKind::Or),
    LineKind::Condition(ConditionKind::Not),
    LineKind::Condition(ConditionKind::Is),
    LineKind::Instruction(InstructionKind::Load),
    LineKind::Instruction(InstructionKind::Fill),
    LineKind::Instruction(InstructionKind::Op),
    LineKind::Instruction(InstructionKind::Byte),
    LineKind::Instruction(InstructionKind::Skip),
    LineKind::Join,
    LineKind::Keep,
    LineKind::End,
];

impl LineKind {
    /// Returns its word in capitals.
    pub fn spelling(self) -> &'static [u8]
        ensures { result.now ≡ kind_spelling self }
    {
        match self {
            LineKind::Node => b"NODE",
            LineKind::Chain => b"CHAIN",
            LineKind::Row => b"ROW",
            LineKind::Condition(ConditionKind::Compare) => b"CMP",
            LineKind::Condition(ConditionKind::CompareColumns) => b"CMP2",
            LineKind::Condition(ConditionKind::Fixed) => b"FIXED",
            LineKind::Condition(ConditionKind::NullTest) => b"NULLTEST",
            LineKind::Condition(ConditionKind::And) => b"AND",
            LineKind::Condition(ConditionKind::Or) => b"OR",
            LineKind::Condition(ConditionKind::Not) => b"NOT",
            LineKind::Condition(ConditionKind::Is) => b"IS",
            LineKind::Instruction(InstructionKind::Load) => b"LOAD",
            LineKind::Instruction(InstructionKind::Fill) => b"FILL",
            LineKind::Instruction(InstructionKind::Op) => b"OP",
            LineKind::Instruction(InstructionKind::Byte) => b"BYTE",
            LineKind::Instruction(InstructionKind::Skip) => b"SKIP",
            LineKind::Join => b"JOIN",
            LineKind::Keep => b"KEEP",
            LineKind::End => b"END",
        }
    }

    /// Returns the kind whose word this is, ignoring the case of ASCII letters.
    #[tactic(auto, unfolding(crate::specs::LineKind::kind_of))]
    pub fn of(word: &[u8]) -> Option<LineKind>
        ensures { result ≡ kind_of word.now }
    {
        KINDS
            .iter()
            .copied()
            .find(|kind| is_same_text(kind.spelling(), word))
    }

    /// A law: each kind is the one that its word spells.
    pub fn is_of_its_spelling(self)
        ensures { kind_of (kind_spelling self) ≡ Some self }
    {}
}
