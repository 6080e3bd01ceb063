//! The 17 reserved words of statements and schema texts.
ghost use Rattle.std.specs.Prelude.{◌≡◌, Some};
ghost use Rattle.bw_text.specs.Text.{same_text};
ghost use Rattle.bw_text.specs.Keyword.{spelling, keyword_of};

use crate::text::is_same_text;

/// A reserved word of the query language, which is never a name.
#[derive(Clone, Copy, PartialEq, Eq)]
pub enum Keyword {
    And,
    Between,
    Count,
    False,
    From,
    In,
    Is,
    Max,
    Min,
    Not,
    Null,
    Or,
    Select,
    Sum,
    True,
    Unknown,
    Where,
}

/// All reserved words.
const KEYWORDS: [Keyword; 17] = [
    Keyword::And,
    Keyword::Between,
    Keyword::Count,
    Keyword::False,
    Keyword::From,
    Keyword::In,
    Keyword::Is,
    Keyword::Max,
    Keyword::Min,
    Keyword::Not,
    Keyword::Null,
    Keyword::Or,
    Keyword::Select,
    Keyword::Sum,
    Keyword::True,
    Keyword::Unknown,
    Keyword::Where,
];

impl Keyword {
    /// Returns the word in capitals.
    pub fn spelling(self) -> &'static [u8]
        ensures { result.now ≡ spelling self }
    {
        match self {
            Keyword::And => b"AND",
            Keyword::Between => b"BETWEEN",
            Keyword::Count => b"COUNT",
            Keyword::False => b"FALSE",
            Keyword::From => b"FROM",
            Keyword::In => b"IN",
            Keyword::Is => b"IS",
            Keyword::Max => b"MAX",
            Keyword::Min => b"MIN",
            Keyword::Not => b"NOT",
            Keyword::Null => b"NULL",
            Keyword::Or => b"OR",
            Keyword::Select => b"SELECT",
            Keyword::Sum => b"SUM",
            Keyword::True => b"TRUE",
            Keyword::Unknown => b"UNKNOWN",
            Keyword::Where => b"WHERE",
        }
    }

    /// A law: each reserved word is the one that its spelling spells.
    pub fn is_of_its_spelling(self)
        ensures { keyword_of (spelling self) ≡ Some self }
    {}

    /// Returns the reserved word that a text is, ignoring the case of ASCII letters.
    #[tactic(auto, unfolding(crate::specs::Keyword::keyword_of))]
    pub fn of(text: &[u8]) -> Option<Keyword>
        ensures { result ≡ keyword_of text.now }
    {
        KEYWORDS
            .iter()
            .copied()
            .find(|word| is_same_text(word.spelling(), text))
    }
}
