//! Tokens of the query language, with their places in a statement.
use bw_model::Op;
use bw_text::Keyword;

/// A punctuation mark that isn't a comparison.
#[derive(Clone, Copy, PartialEq, Eq)]
pub enum Mark {
    Open,
    Close,
    Comma,
    Star,
    Semicolon,
    Plus,
    Minus,
}

/// A token. Names and digits are as the statement spells them.
#[derive(Clone, Copy)]
pub enum Token<'a> {
    /// A word that isn't reserved.
    Name(&'a [u8]),
    Digits(&'a [u8]),
    Keyword(Keyword),
    Compare(Op),
    Mark(Mark),
}

/// A token, and the byte at which it begins.
#[derive(Clone, Copy)]
pub struct PlacedToken<'a> {
    pub token: Token<'a>,
    pub at: usize,
}
