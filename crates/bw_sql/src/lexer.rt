//! Cuts a statement into tokens, the longest piece first.
ghost use Rattle.std.specs.Prelude.{◌≡◌, ◌≤◌, ◌↔◌, IsTrue, length, [], ◌∷◌, false, IfOk, IfSome};
ghost use Rattle.std.specs.Prelude.{IfNone, MatchOption};
ghost use Rattle.std.specs.List.{prefix_len};
ghost use Rattle.std.specs.Char.{is_ascii_digit};
ghost use Rattle.bw_text.specs.Text.{goes_on_in_word};
ghost use Rattle.bw_sql.specs.Cut.{HasNoToken, IsCut, spots};
ghost use Rattle.bw_sql.specs.Lexer.{piece};
ghost use Rattle.bw_sql.specs.Piece.{IsDelimiter, IsLongestDelimiter, BeginsNoDelimiter, IsLongest};
ghost use Rattle.bw_sql.specs.Piece.{BeginsNoPiece, is_short_delimiter, is_long_delimiter};
ghost use Rattle.bw_sql.specs.Piece.{is_blank, is_in_comment, begins_comment};
ghost use Rattle.bw_sql.specs.Token.{Compare, lexeme, word_lexeme};

use crate::token::{Mark, PlacedToken, Token};
use bw_model::Op;
use bw_text::{Keyword, begins_word, goes_on_in_word};
use std::alloc::{AllocError, Global};

/// The tokens of a statement, up to its end or to the first byte that begins no token, blank or
/// comment.
#[derive(Drop)]
pub struct Lexed<'a> {
    pub tokens: Vec<PlacedToken<'a>>,
    pub stopped: Option<usize>,
}

/// A piece of a text: a blank or a comment, or a token.
#[derive(Clone, Copy)]
enum LexedPiece<'a> {
    Gap,
    Token(Token<'a>),
}

/// Cuts a text into tokens.
pub fn lex(alloc: Global, text: &[u8]) -> Result<Lexed<'_>, AllocError>
    ensures { IfOk result (λ lexed. IsCut 0 text.now (spots lexed.tokens.items) lexed.stopped) }
{
    let mut tokens = Vec::new(alloc);
    let mut rest = text;
    while !rest.is_empty() {
        let at = text.len() - rest.len();
        let Some((piece, after)) = first_piece(rest) else {
            return Ok(Lexed {
                tokens,
                stopped: Some(at),
            });
        };
        if let LexedPiece::Token(token) = piece {
            tokens.push(PlacedToken { token, at })?;
        }
        rest = after;
    }
    Ok(Lexed {
        tokens,
        stopped: None,
    })
}

/// Returns whether a text has no token: nothing but blanks, line ends and comments.
pub fn has_no_token(text: &[u8]) -> bool
    ensures { IsTrue result ↔ HasNoToken text.now }
{
    let mut rest = text;
    while !rest.is_empty() {
        let Some((piece, after)) = first_piece(rest) else {
            return false;
        };
        if let LexedPiece::Token(_) = piece {
            return false;
        }
        rest = after;
    }
    true
}

/// Returns the longest piece that begins a text, and the text after it.
fn first_piece(text: &[u8]) -> Option<(LexedPiece<'_>, &[u8])>
    ensures { MatchOption result (BeginsNoPiece text.now)
        (λ found. IsLongest text.now found.1.now (piece found.0)) }
{
    let (first, rest) = text.split_first()?;
    if is_blank(*first) {
        Some((LexedPiece::Gap, rest))
    } else if begins_word(*first) {
        let (word, after) = text.split_at(word_len(text));
        Some((LexedPiece::Token(word_token(word)), after))
    } else if first.is_ascii_digit() {
        let (digits, after) = text.split_at(digits_len(text));
        Some((LexedPiece::Token(Token::Digits(digits)), after))
    } else if begins_comment(text) {
        let (_, after) = text.split_at(comment_len(text));
        Some((LexedPiece::Gap, after))
    } else {
        let (token, after) = delimiter(text)?;
        Some((LexedPiece::Token(token), after))
    }
}

/// Returns whether a byte is a space, a tab, an LF or a CR.
fn is_blank(c: u8) -> bool
    ensures { result ≡ is_blank c }
{
    c == b' ' || c == b'\t' || c == b'\n' || c == b'\r'
}

/// Returns whether two dashes begin a text.
fn begins_comment(text: &[u8]) -> bool
    ensures { result ≡ begins_comment text.now }
{
    text.starts_with(b"--")
}

/// Returns how many bytes at the beginning of a text can go on in a word.
fn word_len(text: &[u8]) -> usize
    ensures is { result ≡ prefix_len goes_on_in_word text.now }
    ensures within { result ≤ length text.now }
{
    text.iter().take_while(|c| goes_on_in_word(**c)).count()
}

/// Returns how many digits begin a text.
fn digits_len(text: &[u8]) -> usize
    ensures is { result ≡ prefix_len is_ascii_digit text.now }
    ensures within { result ≤ length text.now }
{
    text.iter().take_while(|c| c.is_ascii_digit()).count()
}

/// Returns how many bytes of a text are before its first LF.
fn comment_len(text: &[u8]) -> usize
    ensures is { result ≡ prefix_len is_in_comment text.now }
    ensures within { result ≤ length text.now }
{
    text.iter().take_while(|c| **c != b'\n').count()
}

/// Returns the keyword that a word is, or else a name.
fn word_token(word: &[u8]) -> Token<'_>
    ensures { lexeme result ≡ word_lexeme word.now }
{
    match Keyword::of(word) {
        Some(keyword) => Token::Keyword(keyword),
        None => Token::Name(word),
    }
}

/// Returns the longest comparison or mark that begins a text, and the text after it.
fn delimiter(text: &[u8]) -> Option<(Token<'_>, &[u8])>
    ensures { MatchOption result (BeginsNoDelimiter text.now)
        (λ found. IsLongestDelimiter text.now found.1.now (lexeme found.0)) }
{
    let (first, rest) = text.split_first()?;
    if let Some((second, after)) = rest.split_first() {
        if let Some(op) = long_comparison(*first, *second) {
            return Some((Token::Compare(op), after));
        }
    }
    let token = short_delimiter(*first)?;
    Some((token, rest))
}

/// Returns the comparison that two bytes are, if they are one.
fn long_comparison(first: u8, second: u8) -> Option<Op>
    ensures found { IfSome result (λ op. IsDelimiter (first ∷ second ∷ []) (Compare op)) }
    ensures none { IfNone result (is_long_delimiter first second ≡ false) }
{
    match (first, second) {
        (b'<', b'>') => Some(Op::Ne),
        (b'<', b'=') => Some(Op::Le),
        (b'>', b'=') => Some(Op::Ge),
        _ => None,
    }
}

/// Returns the comparison or mark that a byte is, if it is one.
fn short_delimiter(c: u8) -> Option<Token<'static>>
    ensures found { IfSome result (λ token. IsDelimiter (c ∷ []) (lexeme token)) }
    ensures none { IfNone result (is_short_delimiter c ≡ false) }
{
    match c {
        b'(' => Some(Token::Mark(Mark::Open)),
        b')' => Some(Token::Mark(Mark::Close)),
        b'*' => Some(Token::Mark(Mark::Star)),
        b'+' => Some(Token::Mark(Mark::Plus)),
        b',' => Some(Token::Mark(Mark::Comma)),
        b'-' => Some(Token::Mark(Mark::Minus)),
        b';' => Some(Token::Mark(Mark::Semicolon)),
        b'<' => Some(Token::Compare(Op::Lt)),
        b'=' => Some(Token::Compare(Op::Eq)),
        b'>' => Some(Token::Compare(Op::Gt)),
        _ => None,
    }
}
