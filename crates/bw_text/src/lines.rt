//! Texts by lines. A line ends at a line feed or at the text's end; a carriage return before that
//! is dropped. Words are separated by spaces and tabs. A line without words, or whose first word
//! begins with `#`, is skipped, but counted.
ghost use Rattle.std.specs.Prelude.{◌≡◌, ◌+◌, ◌<◌, ◌^◌, [], ◌∷◌, IfOk, IfSome, IfNone, OnOk, OnErr};
ghost use Rattle.std.specs.Prelude.{map, filter, not, option_map, length};
ghost use Rattle.std.specs.List.{find, position, slice_split};
ghost use Rattle.std.specs.Str.Lines.{strip_carriage_return};
ghost use Rattle.bw_text.specs.Lines.{cut_lines, is_line_feed, is_blank, words_of, only_of};
ghost use Rattle.bw_text.specs.Lines.{is_empty, is_skipped, line_of, lines_in, end_in, whole};
ghost use Rattle.bw_text.specs.Lines.{from_line, IsFirstLine};

use std::alloc::{AllocError, Global};
use std::marker::Model;

/// A line that isn't skipped: its number, from 1, and its words.
#[derive(Drop)]
pub struct Line<'a> {
    pub number: u64,
    pub words: Vec<&'a [u8]>,
}

/// The lines of a text, from the first to the last. Its ghost value is the unread text, and the
/// number of that text's first line.
#[derive(Drop)]
pub struct Lines<'a> {
    text: &'a [u8],
    number: u64,
}

impl<'a> Model for Lines<'a> {
    ghost use Rattle.std.specs.Prelude.{◌+◌, ◌<◌, ◌^◌, length};
    ghost use Rattle.bw_text.specs.Lines.{Unread};

    ghost Value = { Unread };

    ghost view = { λ lines. record { number = lines.number; text = lines.text.now } };

    ghost invariant = { λ lines. lines.number + length lines.text.now < 2 ^ 64 };
}

impl<'a> Lines<'a> {
    /// Returns the lines of a whole text.
    pub fn new(text: &'a [u8]) -> Self
        requires { length text.now < 2 ^ 63 }
        ensures { result ≡ whole text.now }
    {
        Lines { text, number: 1 }
    }

    /// Returns the lines of a part of a text, the first of which has this number.
    pub fn from_line(number: u64, text: &'a [u8]) -> Self
        requires { number + length text.now < 2 ^ 64 }
        ensures { result ≡ from_line number text.now }
    {
        Lines { text, number }
    }

    /// Returns the unread text.
    pub fn rest(&self) -> &'a [u8]
        ensures { result.now ≡ self.now.text }
    {
        self.text
    }

    /// Returns the number of the next line. After the last line, it is the number of the text's
    /// end, where an error at the end is.
    pub fn number(&self) -> u64
        ensures { result ≡ self.now.number }
    {
        self.number
    }

    /// Returns the next line, skipped or not, without its line feed, or None at the end of the
    /// text. Allocates no memory.
    pub fn cut_line(&mut self) -> Option<&'a [u8]>
        ensures line { IfSome result (λ line. cut_lines self.old.text
            ≡ line.now ∷ cut_lines self.new.text) }
        ensures split { IfSome result (λ line. IsFirstLine self.old.text line.now self.new.text) }
        ensures number { IfSome result (λ line. self.new.number ≡ self.old.number + 1) }
        ensures none { IfNone result ((cut_lines self.old.text ≡ []) × (self.new ≡ self.old)) }
    {
        if self.text.is_empty() {
            return None;
        }
        let (line, rest) = split_line(self.text);
        self.text = rest;
        self.number += 1;
        Some(line)
    }

    /// Returns the next line that isn't skipped, or None at the end of the text. Fails if memory is
    /// refused; no such line is lost then, so the caller may ask again.
    pub fn next_line(&mut self, alloc: Global) -> Result<Option<Line<'a>>, AllocError>
        ensures line { IfOk result
            (λ found. IfSome found (λ line. lines_in self.old ≡ line_of line ∷ lines_in self.new)) }
        ensures none { IfOk result (λ found. IfNone found ((lines_in self.old ≡ [])
            × (end_in self.old ≡ self.new.number))) }
        ensures end { OnOk result (end_in self.new ≡ end_in self.old) }
        ensures refused { OnErr result
            ((lines_in self.new ≡ lines_in self.old) × (end_in self.new ≡ end_in self.old)) }
    {
        while !self.text.is_empty() {
            let (line, rest) = split_line(self.text);
            let number = self.number;
            let words = words_of(alloc, line)?;
            let skipped = is_skipped(&words);
            self.text = rest;
            self.number += 1;
            if !skipped {
                return Ok(Some(Line { number, words }));
            }
        }
        Ok(None)
    }
}

/// Returns the first line, without its line feed, and the text after it.
fn split_line(text: &[u8]) -> (&[u8], &[u8])
    requires { 0 < length text.now }
    ensures cut { cut_lines text.now ≡ result.0.now ∷ cut_lines result.1.now }
    ensures split { IsFirstLine text.now result.0.now result.1.now }
    ensures consumes_input { length result.1.now < length text.now }
{
    match line_feed_in(text) {
        Some(at) => (&text[..at], &text[at + 1..]),
        None => (text, &[]),
    }
}

/// Returns the place of the first line feed.
fn line_feed_in(text: &[u8]) -> Option<usize>
    ensures { result ≡ position is_line_feed text.now }
{
    text.iter().position(|c| *c == b'\n')
}

/// Returns the words of a line.
#[tactic(auto, unfolding(crate::specs::Lines::words_of))]
fn words_of(alloc: Global, line: &[u8]) -> Result<Vec<&[u8]>, AllocError>
    ensures { IfOk result (λ words. map (λ word. word.now) words.items ≡ words_of line.now) }
{
    words_between_blanks(alloc, without_carriage_return(line))
}

/// Returns the only word of a line, or None if it has no word or several. Allocates no memory.
#[tactic(auto, using(crate::proofs::WordLemmas::first_kept, crate::proofs::WordLemmas::none_alone), unfolding(crate::specs::Lines::words_of))]
pub fn only_word(line: &[u8]) -> Option<&[u8]>
    ensures { option_map (λ word. word.now) result ≡ only_of (words_of line.now) }
{
    let bare = without_carriage_return(line);
    if count_words(bare) == 1 {
        first_word(bare)
    } else {
        None
    }
}

/// Returns how many words there are between blanks.
fn count_words(line: &[u8]) -> usize
    ensures { result ≡ length
        (filter (λ word. not (is_empty word)) (slice_split is_blank line.now)) }
{
    line.split(|c| is_blank(*c))
        .filter(|word| !word.is_empty())
        .count()
}

/// Returns the first word between blanks.
fn first_word(line: &[u8]) -> Option<&[u8]>
    ensures { option_map (λ word. word.now) result
        ≡ find (λ word. not (is_empty word)) (slice_split is_blank line.now) }
{
    line.split(|c| is_blank(*c)).find(|word| !word.is_empty())
}

/// Returns a line without the carriage return at its end, if it has one.
fn without_carriage_return(line: &[u8]) -> &[u8]
    ensures { result.now ≡ strip_carriage_return line.now }
{
    match line {
        [front @ .., b'\r'] => front,
        _ => line,
    }
}

fn words_between_blanks(alloc: Global, line: &[u8]) -> Result<Vec<&[u8]>, AllocError>
    ensures { IfOk result (λ words. map (λ word. word.now) words.items
        ≡ filter (λ word. not (is_empty word)) (slice_split is_blank line.now)) }
{
    line.split(|c| is_blank(*c))
        .filter(|word| !word.is_empty())
        .collect(alloc)
}

fn is_blank(c: u8) -> bool
    ensures { result ≡ is_blank c }
{
    c == b' ' || c == b'\t'
}

fn is_skipped(words: &[&[u8]]) -> bool
    ensures { result ≡ is_skipped (map (λ word. word.now) words.now) }
{
    match words.first() {
        None => true,
        Some(word) => word.first() == Some(&b'#'),
    }
}
