//! Laws: what is written can be read again.
ghost use Rattle.std.specs.Prelude.{◌≡◌, ◌∷◌, ◌++◌, ◌+◌, ◌<◌, ◌^◌, ℕ, List, Some, IsTrue, true};
ghost use Rattle.std.specs.Prelude.{false};
ghost use Rattle.std.specs.Fmt.{decimal};
ghost use Rattle.std.specs.List.{list_all};
ghost use Rattle.bw_text.specs.Lines.{begins_comment, cut_lines, numbered_words, numbered_from};
ghost use Rattle.bw_text.specs.Number.{natural_of};
ghost use Rattle.bw_text.specs.Printing.{is_plain_word, line_text};

/// A law: a line that is written of plain words is cut off the text that begins with it, and has
/// these words. If its first word begins a comment, it is skipped, and counts.
pub fn written_lines_are_read()
    ensures parsed { (number : ℕ) (word : List ℕ) (words : List (List ℕ)) (rest : List ℕ)
        → IsTrue (is_plain_word word) → begins_comment word ≡ false
        → IsTrue (list_all is_plain_word words)
        → numbered_from number (cut_lines (line_text (word ∷ words) ++ rest))
        ≡ numbered_words number (word ∷ words) ∷ numbered_from (number + 1) (cut_lines rest) }
    ensures skipped { (number : ℕ) (word : List ℕ) (words : List (List ℕ)) (rest : List ℕ)
        → IsTrue (is_plain_word word) → begins_comment word ≡ true
        → IsTrue (list_all is_plain_word words)
        → numbered_from number (cut_lines (line_text (word ∷ words) ++ rest))
        ≡ numbered_from (number + 1) (cut_lines rest) }
{}

/// A law: a number below 2^64 that is written in decimal is read as that number.
pub fn written_numbers_are_read()
    ensures { (number : ℕ) → number < 2 ^ 64 → natural_of (decimal number) ≡ Some number }
{}
