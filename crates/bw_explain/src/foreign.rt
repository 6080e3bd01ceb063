//! Parts of SQL and of other languages that statements don't have, and what to write instead.
use crate::text::{Text, put};
use bw_model::Schema;
use bw_text::{Keyword, begins_word, goes_on_in_word};

/// At most so many parts are named.
const MOST: usize = 3;

/// Parts that begin with a word which isn't in the language, and what to write instead.
const FOREIGN: &str = "\
GROUP BY, HAVING: ask once for each group, as docs/COOKBOOK.md shows
ORDER BY: rows are in the order of the file; sort the result, as docs/COOKBOOK.md shows
LIMIT, OFFSET, FETCH, TOP: cut the result, as `head` does
JOIN, INNER JOIN, LEFT JOIN, RIGHT JOIN, OUTER JOIN, CROSS JOIN, NATURAL JOIN, ON, USING: \
a statement reads one table; join the CSV files before loading them
UNION, EXCEPT, INTERSECT: ask two statements
EXISTS, ALL, ANY, SOME, WITH: a statement can't contain another; ask two statements
LIKE, ILIKE, GLOB, REGEXP, SIMILAR TO: columns store whole numbers; \
bw-ask compares texts that bw-import loaded with = and <, and by IN
DISTINCT: pipe the rows through `sort -u`
AVG: ask for SUM and COUNT, and divide
AS: a heading is a column's name, or such as COUNT(a)
CASE: ask a statement for each case
CAST: columns store whole numbers
ABS, COALESCE, ROUND, LENGTH, LOWER, UPPER: the only functions are COUNT, SUM, MIN and MAX
INSERT, UPDATE, DELETE, CREATE, DROP, ALTER: \
`bw load` writes a table once; load it again from a changed CSV file";

const ARITHMETIC: &str = "arithmetic: compute before loading, or from the result";

/// A part that isn't in the language: its name, and what to write instead.
type Foreign = (&'static str, &'static str);

/// Appends what in a statement isn't in the language, and what to write instead: the first three
/// such parts, a line each. Returns whether there is one.
pub(crate) fn put_foreign(text: &mut Text, schema: &Schema, sql: &[u8]) -> bool {
    let mut named = [""; MOST];
    let (mut count, mut rest, mut follows_operand) = (0usize, sql, false);
    for _ in 0..sql.len() {
        let piece = first_piece(rest);
        rest = rest.get(piece.len()..).unwrap_or(b"");
        if piece.starts_with(b"--") || piece.trim_ascii_start().is_empty() {
            continue;
        }
        if let Some((name, instead)) = foreign_part(piece, schema, follows_operand)
            && count < MOST
            && !named.contains(&name)
        {
            named[count] = name;
            count += 1;
            put!(text; name, " is not in the language: ", instead, "\n");
        }
        follows_operand = is_operand(piece);
    }
    count > 0
}

/// Returns the first piece of a text in any dialect of SQL: a word, a number, a text in quotes, a
/// mark, a comment, or one space or line end.
pub(crate) fn first_piece(text: &[u8]) -> &[u8] {
    let first = text.first().copied().unwrap_or(0);
    for (at, byte) in text.iter().enumerate().skip(1) {
        let goes_on = match (first, *byte) {
            (b'\'' | b'"' | b'`', byte) if byte == first => return text.get(..=at).unwrap_or(text),
            (b'\'' | b'"' | b'`', _) => true,
            (b'0'..=b'9' | b'.', byte) => byte.is_ascii_digit() || byte == b'.',
            (b'!' | b'=' | b'<' | b'>', b'=') | (b'<', b'>') | (b'|', b'|') => at == 1,
            (b'-', byte) => text.starts_with(b"--") && byte != b'\n',
            (_, byte) => begins_word(first) && goes_on_in_word(byte),
        };
        if !goes_on {
            return text.get(..at).unwrap_or(text);
        }
    }
    text
}

/// Returns the part that isn't in the language, if a piece begins one.
fn foreign_part(piece: &[u8], schema: &Schema, follows_operand: bool) -> Option<Foreign> {
    let row = match piece {
        b"!=" => "!=: write <>",
        b"==" => "==: write =",
        b"." => "a table's name before a column's: write the column's name alone",
        b"/" | b"%" | b"||" => ARITHMETIC,
        b"+" | b"-" | b"*" if follows_operand => ARITHMETIC,
        [b'\'', ..] =>
            "a text in quotes: columns store whole numbers; bw-ask takes texts of a table that bw-import loaded",
        [b'"' | b'`', ..] =>
            "a name in quotation marks: write it bare; bw-ask takes a heading in double quotes",
        _ if piece.contains(&b'.') =>
            "a fraction such as 5.5: numbers are whole; bw-ask takes decimals of a table that bw-import loaded",
        _ if schema.name.is(piece) || schema.column_named(piece).is_some() => "",
        _ => return foreign_word(piece),
    };
    row.split_once(": ")
}

/// Returns the part that begins with a word which isn't in the language.
fn foreign_word(word: &[u8]) -> Option<Foreign> {
    for row in FOREIGN.lines() {
        let (names, instead) = row.split_once(": ")?;
        for name in names.split(", ") {
            let first = name.split(' ').next().unwrap_or("");
            if word.eq_ignore_ascii_case(first.as_bytes()) {
                return Some((name, instead));
            }
        }
    }
    None
}

/// Returns whether a piece ends an operand. A sign after it is then arithmetic.
fn is_operand(piece: &[u8]) -> bool {
    match piece {
        [b')' | b'\'' | b'"' | b'`' | b'0'..=b'9', ..] => true,
        [first, ..] => begins_word(*first) && Keyword::of(piece).is_none(),
        [] => false,
    }
}
