//! Program files, whole: those of `cases/` with these names, line for line.

/// A table with a column from 0 to 255, which has variables 0 to 7, and a nullable one from -10 to
/// 10, which has 8 for its null and 9 to 13.
pub(crate) const SCHEMA: &[u8] = b"TABLE t\nCOLUMN a 0 255 NOT NULL\nCOLUMN b -10 10\n";

/// A program file for `a >= 192` by its two top bits: its program, and the lines of its
/// instructions and joins.
macro_rules! by_top_bits {
    ($program:literal, $lines:literal) => {
        concat!(
            $program,
            "CERTIFICATE\n\
            NODE 2 1 1 0\nNODE 3 0 1 2\nNODE 4 1 0 1\nNODE 5 0 0 1\nNODE 6 0 0 4\nNODE 7 0 0 2\n\
            CHAIN 0 LT a 0 0 0 0 -\nCHAIN 1 LT a 0 1 0 0 0\nCHAIN 2 LT a 0 2 0 0 1\n\
            CHAIN 3 LT a 0 3 0 0 2\nCHAIN 4 LT a 0 4 0 0 3\nCHAIN 5 LT a 0 5 0 0 4\n\
            CHAIN 6 LT a 0 6 0 0 5\nCHAIN 7 LT a 0 7 64 2 6\nCHAIN 8 LT a 0 8 192 3 7\n\
            ROW 0 DIFF 1 1 0 S\nROW 1 DIFF 1 0 1 S\nROW 2 DIFF 1 2 4 V 1 0 1\n\
            ROW 3 DIFF 1 3 6 V 0 0 2\nROW 4 AND 1 3 3 S\nROW 5 AND 0 4 0 S\nROW 6 AND 1 4 4 S\n\
            ROW 7 AND 5 4 6 V 0 5 6\nROW 8 XOR 6 6 0 S\nROW 9 XOR 0 0 0 S\nROW 10 XOR 1 0 1 S\n\
            ROW 11 XOR 1 1 0 S\nROW 12 XOR 1 4 2 V 1 10 11\nROW 13 XOR 5 6 7 V 0 9 12\n\
            ROW 14 DIFF 0 0 0 S\nROW 15 DIFF 2 1 0 S\nROW 16 DIFF 7 5 0 V 0 14 15\n\
            CMP 8 - 4 3\n",
            $lines
        )
    };
}

/// `a >= 192` by its two top bits, with a skip between them: 46 lines.
pub(crate) const TOP_BITS: &str = by_top_bits!(
    "LOAD r0 a 7\nSKIP r0 4\nLOAD r1 a 6\nAND r0 r0 r1\nRESULT r0\n",
    "LOAD 5\nSKIP\nLOAD 4\nOP 7\nJOIN 4\nKEEP r0 6 8 13 16\nEND 8\n"
);

/// The same with the skip twice, one after the other.
pub(crate) const SAME_SKIP_TWICE: &str = by_top_bits!(
    "LOAD r0 a 7\nSKIP r0 5\nSKIP r0 5\nLOAD r1 a 6\nAND r0 r0 r1\nRESULT r0\n",
    "LOAD 5\nSKIP\nSKIP\nLOAD 4\nOP 7\nJOIN 5\nKEEP r0 6 8 13 16 13 16\nEND 8\n"
);

/// `a >= 224` by its three top bits, with a skip after the first and one after the second, both to
/// the same place.
pub(crate) const TWO_SKIPS: &str = "\
    LOAD r0 a 7\nSKIP r0 7\nLOAD r1 a 6\nAND r0 r0 r1\nSKIP r0 7\nLOAD r1 a 5\nAND r0 r0 r1\n\
    RESULT r0\n\
    CERTIFICATE\n\
    NODE 2 2 1 0\nNODE 3 1 1 2\nNODE 4 0 1 3\nNODE 5 2 0 1\nNODE 6 1 0 5\nNODE 7 0 0 6\n\
    NODE 8 0 0 1\nNODE 9 1 0 1\nNODE 10 0 0 9\nNODE 11 0 0 3\nNODE 12 1 0 2\nNODE 13 0 0 12\n\
    CHAIN 0 LT a 0 0 0 0 -\nCHAIN 1 LT a 0 1 0 0 0\nCHAIN 2 LT a 0 2 0 0 1\n\
    CHAIN 3 LT a 0 3 0 0 2\nCHAIN 4 LT a 0 4 0 0 3\nCHAIN 5 LT a 0 5 0 0 4\n\
    CHAIN 6 LT a 0 6 32 2 5\nCHAIN 7 LT a 0 7 96 3 6\nCHAIN 8 LT a 0 8 224 4 7\n\
    ROW 0 DIFF 1 1 0 S\nROW 1 DIFF 1 0 1 S\nROW 2 DIFF 1 2 5 V 2 0 1\nROW 3 DIFF 1 3 6 V 1 0 2\n\
    ROW 4 DIFF 1 4 7 V 0 0 3\nROW 5 AND 1 4 4 S\nROW 6 AND 0 9 0 S\nROW 7 AND 1 9 9 S\n\
    ROW 8 AND 8 9 10 V 0 6 7\nROW 9 AND 0 5 0 S\nROW 10 AND 1 5 5 S\nROW 11 AND 9 5 6 V 1 9 10\n\
    ROW 12 AND 10 5 7 V 0 9 11\nROW 13 XOR 7 7 0 S\nROW 14 XOR 0 0 0 S\nROW 15 XOR 1 0 1 S\n\
    ROW 16 XOR 1 1 0 S\nROW 17 XOR 1 5 2 V 2 15 16\nROW 18 XOR 1 6 3 V 1 15 17\n\
    ROW 19 XOR 8 7 11 V 0 14 18\nROW 20 DIFF 0 0 0 S\nROW 21 DIFF 3 1 0 S\n\
    ROW 22 DIFF 11 8 0 V 0 20 21\nROW 23 XOR 9 6 12 V 1 14 17\nROW 24 XOR 10 7 13 V 0 14 23\n\
    ROW 25 DIFF 2 1 0 S\nROW 26 DIFF 12 9 0 V 1 20 25\nROW 27 DIFF 13 10 0 V 0 20 26\n\
    CMP 8 - 5 4\nLOAD 8\nSKIP\nLOAD 9\nOP 8\nSKIP\nLOAD 5\nOP 12\nJOIN 7\n\
    KEEP r0 7 13 19 22 24 27\nEND 13\n";

/// `a < 8` by a comparison of bytes.
pub(crate) const BELOW_EIGHT: &str = "\
    BYTELT r0 a 0 8\nRESULT r0\n\
    CERTIFICATE\n\
    NODE 2 4 1 0\nNODE 3 3 2 0\nNODE 4 2 3 0\nNODE 5 1 4 0\nNODE 6 0 5 0\nNODE 7 4 0 1\n\
    NODE 8 3 7 1\nNODE 9 2 8 1\nNODE 10 1 9 1\nNODE 11 0 10 1\n\
    CHAIN 0 LT a 0 0 0 0 -\nCHAIN 1 LT a 0 1 0 0 0\nCHAIN 2 LT a 0 2 0 0 1\n\
    CHAIN 3 LT a 0 3 0 0 2\nCHAIN 4 LT a 0 4 8 2 3\nCHAIN 5 LT a 0 5 8 3 4\n\
    CHAIN 6 LT a 0 6 8 4 5\nCHAIN 7 LT a 0 7 8 5 6\nCHAIN 8 LT a 0 8 8 6 7\n\
    ROW 0 DIFF 1 1 0 S\nROW 1 DIFF 1 0 1 S\nROW 2 DIFF 1 2 7 V 4 0 1\nROW 3 DIFF 1 3 8 V 3 2 1\n\
    ROW 4 DIFF 1 4 9 V 2 3 1\nROW 5 DIFF 1 5 10 V 1 4 1\nROW 6 DIFF 1 6 11 V 0 5 1\n\
    ROW 7 AND 1 6 6 S\nROW 8 XOR 6 6 0 S\n\
    CMP 8 - 7 6\nBYTE 8\nEND 8\n";
