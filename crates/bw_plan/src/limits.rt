//! All numbers by which the planner is tuned, each with what chose it. `bench.py cliffs` times the
//! conditions that are named here; `bw plan` shows a program and its certificate, and
//! `test_conditions` which conditions have one. Figures are those of the planner of 2026-11-29 and 30,
//! unless they have another date.

/// The most instructions of a program.
pub(crate) const MAX_INSTRUCTIONS: usize = 4096;

/// The most byte comparisons of a program without skips. One takes some 40 ns per segment, another
/// instruction 3, and the row-by-row fallback some 50 microseconds: with more comparisons it is
/// faster. With skips an instruction takes 10 ns, so every program that fits is faster than the
/// fallback. To repeat it: "OR of `x = n`" of `bench.py cliffs`.
pub(crate) const MAX_LOOKS: usize = 1000;

/// The most items of a list: planning a longer one takes longer than looking it up row by row in a
/// table that isn't very large. To repeat it: "1,000 in a row" of `bench.py cliffs`.
pub(crate) const MAX_LIST: usize = 400;

/// A set of codes is long if its bounds have more bytes in all, besides their top ones: those of 200
/// scattered numbers of 17 to 24 bits have 800. Longer lists are searched row by row in half the
/// time. An AND or OR combines sets of a column as long as the whole isn't long: each is combined
/// with those so far.
pub(crate) const LONG_SET: usize = 800;

/// The most product rows of a condition with a list whose set is long. With more, planning the list
/// and scanning a million rows for it takes longer than looking it up in each of them.
pub(crate) const MAX_LIST_ROWS: u32 = 4000;

/// The number of first parts of a condition that may have a skip to its end: each takes product
/// rows for each register that is kept.
pub(crate) const SKIPPED_PARTS: usize = 16;

/// An AND or OR begins with a part of more levels, if it has one: 64 registers are too few for 100
/// levels, each of which keeps up to two. `test_conditions` has such conditions.
pub(crate) const MANY_LEVELS: usize = 12;

/// All comparisons of two columns from the top down take at most six times as many nodes. One takes
/// six times the square of the number of its bits.
pub(crate) const MAX_SQUARES: usize = 1000;

/// The most product rows of a condition's own lines: seven columns of 63 bits that are each less
/// than the next take 68,641, and the largest of the drawn conditions of `test_conditions` that have
/// a program 63,160. With more, planning and checking take longer than the row-by-row fallback takes
/// for 100,000 rows.
pub(crate) const MAX_CONDITION_ROWS: u32 = 70_000;

/// From so many product rows on, an AND or OR has no program if its parts would pass the limit by
/// as many rows each as those so far. Without it, the conditions of `test_conditions` and of
/// `bench.py cliffs` that have no program took twice as long in sum, and four more had one that took
/// as long to plan as the largest, by the planner of 2026-11-29.
pub(crate) const FORECAST_FROM: u32 = 3000;

/// The most product rows of a certificate: as many take 20 MB to plan. Seven columns of 63 bits that
/// are each less than the next take 76,596 (2026-12-01). To repeat it: count the lines ROW of `bw
/// plan`.
pub(crate) const MAX_ROWS: u32 = 80_000;

/// The number of top bytes of a number after which a comparison with it may end early. Of 512 rows
/// hardly one has three bytes by chance; with a skip after each of eight bytes, an OR of 120 `x = n`
/// took half as many product rows again, by the planner of 2026-11-29.
pub(crate) const SKIPPED_BYTES: u8 = 3;

/// A condition whose own lines take as many product rows has no skips from part to part: to prove
/// them takes several times as many. With them, eight more conditions of `test_conditions` had no
/// program, and certificates were 30 % longer, by the planner of 2026-11-29.
pub(crate) const MAX_ROWS_TO_SKIP_PARTS: u32 = 10_000;

/// A condition whose own lines take as many product rows has no skips at all: too few nodes are
/// left for them. Seven columns of 63 bits that are each less than the next have a program only so.
pub(crate) const MAX_ROWS_TO_SKIP: u32 = 60_000;
