//! Aggregates and their totals.
use crate::segments::{SCHEMA, TABLE};
use crate::selected::assert_total;
use bw_lanes::{Plane, lane, mask};
use bw_model::{Item, Value};
use std::test::Fail;

/// Returns the plane of these first 64 lanes.
fn lanes(word: u64) -> Plane {
    [word, 0, 0, 0, 0, 0, 0, 0]
}

/// Which rows of the common table are selected, and their totals.
const COMMON_TOTALS: [(u64, Item, Option<i128>); 22] = [
    // all
    (0b11111, Item::CountAll, Some(5)),
    (0b11111, Item::Count(0), Some(5)),
    (0b11111, Item::Count(1), Some(3)),
    (0b11111, Item::Sum(0), Some(277)),
    (0b11111, Item::Sum(1), Some(0)),
    (0b11111, Item::Min(0), Some(0)),
    (0b11111, Item::Max(0), Some(255)),
    (0b11111, Item::Min(1), Some(-10)),
    (0b11111, Item::Max(1), Some(10)),
    // a = 7
    (0b01100, Item::CountAll, Some(2)),
    (0b01100, Item::Count(1), Some(0)),
    (0b01100, Item::Sum(0), Some(14)),
    (0b01100, Item::Sum(1), None),
    (0b01100, Item::Min(1), None),
    (0b01100, Item::Max(1), None),
    // b IS NULL OR b = 0
    (0b11100, Item::Min(1), Some(0)),
    // b IS NULL OR b = -10
    (0b01101, Item::Max(1), Some(-10)),
    // nothing
    (0, Item::CountAll, Some(0)),
    (0, Item::Count(0), Some(0)),
    (0, Item::Sum(0), None),
    (0, Item::Min(0), None),
    (0, Item::Max(0), None),
];

/// One more row after them or before them isn't selected.
#[test]
fn common_table_is_totalled(rt: HostRuntime) -> Result<(), Fail> {
    let other = [[Some(9), Some(9)]];
    let none = (other.as_slice(), lanes(0));
    for (word, item, expected) in COMMON_TOTALS {
        let selected = (TABLE.as_slice(), lanes(word));
        assert_total(&rt, SCHEMA, item, [selected, none], expected)?;
        assert_total(&rt, SCHEMA, item, [none, selected], expected)?;
    }
    Ok(())
}

#[test]
fn whole_segments_are_totalled(rt: HostRuntime) -> Result<(), Fail> {
    let mut first = [[Some(3), Some(-1)]; 512];
    first[511] = [Some(200), None];
    let mut second = [[Some(2), None]; 512];
    second[64] = [Some(1), Some(-7)];
    let groups = [
        (first.as_slice(), mask(512)),
        (second.as_slice(), mask(512)),
    ];
    for (item, expected) in [
        (Item::CountAll, Some(1024)),
        (Item::Count(1), Some(512)),
        (Item::Sum(0), Some(511 * 3 + 200 + 511 * 2 + 1)),
        (Item::Sum(1), Some(-511 - 7)),
        (Item::Min(0), Some(1)),
        (Item::Max(0), Some(200)),
        (Item::Min(1), Some(-7)),
        (Item::Max(1), Some(-1)),
    ] {
        assert_total(&rt, SCHEMA, item, groups, expected)?;
    }
    Ok(())
}

#[test]
fn few_rows_are_compared_with_earlier_ones(rt: HostRuntime) -> Result<(), Fail> {
    // the value of the earlier row and of the later one, which are selected beside others: far from
    // each other, with the same highest digits, and equal
    for (earlier, later) in [
        (3, 200),
        (200, 3),
        (100, 101),
        (101, 100),
        (64, 127),
        (127, 64),
        (0, 255),
        (255, 0),
        (7, 7),
    ] {
        let first = [
            [Some(0), None],
            [Some(earlier), Some(-1)],
            [Some(255), None],
        ];
        let second = [[Some(later), Some(1)], [Some(255), None], [Some(0), None]];
        let groups = [
            (first.as_slice(), lanes(0b010)),
            (second.as_slice(), lanes(0b001)),
        ];
        for (item, expected) in [
            (Item::Min(0), earlier.min(later)),
            (Item::Max(0), earlier.max(later)),
            (Item::Min(1), -1),
            (Item::Max(1), 1),
        ] {
            let expected = Some(i128::from(expected));
            assert_total(&rt, SCHEMA, item, groups, expected)?;
        }
    }
    Ok(())
}

/// A table with the widest codes, and a column of negative numbers alone.
const WIDE: &[u8] = b"TABLE g\nCOLUMN x 0 9223372036854775807\nCOLUMN y -9223372036854775807 -1\n";

#[test]
fn widest_codes_are_totalled(rt: HostRuntime) -> Result<(), Fail> {
    let greatest = 9223372036854775807;
    let table = [
        [Some(greatest), Some(-greatest)],
        [Some(greatest), Some(-1)],
        [None, Some(-greatest)],
    ];
    let other = [[None, None]];
    let groups = [(table.as_slice(), mask(3)), (other.as_slice(), mask(1))];
    for (item, expected) in [
        (Item::Count(0), Some(2)),
        (Item::Sum(0), Some(18446744073709551614)),
        (Item::Min(0), Some(9223372036854775807)),
        (Item::Max(0), Some(9223372036854775807)),
        (Item::Sum(1), Some(-18446744073709551615)),
        (Item::Min(1), Some(-9223372036854775807)),
        (Item::Max(1), Some(-1)),
    ] {
        assert_total(&rt, WIDE, item, groups, expected)?;
    }
    Ok(())
}

/// A table with codes of four bytes and of one.
const FOUR: &[u8] = b"TABLE f\nCOLUMN a 0 4294967295\nCOLUMN b 0 9 NOT NULL\n";

#[test]
fn least_and_greatest_are_found_among_ties(rt: HostRuntime) -> Result<(), Fail> {
    // rows that agree in their first bytes, twice the same ones, and rows with a greater byte
    // further down
    let table = [
        [Some(0x0102_FFFF), Some(1)],
        [Some(0x0102_0304), Some(1)],
        [None, Some(9)],
        [Some(0x0102_0304), Some(1)],
        [Some(0xFE00_0001), Some(1)],
        [Some(0xFEFF_0000), Some(1)],
        [Some(0xFE00_FFFF), Some(1)],
        [Some(0xFEFF_0000), Some(0)],
    ];
    let other = [[None, Some(9)]];
    for (word, item, expected) in [
        (0b1111_1111, Item::Min(0), Some(0x0102_0304)),
        (0b1111_1111, Item::Max(0), Some(0xFEFF_0000)),
        (0b0111_0000, Item::Min(0), Some(0xFE00_0001)),
        (0b0000_1111, Item::Max(0), Some(0x0102_FFFF)),
        (0b0101_0000, Item::Max(0), Some(0xFE00_FFFF)),
        (0b0000_0010, Item::Min(0), Some(0x0102_0304)),
        (0b0000_0010, Item::Max(0), Some(0x0102_0304)),
        (0b0000_0010, Item::Sum(0), Some(0x0102_0304)),
        (0b0000_1010, Item::Sum(0), Some(0x0204_0608)),
        (0b0000_0100, Item::Min(0), None),
        (0b0000_0100, Item::Max(0), None),
        (0b0000_0100, Item::Sum(0), None),
        (0b0111_1011, Item::Min(1), Some(1)),
        (0b0111_1011, Item::Max(1), Some(1)),
        (0, Item::Max(1), None),
    ] {
        let groups = [
            (table.as_slice(), lanes(word)),
            (other.as_slice(), lanes(0)),
        ];
        assert_total(&rt, FOUR, item, groups, expected)?;
    }
    Ok(())
}

/// Returns the next pseudo-random number.
fn next_number(state: &mut u64) -> u64 {
    *state = state
        .wrapping_mul(6364136223846793005)
        .wrapping_add(1442695040888963407);
    *state >> 32
}

/// Returns a pseudo-random word.
fn next_word(state: &mut u64) -> u64 {
    next_number(state) << 32 | next_number(state)
}

/// Returns a value, or null about once in eight.
fn or_null(state: &mut u64, value: i64) -> Value {
    if next_number(state) % 8 == 0 {
        None
    } else {
        Some(value)
    }
}

/// Returns an aggregate of a column over the rows whose lane is 1, row by row.
fn row_by_row(item: &Item, table: &[[Value; 2]], plane: &Plane) -> Option<i128> {
    let mut sum: Option<i128> = None;
    for (row, values) in table.iter().enumerate() {
        let (Item::Sum(col) | Item::Min(col) | Item::Max(col)) = *item else {
            return None;
        };
        if col > 1 || row >= 512 || !lane(plane, row) {
            continue;
        }
        let Some(value) = values[col] else {
            continue;
        };
        let value = i128::from(value);
        sum = match (sum, item) {
            (None, _) => Some(value),
            (Some(so_far), Item::Min(_)) => Some(so_far.min(value)),
            (Some(so_far), Item::Max(_)) => Some(so_far.max(value)),
            (Some(so_far), _) => Some(so_far.wrapping_add(value)),
        };
    }
    sum
}

#[test]
fn drawn_rows_are_totalled_as_row_by_row(rt: HostRuntime) -> Result<(), Fail> {
    let mut state = 7;
    let mut table = [[None; 2]; 512];
    for row in 0..512usize {
        let x = i64::try_from(next_word(&mut state) >> 1).unwrap_or(0);
        let y = !i64::try_from(next_number(&mut state) >> 16).unwrap_or(0);
        table[row] = [or_null(&mut state, x), or_null(&mut state, y)];
    }
    let mut half = mask(0);
    for word in 0..8usize {
        half[word] = next_word(&mut state);
    }
    let other = [[None, None]];
    for plane in [mask(512), half, lanes(1), mask(65), mask(0)] {
        let groups = [(table.as_slice(), plane), (other.as_slice(), mask(1))];
        for item in [
            Item::Sum(0),
            Item::Min(0),
            Item::Max(0),
            Item::Sum(1),
            Item::Min(1),
            Item::Max(1),
        ] {
            let expected = row_by_row(&item, &table, &plane);
            assert_total(&rt, WIDE, item, groups, expected)?;
        }
    }
    Ok(())
}
