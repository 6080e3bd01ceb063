//! Statistics of columns, updated row by row.
ghost use Rattle.std.specs.Prelude.{◌≡◌, length};
ghost use Rattle.bw_csv_calls.specs.ColumnStats.{greater, lesser, with_value, with_values};

use bw_model::Value;

/// The minimum and the maximum of a column so far, and whether it had a null.
#[derive(Clone, Copy)]
pub(crate) struct ColumnStats {
    pub(crate) least: Option<i64>,
    pub(crate) greatest: Option<i64>,
    pub(crate) has_null: bool,
}

/// Adds one value to each column.
pub(crate) fn take_values(columns: &mut Vec<ColumnStats>, values: &[Value])
    requires { length columns.old.items ≡ length values.now }
    ensures { columns.new.items ≡ with_values columns.old.items values.now }
{
    for i in 0..columns.len() {
        columns[i] = with_value(columns[i], values[i]);
    }
}

/// Returns the statistics with one value more.
fn with_value(seen: ColumnStats, value: Value) -> ColumnStats
    ensures { result ≡ with_value seen value }
{
    match value {
        None => ColumnStats {
            least: seen.least,
            greatest: seen.greatest,
            has_null: true,
        },
        Some(n) => ColumnStats {
            least: Some(lesser(seen.least, n)),
            greatest: Some(greater(seen.greatest, n)),
            has_null: seen.has_null,
        },
    }
}

fn lesser(least: Option<i64>, n: i64) -> i64
    ensures { result ≡ lesser least n }
{
    match least {
        None => n,
        Some(m) => m.min(n),
    }
}

fn greater(greatest: Option<i64>, n: i64) -> i64
    ensures { result ≡ greater greatest n }
{
    match greatest {
        None => n,
        Some(m) => m.max(n),
    }
}
