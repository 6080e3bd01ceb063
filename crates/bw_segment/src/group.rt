//! The test of a group: 1 to 512 rows that a schema admits.
ghost use Rattle.std.specs.Prelude.{◌≡◌, true, false};
ghost use Rattle.bw_segment.specs.Meaning.{meaning_of, IsGroup};

use bw_lanes::LANES;
use bw_model::{Row, Schema};

/// Returns whether the rows are those of one group: 1 to 512, each of which the schema admits.
pub fn is_group(schema: &Schema, rows: &[Row]) -> bool
    ensures group { result ≡ true → IsGroup (meaning_of schema.now rows.now) }
    ensures none { result ≡ false → ¬ (IsGroup (meaning_of schema.now rows.now)) }
{
    let count = rows.len();
    if count == 0 {
        return false;
    }
    if count > LANES {
        return false;
    }
    for row in rows {
        if !schema.admits(row) {
            return false;
        }
    }
    true
}
