//! The records of selected rows.
ghost use Rattle.std.specs.Prelude.{◌≡◌, ◌-◌, ◌*◌, ◌<◌, ◌≤◌, ◌++◌, All, OnOk, drop, length};
ghost use Rattle.std.specs.Prelude.{map, IsOkUnless};
ghost use Rattle.bw_lanes.specs.Lanes.{lanes_of_words};
ghost use Rattle.bw_model.specs.Fault.{no_memory};
ghost use Rattle.bw_model.specs.Selection.{positions_of};
ghost use Rattle.bw_answer.specs.Answer.{csv_text};
ghost use Rattle.bw_answer.specs.LaneFields.{fields_in_lane, positions_between};

use crate::record::put_record;
use bw_lanes::{LANES, Selection, last_between};
use bw_model::Fault;
use bw_rowwise::Columns;

/// Adds the records of the selected rows to a text. They are written into a draft first, `rows`
/// rows at a time, for which it must have space.
pub(crate) fn push_records(
    text: &mut Vec<u8>,
    draft: &mut [u8],
    lanes: &Columns,
    columns: &[usize],
    selection: &Selection,
    rows: usize,
) -> Result<(), Fault>
    requires nonempty { 1 ≤ length columns.now }
    requires columns { All (λ column. column < length lanes.now.columns.items) columns.now }
    requires rows { (1 ≤ rows) × (rows ≤ 512) }
    requires capacity { 21 * length columns.now * rows ≤ length draft.old }
    ensures records { OnOk result (text.new.items ≡ text.old.items
        ++ csv_text (map (fields_in_lane lanes.now columns.now)
        (positions_of (lanes_of_words selection.now)))) }
    ensures only_oom { IsOkUnless result no_memory }
{
    let mut first = 0;
    while first < LANES {
        let past = (first + rows).min(LANES);
        let start = put_records(draft, lanes, columns, selection, first, past);
        text.extend_from_slice(&draft[start..])?;
        first = past;
    }
    Ok(())
}

/// Writes the records of the selected rows from `first` up to `past`, so that they end with the
/// draft. Returns where they start.
fn put_records(
    draft: &mut [u8],
    lanes: &Columns,
    columns: &[usize],
    selection: &Selection,
    first: usize,
    past: usize,
) -> usize
    requires nonempty { 1 ≤ length columns.now }
    requires columns { All (λ column. column < length lanes.now.columns.items) columns.now }
    requires rows { (first ≤ past) × (past ≤ 512) }
    requires capacity { 21 * length columns.now * (past - first) ≤ length draft.old }
    ensures within { result ≤ length draft.new }
    ensures written { drop result draft.new ≡ csv_text (map (fields_in_lane lanes.now columns.now)
        (positions_between first past (lanes_of_words selection.now))) }
{
    let mut start = draft.len();
    let mut number = past;
    while let Some(last) = last_between(selection, first, number) {
        start = put_record(draft, start, lanes, columns, last);
        number = last;
    }
    start
}
