//! Tables as files by columns.
ghost use Rattle.std.specs.Prelude.{◌≡◌, ◌+◌, ◌*◌, ◌<◌, ◌≤◌, ◌/◌, ◌^◌, ◌++◌, List, length};
ghost use Rattle.std.specs.Prelude.{IfOk, OnOk, IsOkUnless};
ghost use Rattle.std.specs.List.{flat_map, range_with_len};
ghost use Rattle.bw_model.specs.Fault.{no_memory};
ghost use Rattle.bw_model.specs.Limits.{most_rows};
ghost use Rattle.bw_model.specs.Row.{Value};
ghost use Rattle.bw_file.specs.Blocks.{IsPlaced, block_size, segment_size};
ghost use Rattle.bw_file.specs.Columnar.{columnar_bytes, piece_from};
ghost use Rattle.bw_file.specs.FileBytes.{AreRows, file_bytes};

use crate::encoder::{push_header, set_row_count};
use crate::layout::Layout;
use crate::order::FileOrder;
use crate::segments::{block_size, segment_size};
use bw_model::Fault;
use bw_segment::Placement;
use std::alloc::Global;

/// Returns the file by columns of the table whose table file these bytes are, with this many rows.
/// Errors: 801 if memory is refused.
pub(crate) fn by_columns(
    alloc: Global,
    layout: Layout,
    placement: &Placement,
    rows: u32,
    bytes: &[u8],
) -> Result<Vec<u8>, Fault>
    requires placed { IsPlaced layout placement.now }
    requires within_limit { rows ≤ most_rows }
    ensures columnar { IfOk result (λ file. (table : List (List Value)) → rows ≡ length table
        → AreRows placement.now.schema.columns.items table
        → bytes.now ≡ file_bytes layout placement.now.schema table
        → file.items ≡ columnar_bytes layout placement.now.schema table) }
    ensures only_oom { IsOkUnless result no_memory }
{
    let mut file = Vec::with_capacity(alloc, bytes.len())?;
    push_header(
        &mut file,
        FileOrder::ByColumns,
        2,
        layout,
        &placement.schema,
    )?;
    set_row_count(&mut file, rows);
    let mut at = file.len();
    for col in 0..placement.schema.columns.len() {
        let count = block_size(layout, placement, col);
        push_pieces(
            &mut file,
            bytes,
            at,
            segment_size(layout, placement),
            count,
            (rows + 511) / 512,
        )?;
        at += count;
    }
    Ok(file)
}

/// Adds the first `count` bytes of each of so many pieces of `size` bytes, the first of which
/// begins at `at`. Errors: 801 if memory is refused.
fn push_pieces(
    file: &mut Vec<u8>,
    bytes: &[u8],
    at: usize,
    size: usize,
    count: usize,
    pieces: u32,
) -> Result<(), Fault>
    requires size { size ≤ 266240 }
    requires count { count ≤ 4160 }
    requires pieces { pieces ≤ 32768 }
    requires capacity { at < 2 ^ 63 + 2 ^ 20 }
    ensures added { OnOk result (file.new.items ≡ file.old.items
        ++ flat_map (piece_from bytes.now at size count) (range_with_len 0 pieces)) }
    ensures only_oom { IsOkUnless result no_memory }
{
    for number in 0..pieces {
        let start = bytes.len().min(at + number as usize * size);
        let end = bytes.len().min(at + number as usize * size + count);
        file.extend_from_slice(&bytes[start..end])?;
    }
    Ok(())
}
