//! The segment of a worked table in each layout: its bytes, and what is read of them.
use crate::segments::{SCHEMA, TABLE, count_below_and_at, ones, rows_of, segment_of};
use bw_model::Schema;
use bw_planes::Planes;
use bw_segment::{
    CodeLayout, PackedSegment, Placement, Segment, columns_of, is_group, values_in_lanes,
};
use bw_slices::Slices;
use std::process::Abort;
use std::test::Fail;

/// Returns the segment of the worked table.
fn worked_segment<L: CodeLayout>(
    rt: &(impl Abort + AllocGlobal),
) -> Result<PackedSegment<L>, Fail> {
    let schema = Schema::parse(rt.alloc(), SCHEMA)?;
    segment_of(rt, &schema, &TABLE)
}

/// Places of bytes, and the bytes there.
type Places<'a> = &'a [(usize, u8)];

/// Puts bytes in their places.
fn put(rt: &impl Abort, bytes: &mut Vec<u8>, places: Places) {
    for (at, byte) in places {
        assert!(rt; *at < bytes.len());
        bytes[*at] = *byte;
    }
}

/// The bytes of the planes that aren't 0: the first one of each plane but the last.
const PLANES: [(usize, u8); 13] = [
    (0, 0x02),
    (64, 0x02),
    (128, 0x02),
    (192, 0x02),
    (256, 0x12),
    (320, 0x0E),
    (384, 0x0E),
    (448, 0x0E),
    (512, 0x0C),
    (576, 0x02),
    (640, 0x10),
    (704, 0x02),
    (768, 0x10),
];

/// The bytes of the slices that aren't 0: four codes of a, and of b its nulls and two codes.
const SLICES: [(usize, u8); 7] = [
    (1, 0xFF),
    (2, 0x07),
    (3, 0x07),
    (4, 0x08),
    (512, 0x0C),
    (577, 0x14),
    (580, 0x0A),
];

/// Ends the test unless the segment has this many bytes, of which only these aren't 0.
fn assert_bytes<L: CodeLayout>(
    rt: &(impl Abort + AllocGlobal),
    len: usize,
    nonzero: Places,
) -> Result<(), Fail> {
    let mut bytes = Vec::new(rt.alloc());
    bytes.resize(len, 0)?;
    put(rt, &mut bytes, nonzero);
    assert_eq!(rt; worked_segment::<L>(rt)?.bytes(), bytes.as_slice());
    Ok(())
}

#[test]
fn bytes_stand_in_order(rt: HostRuntime) -> Result<(), Fail> {
    assert_bytes::<Planes>(&rt, 64 * 14, &PLANES)?;
    assert_bytes::<Slices>(&rt, 512 + 64 + 512, &SLICES)
}

/// Ends the test unless the segment answers as the table does.
fn assert_answers<L: CodeLayout>(rt: &(impl Abort + AllocGlobal)) -> Result<(), Fail> {
    let segment = worked_segment::<L>(rt)?;
    assert_eq!(rt; segment.rows_in(), 5);
    assert_eq!(rt; segment.schema().columns.len(), 2);
    assert_eq!(rt; segment.value(0, 4), Some(8));
    assert_eq!(rt; segment.value(1, 0), Some(-10));
    assert_eq!(rt; segment.value(1, 3), None);
    let mut values = [Some(0); 512];
    values_in_lanes(&segment, 1, &mut values);
    assert_eq!(rt; values[0], Some(-10));
    assert_eq!(rt; values[3], None);
    assert_eq!(rt; values[5], None);
    values_in_lanes(&segment, 0, &mut values);
    assert_eq!(rt; values[4], Some(8));
    assert_eq!(rt; values[511], None);
    assert_eq!(rt; ones(&segment, 8), Some(2));
    assert_eq!(rt; count_below_and_at(&segment, 0, 0, 8), Some((510, 1)));
    assert_eq!(rt; count_below_and_at(&segment, 0, 0, 7), Some((508, 2)));
    assert_eq!(rt; count_below_and_at(&segment, 1, 0, 200), Some((512, 0)));
    Ok(())
}

#[test]
fn segments_answer(rt: HostRuntime) -> Result<(), Fail> {
    assert_answers::<Planes>(&rt)?;
    assert_answers::<Slices>(&rt)
}

/// A column, bytes that are replaced in its block, and the error that is found then.
type Change<'a> = (usize, Places<'a>, Option<u16>);

const CHANGED_PLANES: [Change<'static>; 9] = [
    (0, &[(0, 0x02)], None),
    (0, &[(0, 0x22)], Some(308)),
    (1, &[(0, 0x0C), (64, 0x02)], None),
    (1, &[(64, 0x06)], Some(307)),
    (1, &[(320, 0x02)], Some(306)),
    (1, &[(64, 0x06), (128, 0x14)], Some(307)),
    (1, &[(64, 0x07), (128, 0x15)], Some(306)),
    (1, &[(0, 0x2C)], Some(308)),
    (1, &[(320, 0x02), (383, 0x80)], Some(308)),
];

const CHANGED_SLICES: [Change<'static>; 10] = [
    (0, &[(0, 0x00), (1, 0xFF)], None),
    (0, &[(5, 0x01)], Some(308)),
    (1, &[(0, 0x0C), (64, 0x00)], None),
    (1, &[(66, 0x01)], Some(307)),
    (1, &[(65, 0x15)], Some(306)),
    (1, &[(64, 0x20)], Some(306)),
    (1, &[(66, 0xFF)], Some(307)),
    (1, &[(64, 0x15), (66, 0xFF)], Some(306)),
    (1, &[(0, 0x2C)], Some(308)),
    (1, &[(65, 0x15), (575, 0x80)], Some(308)),
];

/// Ends the test unless the changed blocks have these errors.
fn assert_faults<L: CodeLayout>(
    rt: &(impl Abort + AllocGlobal),
    changes: &[Change],
) -> Result<(), Fail> {
    let segment = worked_segment::<L>(rt)?;
    let placement: &Placement = &segment.placement;
    let bytes = segment.bytes();
    assert_eq!(rt; PackedSegment::<L>::segment_size(placement), bytes.len());
    for (col, places, fault) in changes {
        assert!(rt; *col < placement.schema.columns.len());
        let size = PackedSegment::<L>::block_size(placement, *col);
        // in both layouts the block of a has 512 bytes
        let start = if *col == 0 { 0 } else { 512 };
        assert!(rt; start + size <= bytes.len());
        let mut block = Vec::from_slice(rt.alloc(), &bytes[start..start + size])?;
        put(rt, &mut block, places);
        assert_eq!(rt; block.len(), size);
        assert_eq!(rt;
            PackedSegment::<L>::find_fault(placement, *col, segment.rows_in(), &block),
            *fault,
            "column {col}, {places:?}"
        );
    }
    Ok(())
}

#[test]
fn blocks_are_checked(rt: HostRuntime) -> Result<(), Fail> {
    assert_faults::<Planes>(&rt, &CHANGED_PLANES)?;
    assert_faults::<Slices>(&rt, &CHANGED_SLICES)
}

/// Ends the test unless the appended bytes are those of the segment.
fn assert_appended<L: CodeLayout>(rt: &(impl Abort + AllocGlobal)) -> Result<(), Fail> {
    let alloc = rt.alloc();
    let segment = worked_segment::<L>(rt)?;
    let rows = rows_of(alloc, &TABLE)?;
    let placement = Placement::of::<L>(alloc, segment.schema())?;
    assert!(rt; is_group(&placement.schema, &rows));
    let kept = columns_of(alloc, &placement.schema, &rows)?;
    let mut bytes = vec![in alloc; 7]?;
    PackedSegment::<L>::append(alloc, &mut bytes, &placement, &kept)?;
    assert_eq!(rt; &bytes[1..], segment.bytes());
    Ok(())
}

#[test]
fn segments_are_appended(rt: HostRuntime) -> Result<(), Fail> {
    assert_appended::<Planes>(&rt)?;
    assert_appended::<Slices>(&rt)
}
