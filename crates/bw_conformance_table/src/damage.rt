//! Damaged table files.
use crate::files::{again, planes_file, put, slices_file, wide_file, worked_files};
use crate::read_ahead::assert_ahead;
use bw_file::{Layout, TableReader, decode};
use bw_io::Source;
use bw_model::{Fault, Place};
use std::alloc::Global;
use std::process::Abort;
use std::test::Fail;

#[test]
fn each_front_of_a_file_is_truncated(rt: HostRuntime) -> Result<(), Fail> {
    let alloc = rt.alloc();
    for (number, file) in worked_files(&rt)?.iter().enumerate() {
        for len in 0..file.len() {
            let front = &file[..len];
            let fault = Some(Fault::at_byte(305, len as u64));
            let found = decode(alloc, front).err();
            assert_eq!(rt; found, fault, "file {number}, length {len}");
            assert_ahead(&rt, alloc, front, len, fault);
        }
    }
    Ok(())
}

/// Changes a bit of a byte, if there is one.
pub(crate) fn flip(bytes: &mut Vec<u8>, at: usize, bit: u32) {
    if at < bytes.len() && bit < 8 {
        bytes[at] ^= 1 << bit;
    }
}

/// Returns whether a file is that of the table it is read as; any other file is rejected at a place
/// in it.
fn is_a_table(rt: &impl Abort, alloc: Global, file: &[u8]) -> Result<bool, Fail> {
    match decode(alloc, file) {
        Ok(table) => {
            assert!(rt; again(rt, alloc, &table)?.as_slice() == file);
            Ok(true)
        }
        Err(fault) => {
            assert!(rt; 301 <= fault.code && fault.code <= 310, "{fault:?}");
            assert_ne!(rt; fault.place, Place::Nowhere);
            Ok(false)
        }
    }
}

/// Checks that each change of one bit is rejected, or makes the file of another table; some do.
fn check_bits(rt: &impl Abort, alloc: Global, mut file: Vec<u8>) -> Result<(), Fail> {
    let mut accepted = 0u32;
    for at in 0..file.len() {
        for bit in 0..8u32 {
            flip(&mut file, at, bit);
            if is_a_table(rt, alloc, &file)? {
                accepted = accepted.saturating_add(1);
            }
            flip(&mut file, at, bit);
        }
    }
    assert!(rt; accepted > 0);
    Ok(())
}

#[test]
fn each_bit_is_reported(rt: HostRuntime) -> Result<(), Fail> {
    check_bits(&rt, rt.alloc(), planes_file(rt.alloc())?)?;
    check_bits(&rt, rt.alloc(), slices_file(rt.alloc())?)
}

#[test]
fn each_bit_of_a_wide_column_is_reported(rt: HostRuntime) -> Result<(), Fail> {
    for layout in [Layout::Planes, Layout::Slices] {
        check_bits(&rt, rt.alloc(), wide_file(&rt, layout)?)?;
    }
    Ok(())
}

#[test]
fn a_fault_is_repeated(rt: HostRuntime) -> Result<(), Fail> {
    let alloc = rt.alloc();
    let mut file = planes_file(alloc)?;
    put(&mut file, 56, 0x22);
    let mut source = bw_io::FromRead::new(file.as_slice());
    let mut reader = TableReader::begin(alloc, &mut source)?;
    assert_eq!(rt; reader.offset(), 56);
    for _ in 0..3 {
        assert_eq!(rt; source.failures(), 0);
        assert_eq!(rt;
            reader.next_segment(&mut source).err(),
            Some(Fault::at_byte(308, 56))
        );
        assert_eq!(rt; reader.offset(), 568);
        assert_eq!(rt; reader.given(), 0);
    }
    Ok(())
}
