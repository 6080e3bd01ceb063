//! Worked planes and bytes, and each kernel once.
use bw_lanes::{
    Plane, and, bytes_bit, bytes_eq, bytes_lt, bytes_none, bytes_of_plane, count, count_and,
    greatest_in, is_zero, keep_in, lane, least_in, load, mask, not, or, sum_in, to_bytes, xor,
};

/// Bytes of which byte i is i mod 256.
fn counting_bytes() -> [u8; 512] {
    let mut bytes = [0; 512];
    for i in 0..512usize {
        bytes[i] = (i % 256) as u8;
    }
    bytes
}

#[test]
fn bytes_are_compared(rt: HostRuntime) {
    let bytes = counting_bytes();
    assert_eq!(rt; count(&bytes_lt(&bytes, 0)), 0);
    assert_eq!(rt; count(&bytes_lt(&bytes, 255)), 510);
    assert_eq!(rt; count(&bytes_eq(&bytes, 0)), 2);
    assert_eq!(rt; count(&bytes_bit(&bytes, 7)), 256);
    assert_eq!(rt; bytes_none(&bytes, 1), bytes_eq(&bytes, 0));
}

#[test]
fn masks_are_runs(rt: HostRuntime) {
    assert_eq!(rt; mask(65), [u64::MAX, 1, 0, 0, 0, 0, 0, 0]);
    assert_eq!(rt; mask(0), [0; 8]);
    assert_eq!(rt; count(&mask(512)), 512);
}

#[test]
fn zero_looks_at_each_lane(rt: HostRuntime) {
    let last: Plane = [0, 0, 0, 0, 0, 0, 0, 1 << 63];
    assert!(rt; !is_zero(&last));
    assert!(rt; is_zero(&[0; 8]));
}

/// Words that look alike nowhere.
const MIXED: Plane = [
    0x0123_4567_89AB_CDEF,
    0xFFFF_0000_FFFF_0000,
    0,
    u64::MAX,
    0x8000_0000_0000_0001,
    0xAAAA_AAAA_AAAA_AAAA,
    0x0F0F_0F0F_0F0F_0F0F,
    0x00FF_00FF_00FF_00FF,
];

#[test]
fn planes_are_joined_and_kept(rt: HostRuntime) {
    let first = mask(300);
    let both = and(&MIXED, &first);
    assert_eq!(rt; count(&both), count_and(&MIXED, &first));
    assert_eq!(rt;
        count(&or(&MIXED, &first)) + count(&both),
        count(&MIXED) + 300
    );
    assert_eq!(rt; xor(&or(&MIXED, &first), &both), xor(&MIXED, &first));
    assert_eq!(rt; count(&not(&MIXED)) + count(&MIXED), 512);
    assert_eq!(rt; to_bytes(&MIXED)[0], 0xEF);
    assert!(rt; lane(&MIXED, 256) && !lane(&MIXED, 257) && lane(&MIXED, 319));
    assert_eq!(rt; load(to_bytes(&MIXED).as_slice()), MIXED);
}

#[test]
fn bytes_are_totalled_in_some_rows(rt: HostRuntime) {
    let bytes = counting_bytes();
    let none = bytes_of_plane(&mask(0));
    let first = bytes_of_plane(&mask(100));
    let all = bytes_of_plane(&mask(512));
    assert_eq!(rt; (first[99], first[100]), (255, 0));
    assert_eq!(rt; sum_in(&bytes, &none), 0);
    assert_eq!(rt; sum_in(&bytes, &first), 99 * 100 / 2);
    assert_eq!(rt; sum_in(&bytes, &all), 2 * 255 * 256 / 2);
    assert_eq!(rt; sum_in(&[255; 512], &all), 512 * 255);
    assert_eq!(rt;
        (least_in(&bytes, &none), greatest_in(&bytes, &none)),
        (255, 0)
    );
    assert_eq!(rt;
        (least_in(&bytes, &first), greatest_in(&bytes, &first)),
        (0, 99)
    );
    let mut rows = bytes_of_plane(&not(&mask(300)));
    assert_eq!(rt;
        (least_in(&bytes, &rows), greatest_in(&bytes, &rows)),
        (44, 255)
    );
    keep_in(&mut rows, &bytes, 60);
    assert_eq!(rt; (rows[60], rows[316], rows[317]), (0, 255, 0));
    assert_eq!(rt; sum_in(&bytes, &rows), 60);
}
