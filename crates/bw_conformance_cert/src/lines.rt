//! Lines that no call of the program reaches: with maximal numbers, and with the error of which no
//! example is known.
use bw_cert::Accepted;
use bw_io::ToWrite;
use bw_model::{Fault, Place};
use bw_report::{By, Served, accepted_line, report, stats_line};
use std::test::Fail;

#[test]
fn faults_are_reported(rt: HostRuntime) -> Result<(), Fail> {
    for (code, place, line) in [
        (209, Place::Rec(0), "bw: 209 csv fault at record 0\n"),
        (
            406,
            Place::Byte(u64::MAX),
            "bw: 406 columns and aggregates mixed at byte 18446744073709551615\n",
        ),
    ] {
        let mut sink = ToWrite::new(Vec::new(rt.alloc()));
        assert_eq!(rt; report(&Fault { code, place }, &mut sink), 3, "at {code}");
        let text = sink.into_inner();
        assert_eq!(rt; text.as_slice(), line.as_bytes(), "at {code}");
    }
    Ok(())
}

/// An error is shown as its line has it: by its number, its text and its place.
#[test]
fn faults_are_shown_as_reported(rt: HostRuntime) -> Result<(), Fail> {
    let alloc = rt.alloc();
    for code in 100..=802 {
        for place in [
            Place::Nowhere,
            Place::Byte(0),
            Place::Line(12),
            Place::Rec(7),
        ] {
            let fault = Fault { code, place };
            let mut sink = ToWrite::new(Vec::new(alloc));
            report(&fault, &mut sink);
            let text = sink.into_inner();
            let shown = format!(in alloc; "bw: {fault}\n")?;
            assert_eq!(rt; text.as_slice(), shown.as_bytes());
        }
    }
    Ok(())
}

#[test]
fn served_queries_are_reported(rt: HostRuntime) -> Result<(), Fail> {
    let served = Served {
        by: By::Program,
        segments: u32::MAX,
        loads: u64::MAX,
        skips: u64::MAX,
    };
    let line =
        "served program segments 4294967295 loads 18446744073709551615 skips 18446744073709551615\n";
    let mut sink = ToWrite::new(Vec::new(rt.alloc()));
    stats_line(&served, &mut sink)?;
    assert_eq!(rt; sink.into_inner().as_slice(), line.as_bytes());
    Ok(())
}

#[test]
fn accepted_files_are_reported(rt: HostRuntime) -> Result<(), Fail> {
    let most = usize::MAX;
    let table = [
        (
            [0, 0, 0, 0, 1],
            "accepted: 0 instructions, 0 skips, 0 nodes, 0 chains, 1 rows\n",
        ),
        (
            [most, most, most, most, most],
            "accepted: 18446744073709551615 instructions, 18446744073709551615 skips, \
             18446744073709551615 nodes, 18446744073709551615 chains, 18446744073709551615 rows\n",
        ),
    ];
    for ([instructions, skips, nodes, chains, rows], line) in table {
        let accepted = Accepted {
            instructions,
            skips,
            nodes,
            chains,
            rows,
        };
        let mut sink = ToWrite::new(Vec::new(rt.alloc()));
        accepted_line(&accepted, &mut sink)?;
        assert_eq!(rt; sink.into_inner().as_slice(), line.as_bytes());
    }
    Ok(())
}
