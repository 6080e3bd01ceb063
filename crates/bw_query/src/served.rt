//! How a query was served.
ghost use Rattle.std.specs.Prelude.{◌≡◌, ◌+◌, ◌-◌, ◌^◌, ◌<◌};
ghost use Rattle.bw_query.specs.Served.{report_of};

use crate::scan::Scan;
use bw_report::{By, Served};
use bw_run::Counts;

/// The number of segments that were scanned, of loads of planes or bytes, and of skips that were
/// taken.
#[derive(Clone, Copy)]
pub(crate) struct Scanned {
    pub(crate) segments: u32,
    pub(crate) loads: u64,
    pub(crate) skips: u64,
}

/// What was scanned before the first segment.
pub(crate) const NOTHING_SCANNED: Scanned = Scanned {
    segments: 0,
    loads: 0,
    skips: 0,
};

/// How a query over a table was served whose columns are read when they are needed: the scan
/// statistics over the segments that were scanned, and the number of those that weren't, since the
/// ranges of their values settle that the condition is TRUE on none of their rows; or on each, if
/// a program only counts rows.
#[derive(Clone, Copy, Debug, PartialEq, Eq)]
pub struct StoreServed {
    pub served: Served,
    pub settled: u32,
}

/// The text of a result, and what was scanned for it.
#[derive(Drop)]
pub(crate) struct TableText {
    pub(crate) text: Vec<u8>,
    pub(crate) scanned: Scanned,
}

impl Scanned {
    /// Returns what was scanned with one more segment.
    pub(crate) fn plus(self, more: Counts) -> Self
        requires segments { self.segments < 2 ^ 32 - 1 }
        requires loads { self.loads + more.loads < 2 ^ 64 }
        requires skips { self.skips + more.skips < 2 ^ 64 }
        ensures segments { result.segments ≡ self.segments + 1 }
        ensures loads { result.loads ≡ self.loads + more.loads }
        ensures skips { result.skips ≡ self.skips + more.skips }
    {
        Scanned {
            segments: self.segments + 1,
            loads: self.loads + more.loads as u64,
            skips: self.skips + more.skips as u64,
        }
    }
}

/// Returns what is reported of a scan.
pub(crate) fn report_of(scan: &Scan, scanned: Scanned) -> Served
    ensures { result ≡ report_of scan.now scanned }
{
    Served {
        by: match scan {
            Scan::Program(_) => By::Program,
            Scan::Rows => By::Rows,
        },
        segments: scanned.segments,
        loads: scanned.loads,
        skips: scanned.skips,
    }
}
