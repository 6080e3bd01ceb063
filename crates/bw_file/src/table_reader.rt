//! A table file read one segment at a time.
ghost use Rattle.std.specs.Prelude.{◌≡◌, ◌+◌, ◌-◌, ◌*◌, ◌^◌, ◌<◌, ◌≤◌, ℕ, [], None, IfOk, IfErr};
ghost use Rattle.bw_model.specs.declared.fault.Fault.{Fault};
ghost use Rattle.bw_model.specs.Limits.{most_rows};
ghost use Rattle.bw_file.specs.Blocks.{IsPlaced};
ghost use Rattle.bw_file.specs.TableReading.{IsTableFault};
ghost use Rattle.bw_file.specs.declared.phase.Phase.TheVariants.{Reading, Failed};

use crate::body::{read_end, read_segment};
use crate::header::{Header, read_header};
use crate::layout::Layout;
use crate::order::FileOrder;
use crate::phase::Phase;
use crate::segments::{AnySegment, placement_of, segment_size};
use bw_io::Source;
use bw_lanes::LANES;
use bw_model::{Fault, Schema};
use bw_segment::{Placement, Segment};
use std::alloc::Global;
use std::rc::Rc;

/// Reads a table file from a source, one segment at a time. It stores the header, how many bytes it
/// has read and how many rows it has returned, and the result that it repeats once it is done: that
/// nothing follows, or an error. It doesn't own the source.
#[derive(Drop)]
pub struct TableReader {
    alloc: Global,
    placement: Rc<Placement>,
    version: u8,
    layout: Layout,
    rows: u32,
    given: u32,
    offset: u64,
    phase: Phase,
    ghost placed: { IsPlaced layout placement.value },
    ghost within: { given ≤ rows },
    ghost within_limit: { rows ≤ most_rows },
    ghost not_reader: { (fault : Fault) → phase ≡ Failed fault → IsTableFault fault },
    ghost capacity: { phase ≡ Reading → offset + 2 ^ 19 * (rows - given) < 2 ^ 50 },
}

impl TableReader {
    ghost use Rattle.bw_file.specs.Blocks.{segment_size};
    ghost use Rattle.bw_file.specs.Reading.{Fails, GoesOn, give, state_at};
    ghost use Rattle.bw_file.specs.TableReading.{header};
    ghost use Rattle.bw_file.specs.TableReader.{schema_in, version_in, layout_in, header_stated};
    ghost use Rattle.bw_file.specs.TableReader.{rows_stated, rows_given, bytes_taken, final_result};
    ghost use Rattle.bw_file.specs.TableReader.{ReadProgress, AnswersFault, GivesNext};

    /// Reads the header of a table file, and no byte after it. The source's count of failures must
    /// be less than 2^64 - 1.
    ///
    /// Errors: 301 to 304 and 310, each at the first byte of its field; 305 at the end of a file
    /// that ends before; 701 if a read fails; 801 if memory is refused.
    pub fn begin<S: Source>(alloc: Global, source: &mut S) -> Result<Self, Fault>
        requires { (S.state source.old).failures < 2 ^ 64 - 1 }
        ensures began { IfOk result (λ reader. ReadProgress (state_at (S.state source.old) 0)
            (state_at (S.state source.new) (bytes_taken reader)) reader []) }
        ensures stated { IfOk result (λ reader. GoesOn header (state_at (S.state source.old) 0)
            (give (header_stated (version_in reader) reader))
            (state_at (S.state source.new) (bytes_taken reader))) }
        ensures short { IfOk result (λ reader. bytes_taken reader ≤ 20000) }
        ensures fresh { IfOk result (λ reader. (rows_given reader ≡ 0)
            × (final_result reader ≡ None)) }
        ensures head { IfErr result (λ fault. (offset : ℕ)
            × Fails header (state_at (S.state source.old) 0)
            (state_at (S.state source.new) offset) fault) }
        ensures refused { IfErr result (λ fault. (offset : ℕ)
            × AnswersFault (state_at (S.state source.old) 0) (state_at (S.state source.old) 0)
            (state_at (S.state source.new) offset) fault) }
        ensures fault { IfErr result IsTableFault }
    {
        let mut offset = 0;
        let Header {
            version,
            layout,
            rows,
            schema,
        } = read_header(alloc, FileOrder::ByRows, source, &mut offset)?;
        let placement = Rc::new(alloc, placement_of(alloc, layout, &schema)?)?;
        Ok(TableReader {
            alloc,
            placement,
            version,
            layout,
            rows,
            given: 0,
            offset,
            phase: Phase::Reading,
        })
    }

    /// Returns the next segment, in the file's layout: 512 rows, or fewer in the last one. Returns
    /// None after the last segment, if the source has ended.
    ///
    /// Reads block by block, and validates each before it reads the next. It never reads a byte
    /// that the result doesn't depend on.
    ///
    /// Errors: 308 at the first byte with a bit of a padding row; 307 and 306 at the block's first
    /// byte; 305 at the end of a file that ends before; 309 at a byte after the last block; 701 if
    /// a read fails; 801 if memory is refused. After None or an error, each call returns the same
    /// again and reads nothing.
    pub fn next_segment<S: Source>(&mut self, source: &mut S) -> Result<Option<AnySegment>, Fault>
        requires { (S.state source.old).failures < 2 ^ 64 - 1 }
        ensures { GivesNext source.old source.new
            (state_at (S.state source.old) (bytes_taken self.old))
            (state_at (S.state source.new) (bytes_taken self.new)) self.old self.new result }
    {
        match self.phase {
            Phase::Ended => Ok(None),
            Phase::Failed(fault) => Err(fault),
            Phase::Reading if self.given == self.rows => self.see_end(source),
            Phase::Reading => self.give_segment(source),
        }
    }

    /// Checks that the source has ended.
    fn see_end<S: Source>(&mut self, source: &mut S) -> Result<Option<AnySegment>, Fault>
        requires counter_fits { (S.state source.old).failures < 2 ^ 64 - 1 }
        requires open { self.old.phase ≡ Reading }
        requires all { self.old.given ≡ self.old.rows }
        ensures { GivesNext source.old source.new
            (state_at (S.state source.old) (bytes_taken self.old))
            (state_at (S.state source.new) (bytes_taken self.new)) self.old self.new result }
    {
        let mut offset = self.offset;
        let answer = read_end(source, &mut offset);
        self.offset = offset;
        match answer {
            Ok(()) => {
                self.phase = Phase::Ended;
                Ok(None)
            }
            Err(fault) => {
                self.phase = Phase::Failed(fault);
                Err(fault)
            }
        }
    }

    /// Reads a segment of the remaining rows.
    fn give_segment<S: Source>(&mut self, source: &mut S) -> Result<Option<AnySegment>, Fault>
        requires counter_fits { (S.state source.old).failures < 2 ^ 64 - 1 }
        requires open { self.old.phase ≡ Reading }
        requires left { self.old.given < self.old.rows }
        ensures { GivesNext source.old source.new
            (state_at (S.state source.old) (bytes_taken self.old))
            (state_at (S.state source.new) (bytes_taken self.new)) self.old self.new result }
    {
        let rows = (self.rows - self.given).min(LANES as u32);
        let mut offset = self.offset;
        let answer = read_segment(
            self.alloc,
            source,
            &mut offset,
            self.layout,
            &self.placement,
            rows,
        );
        self.offset = offset;
        match answer {
            Ok(segment) => {
                self.given += rows;
                Ok(Some(segment))
            }
            Err(fault) => {
                self.phase = Phase::Failed(fault);
                Err(fault)
            }
        }
    }

    /// Returns the table's schema.
    pub fn schema(&self) -> &Schema
        ensures { result.now ≡ schema_in self.now }
    {
        &self.placement.schema
    }

    /// Returns the number of rows that the header states.
    pub fn rows(&self) -> u32
        ensures { result ≡ rows_stated self.now }
    {
        self.rows
    }

    /// Returns the version of the file, 1 or 2.
    pub fn version(&self) -> u8
        ensures { result ≡ version_in self.now }
    {
        self.version
    }

    /// Returns the layout of the file's segments.
    pub fn layout(&self) -> Layout
        ensures { result ≡ layout_in self.now }
    {
        self.layout
    }

    /// Returns how many bytes a segment has.
    pub fn segment_size(&self) -> usize
        ensures size { result ≡ segment_size (layout_in self.now)
            (schema_in self.now).columns.items }
        ensures small { result ≤ 266240 }
    {
        segment_size(self.layout, &self.placement)
    }

    /// Returns how many bytes have been read.
    pub fn offset(&self) -> u64
        ensures { result ≡ bytes_taken self.now }
    {
        self.offset
    }

    /// Returns how many rows have been returned.
    pub fn given(&self) -> u32
        ensures { result ≡ rows_given self.now }
    {
        self.given
    }
}
