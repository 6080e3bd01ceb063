//! Programs that serve the conditions of many statements.
ghost use Rattle.std.specs.Prelude.{◌≤◌, length};

use crate::file_text::read_file;
use crate::scan::{Scan, certificates_serve_equal_conditions, choose};
use bw_memory::MemoryTable;
use bw_model::{Cond, Fault, Schema};
use std::alloc::Global;

/// The most conditions whose scans are kept.
const MAX_SCANS: usize = 64;

/// A condition, and who finds its rows.
#[derive(Drop)]
pub(crate) struct CachedScan {
    pub(crate) cond: Cond,
    pub(crate) scan: Scan,
}

/// A program file that was rejected: its number, from 0, and its error. If memory ran out, the
/// number means nothing.
#[derive(Clone, Copy)]
pub struct RejectedFile {
    pub number: usize,
    pub fault: Fault,
}

/// Program files, and the scans of the last 64 conditions that were asked for. A program is looked
/// for once, and used again for an equal condition. So is the finding that there is none.
#[derive(Drop)]
pub struct ProgramCache {
    pub(crate) files: Vec<Vec<u8>>,
    pub(crate) kept: Vec<CachedScan>,
    ghost within_limit: { length kept.items ≤ 64 },
}

impl ProgramCache {
    ghost use Rattle.std.specs.Prelude.{All, ◌≡◌, ◌<◌, ◌⊎◌, IfOk, IfErr, IfSome, IsTrue, List};
    ghost use Rattle.std.specs.Prelude.{None, [], IsOkUnless};
    ghost use Rattle.bw_model.specs.declared.column.Column.{Column};
    ghost use Rattle.bw_model.specs.declared.cond.Cond.{Cond};
    ghost use Rattle.bw_model.specs.Cond.{names_within};
    ghost use Rattle.bw_model.specs.Fault.{no_memory};
    ghost use Rattle.bw_cert.specs.FileVerdict.{is_file_fault};
    ghost use Rattle.bw_memory.specs.MemoryTable.{schema_of};
    ghost use Rattle.bw_query.specs.ProgramChoice.{IsChosenAmong, IsFileRead, texts_of};
    ghost use Rattle.bw_query.specs.ProgramCache.{HasNone, HasScan, IsAdded, IsForEqual};
    ghost use Rattle.bw_query.specs.ProgramCache.{IsRejection, Serves, files_of, with_room};
    ghost use Rattle.bw_query.specs.Scan.{IsFor};

    /// Returns a cache of these program files, which keeps no scan yet.
    ///
    /// Errors, of the first file that is wrong for every condition: 508, more than 67,108,864
    /// bytes; 501 to 507, its program text; 605, its certificate text. 801 at any time, if memory
    /// is refused.
    pub fn new(alloc: Global, schema: &Schema, files: Vec<Vec<u8>>) -> Result<Self, RejectedFile>
        ensures serves { IfOk result (λ programs. (columns : List Column)
            → Serves columns programs) }
        ensures files { IfOk result (λ programs. files_of programs ≡ texts_of files.items) }
        ensures empty { IfOk result (λ programs. programs.kept.items ≡ []) }
        ensures read { IfOk result (λ programs.
            All (IsFileRead schema.now.columns.items) (texts_of files.items)) }
        ensures rejected { IfErr result
            (IsRejection schema.now.columns.items (texts_of files.items)) }
        ensures code { IfErr result (λ rejected. IsTrue (is_file_fault rejected.fault)) }
    {
        for number in 0..files.len() {
            match read_file(alloc, schema, &files[number]) {
                Ok(()) => {}
                Err(fault) => return Err(RejectedFile { number, fault }),
            }
        }
        Ok(ProgramCache {
            files,
            kept: Vec::new(alloc),
        })
    }

    /// Returns the number of conditions whose scans are kept: at most 64.
    pub fn conditions(&self) -> usize
        ensures count { result ≡ length self.now.kept.items }
        ensures within_limit { result ≤ 64 }
    {
        self.kept.len()
    }

    /// Returns the number of the scan for a condition over a table. One that isn't kept is looked
    /// for, and kept as the last one; if 64 are kept, the first one is dropped. Errors: 801 if
    /// memory is refused.
    pub(crate) fn find_or_add(
        &mut self,
        alloc: Global,
        table: &MemoryTable,
        cond: &Cond,
    ) -> Result<usize, Fault>
        requires columns { IsTrue
            (names_within (length (schema_of table.now).columns.items) cond.now) }
        requires serves { Serves (schema_of table.now).columns.items self.old }
        ensures found { IfOk result
            (HasScan (schema_of table.now).columns.items self.new cond.now) }
        ensures kept { IfOk result (λ number.
            ((self.new ≡ self.old) × IsForEqual self.old cond.now number)
            ⊎ IsAdded self.old.kept.items self.new.kept.items cond.now number) }
        ensures serves { Serves (schema_of table.now).columns.items self.new }
        ensures files { files_of self.new ≡ files_of self.old }
        ensures only_oom { IsOkUnless result no_memory }
    {
        certificates_serve_equal_conditions();
        match self.find(cond) {
            Some(number) => Ok(number),
            None => self.add(alloc, table, cond),
        }
    }

    /// Returns the scan of a number.
    pub(crate) fn scan(&self, number: usize) -> &Scan
        requires { number < length self.now.kept.items }
        ensures certified { (columns : List Column) (cond : Cond)
            → HasScan columns self.now cond number → IsFor columns cond result.now }
        ensures chosen { (columns : List Column) (cond : Cond)
            → HasScan columns self.now cond number
            → IsChosenAmong (files_of self.now) columns cond result.now }
    {
        &self.kept[number].scan
    }

    /// Returns the number of the scan that is kept for an equal condition, if one is.
    fn find(&self, cond: &Cond) -> Option<usize>
        ensures some { IfSome result (IsForEqual self.now cond.now) }
        ensures none { result ≡ None → HasNone self.now.kept.items cond.now }
    {
        for number in 0..self.kept.len() {
            if cond.is_same(&self.kept[number].cond) {
                return Some(number);
            }
        }
        None
    }

    /// Looks for a scan for a condition, for which none is kept, and keeps it as the last one.
    /// Returns its number. Errors: 801 if memory is refused.
    fn add(&mut self, alloc: Global, table: &MemoryTable, cond: &Cond) -> Result<usize, Fault>
        requires fresh { HasNone self.old.kept.items cond.now }
        requires columns { IsTrue
            (names_within (length (schema_of table.now).columns.items) cond.now) }
        requires serves { Serves (schema_of table.now).columns.items self.old }
        ensures found { IfOk result
            (HasScan (schema_of table.now).columns.items self.new cond.now) }
        ensures kept { IfOk result
            (IsAdded self.old.kept.items self.new.kept.items cond.now) }
        ensures serves { Serves (schema_of table.now).columns.items self.new }
        ensures files { files_of self.new ≡ files_of self.old }
        ensures only_oom { IsOkUnless result no_memory }
    {
        certificates_serve_equal_conditions();
        let scan = choose(alloc, table, cond, &self.files)?;
        let same = cond.copy(alloc)?;
        self.drop_oldest();
        let number = self.kept.len();
        self.kept.push(CachedScan { cond: same, scan })?;
        Ok(number)
    }

    /// Drops the first scan, if 64 are kept.
    fn drop_oldest(&mut self)
        ensures kept { self.new.kept.items ≡ with_room self.old.kept.items }
        ensures capacity { length self.new.kept.items < 64 }
        ensures serves { (columns : List Column) → Serves columns self.old
            → Serves columns self.new }
        ensures files { files_of self.new ≡ files_of self.old }
    {
        if self.kept.len() >= MAX_SCANS {
            let _oldest = self.kept.remove(0);
        }
    }
}
