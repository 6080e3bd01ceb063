//! Instructions that compute where a condition is TRUE, and where it is FALSE.
use crate::code::{Code, Made};
use crate::columns::{index_of, is_nullable};
use crate::formula::Formula;
use crate::limits::{MAX_LOOKS, SKIPPED_PARTS};
use crate::registers::Content;
use crate::sets::Set;
use crate::unplanned::Unplanned;
use bw_diagram::{ColumnComparison, TruthPair};
use bw_model::{Junction, Truth};
use bw_program::{ColumnIndex, Instr, Register};

/// Whether the register of where a condition is TRUE is needed, and that of where it is FALSE.
type WantedTruths = TruthPair<bool>;

/// The registers that are 1 where a condition is TRUE, and where it is FALSE, if they are wanted.
type TruthRegisters = TruthPair<Option<Register>>;

/// These registers, unless there is no program or memory was refused.
type MadeTruths = Result<TruthRegisters, Unplanned>;

impl Code<'_> {
    /// Returns the register of where a whole condition is TRUE.
    pub(crate) fn whole(&mut self, part: &Formula) -> Made {
        let made = self.truths(part, TruthPair::of(true, false))?;
        let answer = self.or_none(made.yes)?;
        if self.skips.count == 0 && !matches!(part, Formula::Fixed(Truth::Yes)) {
            // A skip at the end lets counts show empty segments.
            self.skip(answer)?;
        }
        self.meet_from(0);
        self.meet();
        let looks = self.instrs.iter().filter(|instr| is_look(**instr)).count();
        if !self.plan.skips && looks > MAX_LOOKS {
            return Err(Unplanned::Length);
        }
        Ok(answer)
    }

    /// Returns the registers of a part of the condition, without that of a truth that it never has.
    #[cycle(truths)]
    fn truths(&mut self, part: &Formula, wanted: WantedTruths) -> MadeTruths {
        let possible = part.possible(self.schema);
        let wanted = TruthPair::of(wanted.yes && possible.yes, wanted.no && possible.no);
        if !wanted.yes && !wanted.no {
            return Ok(TruthPair::of(None, None));
        }
        match part {
            Formula::Fixed(_) => self.everywhere(None, wanted),
            Formula::Codes(set) if set.bounds.is_empty() => {
                self.everywhere(Some(set.column), wanted)
            }
            Formula::Codes(set) => self.in_set(set, wanted),
            Formula::Columns(compared) => self.compare_columns(*compared, wanted),
            Formula::Null(column) if !wanted.yes => { self.everywhere(Some(*column), wanted) }
            Formula::Null(column) => {
                let nulls = self.compute(Content::Nulls(*column))?;
                self.sides(nulls, &[], wanted)
            }
            Formula::Test(part, truth) => {
                let needed = TruthPair::of(*truth != Truth::No, *truth != Truth::Yes);
                let made = self.truths(part, needed)?;
                let held = self.either(made)?;
                let is_inverted = *truth == Truth::Unknown;
                let made = self.sides(held, &[], wanted.opposite_if(is_inverted))?;
                Ok(made.opposite_if(is_inverted))
            }
            Formula::Not(part) => {
                let made = self.truths(part, wanted.opposite_if(true))?;
                Ok(made.opposite_if(true))
            }
            Formula::Joined(junction, parts, _) => self.all_parts(*junction, parts, wanted),
        }
    }

    /// Returns the registers of joined parts: an OR is the opposite of the AND of their opposites.
    #[cycle(truths)]
    fn all_parts(
        &mut self,
        junction: Junction,
        parts: &[Formula],
        wanted: WantedTruths,
    ) -> MadeTruths {
        let is_any = junction == Junction::Any;
        let open = self.open_skips();
        let mut made = TruthPair::of(None, None);
        for (number, part) in parts.iter().enumerate() {
            let has_skip = number <= SKIPPED_PARTS && self.plan.between_parts;
            if has_skip && !is_quick(part) {
                self.skip_if_settled(made, wanted.opposite_if(is_any))?;
            }
            let next = self.truths(part, wanted)?.opposite_if(is_any);
            if let (Some(to), Some(other)) = (made.yes, next.yes) {
                self.set_from(other, to, Instr::And(to, to, other))?;
            }
            if let (Some(to), Some(other)) = (made.no, next.no) {
                self.set_from(other, to, Instr::Or(to, to, other))?;
            }
            made = TruthPair::of(made.yes.or(next.yes), made.no.or(next.no));
        }
        self.meet_from(open);
        Ok(made.opposite_if(is_any))
    }

    /// Skips to the end of an AND if its other parts can change nothing.
    fn skip_if_settled(
        &mut self,
        made: TruthRegisters,
        wanted: WantedTruths,
    ) -> Result<(), Unplanned> {
        if let Some(excluded) = made.no {
            let left = self.claim()?;
            self.set(left, Instr::Not(left, excluded))?;
            self.skip(left)?;
            self.registers.release(left);
        } else if let Some(selected) = made.yes
            && !wanted.no
        {
            self.skip(selected)?;
        }
        Ok(())
    }

    /// Returns the register of the only wanted truth of a part, which has it where a column has a
    /// value, or everywhere.
    fn everywhere(&mut self, column: Option<ColumnIndex>, wanted: WantedTruths) -> MadeTruths {
        let made = match column {
            Some(column) if is_nullable(self.schema, column) => {
                self.compute(Content::Values(column))?
            }
            _ => self.fill(true)?,
        };
        Ok(TruthPair::of(wanted.yes.then_some(made), wanted.no.then_some(made)))
    }

    /// Returns a register, or, if there is none, one that is 0 in every lane.
    fn or_none(&mut self, made: Option<Register>) -> Made {
        match made {
            Some(register) => Ok(register),
            None => self.fill(false),
        }
    }

    /// Returns a register that is 1 where one of a part's registers is.
    fn either(&mut self, made: TruthRegisters) -> Made {
        match (made.yes, made.no) {
            (Some(yes), Some(no)) => self.set_from(no, yes, Instr::Or(yes, yes, no)),
            (yes, no) => self.or_none(yes.or(no)),
        }
    }

    /// Returns the registers of whether a column's code is in a set.
    fn in_set(&mut self, set: &Set, wanted: WantedTruths) -> MadeTruths {
        let first = self.open_skips();
        let skips = self.skips.count;
        let held = self.codes(set)?;
        let wanted = wanted.opposite_if(set.is_inverted);
        let made = if self.skips.count > skips {
            self.sides_by_skips(held, &[set.column], wanted)?
        } else {
            self.sides(held, &[set.column], wanted)?
        };
        self.meet_from(first);
        Ok(made.opposite_if(set.is_inverted))
    }

    /// Returns the registers of a comparison of two columns. Its skips meet right after its own
    /// instructions: after a NOT or a null plane, "less so far" would differ by them.
    fn compare_columns(&mut self, compared: ColumnComparison, wanted: WantedTruths) -> MadeTruths {
        let first = self.open_skips();
        let held = self.relation(compared)?;
        self.meet_from(first);
        self.meet();
        let columns = [index_of(compared.left), index_of(compared.right)];
        let wanted = wanted.opposite_if(compared.negated);
        let made = self.sides_by_skips(held, &columns, wanted)?;
        self.meet_from(first);
        Ok(made.opposite_if(compared.negated))
    }

    /// Returns the registers that are 1 where all of some columns have values and a register is 1,
    /// and where they have values and it is 0.
    fn sides(
        &mut self,
        held: Register,
        columns: &[ColumnIndex],
        wanted: WantedTruths,
    ) -> MadeTruths {
        if wanted.yes && wanted.no {
            return self.both_sides(held, columns);
        }
        for column in columns {
            if is_nullable(self.schema, *column) {
                if wanted.yes {
                    self.exclude_nulls(held, *column)?;
                } else {
                    let nulls = self.compute(Content::Nulls(*column))?;
                    self.set_from(nulls, held, Instr::Or(held, held, nulls))?;
                }
            }
        }
        if wanted.yes {
            return Ok(TruthPair::of(Some(held), None));
        }
        let other = self.set(held, Instr::Not(held, held))?;
        Ok(TruthPair::of(None, Some(other)))
    }

    /// Returns both registers that `sides` does.
    fn both_sides(&mut self, held: Register, columns: &[ColumnIndex]) -> MadeTruths {
        let mut nulls = None;
        for column in columns {
            if is_nullable(self.schema, *column) {
                let more = self.compute(Content::Nulls(*column))?;
                nulls = match nulls {
                    Some(to) => Some(self.set_from(more, to, Instr::Or(to, to, more))?),
                    None => Some(more),
                };
            }
        }
        let other = self.claim()?;
        let Some(nulls) = nulls else {
            self.set(other, Instr::Not(other, held))?;
            return Ok(TruthPair::of(Some(held), Some(other)));
        };
        self.set(other, Instr::Or(other, held, nulls))?;
        self.set_from(nulls, held, Instr::Xor(held, other, nulls))?;
        self.set(other, Instr::Not(other, other))?;
        Ok(TruthPair::of(Some(held), Some(other)))
    }

    /// Returns the registers that `sides` does. If the first alone is wanted, a skip omits each null
    /// plane if no lane is left.
    fn sides_by_skips(
        &mut self,
        held: Register,
        columns: &[ColumnIndex],
        wanted: WantedTruths,
    ) -> MadeTruths {
        if wanted.no {
            return self.sides(held, columns, wanted);
        }
        for column in columns {
            if is_nullable(self.schema, *column) {
                self.skip(held)?;
                self.exclude_nulls(held, *column)?;
            }
        }
        Ok(TruthPair::of(Some(held), None))
    }

    /// Sets a register to 0 where a column is null.
    fn exclude_nulls(&mut self, held: Register, column: ColumnIndex) -> Result<(), Unplanned> {
        let values = self.compute(Content::Values(column))?;
        self.set_from(values, held, Instr::And(held, held, values))?;
        Ok(())
    }
}

/// Returns whether a part takes two or three instructions, so that a skip saves nothing.
fn is_quick(part: &Formula) -> bool {
    match part {
        Formula::Null(_) | Formula::Fixed(_) => true,
        Formula::Codes(set) => set.bounds.is_empty(),
        _ => false,
    }
}

/// Returns whether an instruction compares a byte.
fn is_look(instr: Instr) -> bool {
    matches!(instr, Instr::ByteLt(..) | Instr::ByteEq(..))
}
