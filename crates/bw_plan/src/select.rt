//! Instructions that compare a column's codes with numbers, from the most significant byte down.
use crate::code::{Code, Made};
use crate::limits::SKIPPED_BYTES;
use crate::registers::Content;
use crate::sets::{Set, bounds_below, byte_of};
use crate::unplanned::Unplanned;
use bw_program::{Instr, Register, SliceIndex};

/// What is looked for: the low bytes of a column's codes, from this one down, that have an odd number
/// of bounds above them. The bounds are sorted and different.
#[derive(Clone, Copy)]
struct Search<'s> {
    set: &'s Set,
    slice: SliceIndex,
    bounds: &'s [u64],
    /// The lanes in which the bytes above are those of the bounds, if they aren't all lanes.
    mask: Option<Register>,
}

impl Code<'_> {
    /// Returns a register that is 1 where a column's code has an odd number of a set's bounds above
    /// it.
    pub(crate) fn codes(&mut self, set: &Set) -> Made {
        let search = Search {
            set,
            slice: set.top,
            bounds: &set.bounds,
            mask: None,
        };
        self.within(search, None)
    }

    /// Returns a register, `out` if there is one, with the lanes toggled in which a search finds the
    /// code. A new register has these lanes among those of the mask, and any value in others.
    #[cycle(within)]
    fn within(&mut self, search: Search<'_>, out: Option<Register>) -> Made {
        let Search { slice, bounds, .. } = search;
        let mut out = match self.bytes(search)? {
            Some(here) => Some(self.toggle(here, search.mask, out)?),
            None => out,
        };
        for group in bounds.chunk_by(|a, b| byte_of(*a, slice) == byte_of(*b, slice)) {
            let found = Search {
                bounds: group,
                ..search
            };
            out = self.below(found, out)?;
        }
        match out {
            Some(register) => Ok(register),
            None => self.fill(false),
        }
    }

    /// Returns the same for bounds with one byte in common, in the lanes whose codes have it too. A
    /// new register is 0 in other lanes.
    #[cycle(within)]
    fn below(
        &mut self,
        search: Search<'_>,
        out: Option<Register>,
    ) -> Result<Option<Register>, Unplanned> {
        let Search { set, slice, .. } = search;
        let inner = bounds_below(search.bounds, slice);
        let (Some(bound), Some(next)) = (inner.first(), slice.checked_sub(1)) else {
            return Ok(out);
        };
        let first = self.open_skips();
        let same = self.compute(Content::Equal(set.column, slice, byte_of(*bound, slice)))?;
        // If all bounds have the bytes so far in common, nothing else needs the mask.
        let is_prefix = out.is_none() && inner.len() == set.bounds.len();
        let same = match search.mask {
            Some(mask) if is_prefix => self.set_from(same, mask, Instr::And(mask, mask, same))?,
            Some(mask) => self.set(same, Instr::And(same, same, mask))?,
            None => same,
        };
        if set.top.saturating_sub(slice) < SKIPPED_BYTES {
            self.skip(same)?;
        }
        let below = Search {
            slice: next,
            bounds: inner,
            mask: Some(same),
            ..search
        };
        let found = self.within(below, out)?;
        if out.is_some() {
            self.registers.release(same);
        } else if found != same {
            self.set_from(found, same, Instr::And(same, same, found))?;
        }
        self.meet_from(first);
        Ok(Some(out.map_or(same, |_| found)))
    }

    /// Returns a register that is 1 where a byte has an odd number of the bounds' bytes above it.
    fn bytes(&mut self, search: Search<'_>) -> Result<Option<Register>, Unplanned> {
        let Search { set, slice, .. } = search;
        let groups = search
            .bounds
            .chunk_by(|a, b| byte_of(*a, slice) == byte_of(*b, slice));
        let mut bytes = groups
            .filter(|group| group.len() % 2 == 1)
            .map(|group| group.first().map_or(0, |bound| byte_of(*bound, slice)))
            .filter(|byte| *byte > 0)
            .peekable();
        let mut made = None;
        for _ in search.bounds {
            let Some(byte) = bytes.next() else {
                break;
            };
            let content = match bytes.next_if(|next| byte.checked_add(1) == Some(*next)) {
                Some(_) => Content::Equal(set.column, slice, byte),
                None => Content::Less(set.column, slice, byte),
            };
            let next = self.compute(content)?;
            made = Some(self.toggle(next, None, made)?);
        }
        Ok(made)
    }

    /// Returns a register: another one, or, if there is one, `out` with the lanes toggled that are
    /// 1 in the other and in `mask`.
    fn toggle(&mut self, next: Register, mask: Option<Register>, out: Option<Register>) -> Made {
        let Some(out) = out else {
            return Ok(next);
        };
        if let Some(mask) = mask {
            self.set(next, Instr::And(next, next, mask))?;
        }
        self.set_from(next, out, Instr::Xor(out, out, next))
    }
}
