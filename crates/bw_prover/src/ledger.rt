//! Facts in the order in which they were added, each of which occurs once and can be found.
ghost use Rattle.std.specs.Prelude.{◌≡◌, ◌≤◌, IfOk, length};

use crate::unproved::{Counted, Unproved};
use std::alloc::Global;

/// What distinguishes an entry from others.
pub(crate) type Key = (u64, u64);

/// Entries in order, numbered from 0, each with a key of its own. Most of a prover's work is to find
/// and to add product rows: this takes a third of the time of an `IndexMap` (2026-11-29).
#[derive(Drop)]
pub(crate) struct Ledger<T: Copy> {
    pub(crate) entries: Vec<T>,
    keys: Vec<Key>,
    /// Open addressing (Knuth, The Art of Computer Programming, 6.4): the number of an entry, plus
    /// 1, or 0. Each entry is in the first slot, from that of its hash on, that was empty.
    slots: Vec<u32>,
    pub(crate) count: u32,
    /// How many entries it may have.
    pub(crate) limit: u32,
    /// What its entries are.
    counted: Counted,
    pub(crate) ghost numbered: { length entries.items ≡ count },
    pub(crate) ghost within: { count ≤ limit },
}

/// How many slots there are at first.
const FEWEST_SLOTS: usize = 256;

impl<T: Copy> Ledger<T> {
    /// Returns no entries, of a kind, with a limit of their number.
    pub(crate) fn new(alloc: Global, counted: Counted, limit: u32) -> Self
        ensures count { result.count ≡ 0 }
        ensures limit { result.limit ≡ limit }
    {
        Ledger {
            entries: Vec::new(alloc),
            keys: Vec::new(alloc),
            slots: Vec::new(alloc),
            count: 0,
            limit,
            counted,
        }
    }

    /// Returns the entry with a key, and its number.
    pub(crate) fn find(&self, key: Key) -> Option<(u64, T)> {
        let number = self.slots.get(self.slot_of(key))?.checked_sub(1)?;
        let entry = self.entries.get(number as usize)?;
        Some((u64::from(number), *entry))
    }

    /// Adds an entry with a new key, and returns its number.
    pub(crate) fn push(&mut self, key: Key, entry: T) -> Result<u64, Unproved>
        ensures limit { self.new.limit ≡ self.old.limit }
        ensures count { self.old.count ≤ self.new.count }
    {
        let number = self.count;
        if number >= self.limit {
            return Err(self.limit_fault());
        }
        if number as usize >= self.slots.len() / 2 {
            self.spread()?;
        }
        self.keys.push(key)?;
        self.entries.push(entry)?;
        self.count = number + 1;
        self.fill(key, self.count);
        Ok(u64::from(number))
    }

    /// Sets how many entries it may have. Fails if it has more.
    pub(crate) fn set_limit(&mut self, limit: u32) -> Result<(), Unproved>
        ensures limit { IfOk result (λ _. self.new.limit ≡ limit) }
        ensures count { self.new.count ≡ self.old.count }
    {
        if self.count > limit {
            return Err(self.limit_fault());
        }
        self.limit = limit;
        Ok(())
    }

    /// Returns that there may be no more entries.
    pub(crate) fn limit_fault(&self) -> Unproved {
        Unproved::Limit {
            counted: self.counted,
            most: self.limit,
        }
    }

    /// Returns the slot of the entry with a key, or else the empty one for it: at least every second
    /// one is empty.
    fn slot_of(&self, key: Key) -> usize {
        let slots = self.slots.as_slice();
        let mut slot = first_slot(key, slots.len());
        for _ in 0..slots.len() {
            let number = slots.get(slot).copied().unwrap_or(0) as usize;
            match self.keys.get(number.wrapping_sub(1)) {
                Some(other) if other.0 != key.0 || other.1 != key.1 => slot += 1,
                _ => break,
            }
            if slot >= slots.len() {
                slot = 0;
            }
        }
        slot
    }

    /// Writes a number into the slot of a key.
    fn fill(&mut self, key: Key, number: u32)
        ensures entries { self.new.entries ≡ self.old.entries }
        ensures count { self.new.count ≡ self.old.count }
        ensures limit { self.new.limit ≡ self.old.limit }
    {
        let slot = self.slot_of(key);
        if let Some(place) = self.slots.get_mut(slot) {
            *place = number;
        }
    }

    /// Spreads the entries over twice as many slots, or some more.
    fn spread(&mut self) -> Result<(), Unproved>
        ensures entries { self.new.entries ≡ self.old.entries }
        ensures count { self.new.count ≡ self.old.count }
        ensures limit { self.new.limit ≡ self.old.limit }
    {
        let slots = 4 * self.count as usize + FEWEST_SLOTS;
        self.slots.clear();
        self.slots.resize(slots, 0)?;
        for number in 0..self.count {
            if let Some(key) = self.keys.get(number as usize).copied() {
                self.fill(key, number + 1);
            }
        }
        Ok(())
    }
}

/// Returns the slot of a key's hash among some: bits of products with odd numbers (Knuth, The Art of
/// Computer Programming, 6.4).
fn first_slot(key: Key, slots: usize) -> usize {
    let mixed = key.0.wrapping_mul(0x9E37_79B9_7F4A_7C15) ^ key.1;
    let hash = mixed.wrapping_mul(0xD6E8_FEB8_6659_FD93) >> 32;
    (hash.wrapping_mul(slots as u64) >> 32) as usize
}
