//! Bytes in memory with one or more owners.
ghost use Rattle.std.specs.Prelude.{All, ◌^◌, ◌<◌, ◌≤◌, vec_len};

use bw_model::Fault;
use std::alloc::Global;
use std::rc::Rc;

/// Bytes of memory that others may own too. Nobody changes them as long as anybody else owns them.
#[derive(Drop)]
pub struct SharedBytes {
    memory: Rc<Vec<u8>>,
    start: usize,
    end: usize,
    ghost ordered: { start ≤ end },
    ghost within: { end ≤ vec_len memory.value },
}

impl SharedBytes {
    ghost use Rattle.std.specs.Prelude.{◌≡◌, IfOk, IfSome, IsOkUnless, slice_range};
    ghost use Rattle.bw_model.specs.Fault.{no_memory};
    ghost use Rattle.bw_io.specs.Shared.{bytes_in};

    /// Returns all of these bytes. Errors: 801 if memory is refused.
    pub fn new(alloc: Global, bytes: Vec<u8>) -> Result<Self, Fault>
        ensures bytes { IfOk result (λ shared. bytes_in shared ≡ bytes.items) }
        ensures only_oom { IsOkUnless result no_memory }
    {
        let end = bytes.len();
        let memory = Rc::new(alloc, bytes)?;
        Ok(SharedBytes {
            memory,
            start: 0,
            end,
        })
    }

    /// Returns the bytes of memory from `start` up to `end`, or None if it can't have one owner
    /// more.
    pub(crate) fn part(memory: &Rc<Vec<u8>>, start: usize, end: usize) -> Option<Self>
        requires ordered { start ≤ end }
        requires within { end ≤ vec_len memory.now.value }
        ensures { IfSome result (λ shared. bytes_in shared
            ≡ slice_range memory.now.value.items start end) }
    {
        match memory.clone() {
            Ok(memory) => Some(SharedBytes { memory, start, end }),
            Err(_) => None,
        }
    }

    /// Returns the bytes.
    #[inline(always)]
    pub fn as_slice(&self) -> &[u8]
        ensures { result.now ≡ bytes_in self.now }
    {
        let memory: &Vec<u8> = &self.memory;
        &memory[self.start..self.end]
    }

    /// A law: each is a number below 2^8.
    pub fn are_bytes(&self)
        ensures { All (λ byte. byte < 2 ^ 8) (bytes_in self.now) }
    {
        slice_has_bytes(self.as_slice());
    }
}

/// A law: the items of a slice are bytes.
fn slice_has_bytes(bytes: &[u8])
    ensures { All (λ byte. byte < 2 ^ 8) bytes.now }
{}
