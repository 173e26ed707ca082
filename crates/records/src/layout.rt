// A record of the stored sample: where its parts stand, and the numbers and the memory that it tells.
ghost use Rattle.std.specs.Prelude.{◌≡◌, ◌+◌, ◌*◌, ◌<◌, ◌≤◌, length, MatchOption};
ghost use Rattle.records.specs.Record.{head_size, kind_of, name_length, memory_length, listed, changed, memory_from};

use crate::slices::patch;
use blocks::bytes::word_at;

// The head, of every record. The layout is the file's, by offsets, as specs/Record has it.
pub const KIND: usize = 2;

pub const NAME_LENGTH: usize = 3;

pub(crate) const MEMORY_LENGTH: usize = 4;

pub(crate) const LISTED: usize = 7;

pub(crate) const CHANGED: usize = 9;

pub const BUDGET: usize = 11;

pub const FIRST: usize = 11;

pub const LAST: usize = 13;

pub const HEAD_SIZE: usize = 15;

// A step or a run.
pub const STATE: usize = 15;

pub const AFTER: usize = 39;

pub const ANSWER: usize = 63;

pub const BYTES: usize = 87;

// A window.
pub const VERDICT: usize = 15;

pub const MARKS: usize = 19;

// A record that has a head.
#[derive(Clone, Copy)]
pub struct Record<'a> {
    pub bytes: &'a [u8],
    pub ghost headed: { head_size ≤ length bytes.now },
}

impl<'a> Record<'a> {
    // None if the head is cut.
    pub fn of(bytes: &'a [u8]) -> Option<Record<'a>>
        ensures { MatchOption result (length bytes.now < head_size) (λ r. r.bytes.now ≡ bytes.now) }
    {
        if bytes.len() < HEAD_SIZE {
            return None;
        }
        Some(Record { bytes })
    }

    pub fn kind(self) -> u8
        ensures { result ≡ kind_of self.entry.bytes.now }
    {
        self.bytes[KIND]
    }

    pub fn name_length(self) -> u8
        ensures { result ≡ name_length self.entry.bytes.now }
    {
        self.bytes[NAME_LENGTH]
    }

    pub fn memory_length(self) -> usize
        ensures { result ≡ memory_length self.entry.bytes.now }
    {
        usize::from(word_at(self.bytes, MEMORY_LENGTH))
            + 65536 * usize::from(self.bytes[MEMORY_LENGTH + 2])
    }

    pub fn listed(self) -> u16
        ensures { result ≡ listed self.entry.bytes.now }
    {
        word_at(self.bytes, LISTED)
    }

    pub fn changed(self) -> u16
        ensures { result ≡ changed self.entry.bytes.now }
    {
        word_at(self.bytes, CHANGED)
    }

    // Memory before: all 0 but for the listed bytes, which stand at an offset.
    pub fn lay(self, at: usize, mem: &mut [u8])
        requires { at + 3 * listed self.bytes.now ≤ length self.bytes.now }
        ensures { mem.new ≡ memory_from self.entry.bytes.now at (length mem.old) }
    {
        mem.fill(0);
        patch(self.bytes, at, usize::from(self.listed()), mem);
    }
}
