// What a sample covers: how often each kind of record, opcode, halt mode, outcome and verdict was met.
ghost use Rattle.std.specs.Prelude.{◌≡◌, ◌<◌, ◌≤◌, length, unwrap_or, IfSome};
ghost use Rattle.records.specs.Record.{changes_at};
ghost use Rattle.records.specs.Notes.{places, counted, fetches, opcode_of, fetch_noted, opcode_noted, run_noted, noted};

use crate::layout::{AFTER, ANSWER, BYTES, MARKS, Record, STATE, VERDICT};
use blocks::bytes::word_at;
use bus::interrupts::lowest_pending;
use outcome::interrupt::is_pending;
use sm83::Addr;

// Where the counts stand: opcodes at 0 to 511 (after CB from 256 on), then 256 places for each of the others. One array, and kinds, outcomes and
// verdicts by the byte that stands in the record, as `noted` (specs/Notes), which counts unknown ones too, has them.
pub const KINDS: usize = 512;

pub const HALTS: usize = 768;

pub const OUTCOMES: usize = 1024;

pub const VERDICTS: usize = 1280;

pub const PLACES: usize = 1536;

// Where the parts of a state block stand.
const PC: usize = 10;

const IME: usize = 12;

const HALT: usize = 14;

const STOPPED: usize = 15;

const HDMA: usize = 16;

// The halt mode of the state in a record.
const HALT_BEFORE: usize = STATE + HALT;

// By an index, as `put` in slices: what `get_mut` lends has no equation for the proof.
fn count(counts: &mut [u32], place: usize)
    ensures { counts.new ≡ counted place counts.old }
{
    if place < counts.len() {
        counts[place] = counts[place].wrapping_add(1);
    }
}

// Whether a step from this state comes to its fetch.
fn fetches(state: &[u8; 24], waiting: bool) -> bool
    ensures { result ≡ fetches state.now waiting }
{
    let ime = state[IME] == 1;
    let halted = matches!(state[HALT], 1 | 2);
    let still = (state[STOPPED] == 1) | (state[HDMA] == 1);
    !still & ((!halted | waiting) & !(ime & waiting))
}

// The place of the opcode that a step fetches, after CB from 256 on; None if it fetches none.
#[tactic(auto, unfolding(crate::specs::Notes::opcode_of))]
fn opcode(state: &[u8; 24], mem: &mut [u8; 65536]) -> Option<usize>
    ensures place { unwrap_or result places ≡ opcode_of state.now mem.old }
    ensures small { IfSome result (λ place. place < 512) }
{
    let waiting = is_pending(lowest_pending(mem));
    if !fetches(state, waiting) {
        return None;
    }
    let pc = word_at(state, PC);
    let first = mem[usize::from(pc)];
    if first != 0xcb {
        return Some(usize::from(first));
    }
    if state[HALT] == 3 {
        return Some(256 + usize::from(first));
    }
    let second = Addr(pc).wrapping_add(1);
    Some(256 + usize::from(mem[usize::from(second.0)]))
}

fn note_fetch(item: Record<'_>, mem: &mut [u8; 65536], counts: &mut [u32; PLACES])
    requires { changes_at item.bytes.now ≤ length item.bytes.now }
    ensures { counts.new ≡ fetch_noted item.entry.bytes.now 65536 counts.old }
{
    item.lay(BYTES, mem);
    let state = item.bytes[STATE..AFTER].as_array().unwrap();
    let Some(place) = opcode(state, mem) else {
        return;
    };
    count(counts, place);
    // CB is an opcode of the first table, too.
    if place >= 256 {
        count(counts, 0xcb);
    }
}

fn note_opcode(item: Record<'_>, mem: &mut [u8; 131072], counts: &mut [u32; PLACES])
    requires { changes_at item.bytes.now ≤ length item.bytes.now }
    ensures { counts.new ≡ opcode_noted item.entry.bytes.now counts.old }
{
    if item.memory_length() == 65536 {
        note_fetch(item, mem.first_chunk_mut().unwrap(), counts);
    }
}

fn note_run(item: Record<'_>, mem: &mut [u8; 131072], counts: &mut [u32; PLACES])
    ensures { counts.new ≡ run_noted item.entry.bytes.now counts.old }
{
    if item.bytes.len() < BYTES + 3 * usize::from(item.listed()) {
        return;
    }
    count(counts, HALTS + usize::from(item.bytes[HALT_BEFORE]));
    count(counts, OUTCOMES + usize::from(item.bytes[ANSWER]));
    if item.kind() == 0 {
        note_opcode(item, mem, counts);
    }
}

#[tactic(auto, unfolding(crate::specs::Notes::noted))]
pub fn note(item: &[u8], mem: &mut [u8; 131072], counts: &mut [u32; PLACES])
    ensures { counts.new ≡ noted item.now counts.old }
{
    if item.len() < MARKS {
        return;
    }
    let record = Record { bytes: item };
    let kind = record.kind();
    count(counts, KINDS + usize::from(kind));
    if kind == 2 {
        count(counts, VERDICTS + usize::from(item[VERDICT]));
        return;
    }
    note_run(record, mem, counts);
}
