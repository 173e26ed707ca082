// A step or a run of the sample: the core is asked, and every value is compared.
ghost use Rattle.std.specs.Prelude.{◌≡◌, ◌+◌, ◌*◌, ◌≤◌, length};
ghost use Rattle.library.specs.Left.{left, run_blocks};
ghost use Rattle.records.specs.Record.{memory_length, changed, changes_at};
ghost use Rattle.replay.specs.Told.{budget_of, asked, told, same_left};
ghost use Rattle.replay.specs.Replay.{agrees_run};

use crate::told::as_told;
use blocks::answer::ANSWER_LENGTH;
use blocks::bytes::word_at;
use blocks::state::STATE_LENGTH;
use library::calls::run_blocks;
use records::layout::{AFTER, BUDGET, BYTES, Record, STATE};
use records::slices::patch;

fn ask(kind: u8, state: &mut [u8], mem: &mut [u8], budget: u16, answer: &mut [u8]) -> u16
    ensures { left result state.new mem.new answer.new ≡ run_blocks (budget_of kind budget) state.old mem.old answer.old }
{
    if kind == 0 {
        return run_blocks(state, mem, 1, answer);
    }
    run_blocks(state, mem, budget, answer)
}

// On memory as long as the two slices are.
#[tactic(auto, unfolding(crate::specs::Told::asked, crate::specs::Told::told))]
fn compare(item: Record<'_>, mem: &mut [u8], want: &mut [u8]) -> bool
    requires { changes_at item.bytes.now + 3 * changed item.bytes.now ≤ length item.bytes.now }
    ensures { result ≡ same_left (asked item.entry.bytes.now (length mem.old)) (told item.entry.bytes.now (length want.old)) }
{
    let listed = usize::from(item.listed());
    let count = usize::from(item.changed());
    item.lay(BYTES, mem);
    item.lay(BYTES, want);
    patch(item.bytes, BYTES + 3 * listed, count, want);
    let mut state = [0u8; STATE_LENGTH];
    state.copy_from_slice(&item.bytes[STATE..AFTER]);
    let mut answer = [0u8; ANSWER_LENGTH];
    let budget = word_at(item.bytes, BUDGET);
    let number = ask(item.kind(), &mut state, mem, budget, &mut answer);
    as_told(item.bytes, number, &state, mem, want, &answer)
}

#[tactic(auto, unfolding(crate::specs::Replay::agrees_run))]
pub fn run_agrees(item: Record<'_>, mem: &mut [u8], want: &mut [u8]) -> bool
    requires roomy { memory_length item.bytes.now ≤ length mem.old }
    requires roomy_too { memory_length item.bytes.now ≤ length want.old }
    ensures { result ≡ agrees_run item.entry.bytes.now }
{
    let listed = usize::from(item.listed());
    let changed = usize::from(item.changed());
    let named = usize::from(item.name_length());
    if item.bytes.len() != BYTES + 3 * listed + 3 * changed + named {
        return false;
    }
    let n = item.memory_length();
    compare(item, &mut mem[..n], &mut want[..n])
}
