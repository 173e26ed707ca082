// The stored sample of answers: what a record asks, and whether the core answers as the record says.
ghost use Rattle.std.specs.Prelude.{◌≡◌};
ghost use Rattle.replay.specs.Replay.{agrees};

use crate::runs::run_agrees;
use crate::windows::window_agrees;
use records::layout::Record;

pub const MOST_MEMORY: usize = 131072;

// A record that is cut short, asks for more memory than is lent or is of no kind agrees with nothing.
#[tactic(auto, unfolding(crate::specs::Replay::agrees))]
pub fn agrees(item: &[u8], mem: &mut [u8; MOST_MEMORY], other: &mut [u8; MOST_MEMORY]) -> bool
    ensures { result ≡ agrees item.now }
{
    let Some(item) = Record::of(item) else {
        return false;
    };
    if MOST_MEMORY < item.memory_length() {
        return false;
    }
    let kind = item.kind();
    if kind <= 1 {
        return run_agrees(item, mem, other);
    }
    if kind == 2 {
        return window_agrees(item, mem, other);
    }
    false
}
