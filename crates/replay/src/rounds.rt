// One record after the other.
ghost use Rattle.std.specs.Prelude.{◌≡◌};
ghost use Rattle.replay.specs.Replay.{agrees, differs};

use crate::said::{say_cut, say_differs, say_rest, say_row, say_short};
use crate::sample::{MOST_MEMORY, agrees};
use blocks::bytes::word_at;
use records::front::front_size;
use records::notes::{PLACES, note};

// What a replay is lent: memory for a record, more for what the record says of it, and what was met, counted.
#[derive(Drop)]
pub struct Room {
    pub memory: [u8; MOST_MEMORY],
    pub other: [u8; MOST_MEMORY],
    pub counts: [u32; PLACES],
}

// Whether the core agrees with the record, which is named if not.
fn round(rt: &HostRuntime, item: &[u8], before: usize, at: usize, room: &mut Room) -> bool
    ensures { result ≡ agrees item.now }
{
    note(item, &mut room.memory, &mut room.counts);
    let same = agrees(item, &mut room.memory, &mut room.other);
    say_row(rt, item, same);
    if !same {
        say_differs(rt, before, at);
    }
    same
}

// How many records the core does not agree with. A record that is cut short, and a rest behind the last one, count as one.
pub fn replay(rt: &HostRuntime, file: &[u8], room: &mut Room) -> usize
    ensures { result ≡ differs file.now }
{
    if file.len() < 2 {
        say_short(rt);
        return 1;
    }
    let count = usize::from(word_at(file, 0));
    let mut at = 2;
    let mut differ = 0;
    for i in 0..count {
        let Some(size) = front_size(file, at) else {
            say_cut(rt, i, at);
            return differ + 1;
        };
        let same = round(rt, &file[at..at + size], i, at, room);
        differ += usize::from(!same);
        at += size;
    }
    let more = at < file.len();
    if more {
        say_rest(rt, at);
        return differ + 1;
    }
    differ
}
