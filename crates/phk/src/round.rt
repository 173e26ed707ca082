// Where the last steps of a run were, if these are few places: a run that is going round shows it.
ghost use Rattle.std.specs.Prelude.{◌≡◌, ◌+◌, ◌≤◌, ◌||◌, nat_lt, slice_set, if◌then◌else◌};

use crate::page::{out, print_short};
use crate::said::{Host, Stream};

// So many places are told, and no more.
const FEW: usize = 8;

// A few places, each once.
#[derive(Drop)]
struct Places {
    pcs: [u16; FEW],
    count: usize,
    ghost few: { count ≤ 8 },
}

impl Places {
    ghost use Rattle.phk.specs.Places.{places_in, has, is_news};

    fn none() -> Self
        ensures { result.count ≡ 0 }
    {
        Places {
            pcs: [0; FEW],
            count: 0,
        }
    }

    fn as_slice(&self) -> &[u16]
        ensures { result.now ≡ places_in self.now }
    {
        &self.pcs[..self.count]
    }

    // Whether there was room for one more.
    fn keep(&mut self, pc: u16) -> bool
        ensures room { result ≡ (has self.old pc || nat_lt self.old.count 8) }
        ensures count { self.new.count ≡ (if is_news self.old pc then self.old.count + 1 else self.old.count) }
        ensures pcs { self.new.pcs ≡ (if is_news self.old pc then slice_set self.old.pcs self.old.count pc else self.old.pcs) }
    {
        if self.as_slice().contains(&pc) {
            return true;
        }
        if self.count == FEW {
            return false;
        }
        self.pcs[self.count] = pc;
        self.count += 1;
        true
    }
}

fn print_round(host: &Host, places: &Places, steps: u64) {
    print_short(
        host,
        Stream::Output,
        b"the last % steps were at",
        &[steps],
        b"",
    );
    for pc in places.as_slice() {
        print_short(host, Stream::Output, b" #", &[u64::from(*pc)], b"");
    }
    out(host, b"\n");
}

// Each place once, that of the earliest step first; nothing if they are more than a few. Of a run of fewer steps not all are noted.
pub fn going_round(host: &Host, budget: u64, pcs: &[u16]) {
    let steps = pcs.len() as u64;
    if (steps == 0) | (budget < steps) {
        return;
    }
    let mut places = Places::none();
    for pc in pcs.iter().rev() {
        if !places.keep(*pc) {
            return;
        }
    }
    print_round(host, &places, steps);
}
