// What stands at an address that a jump goes to: nothing of the window, an instruction's start, or the inside of an instruction.
ghost use Rattle.std.specs.Prelude.{◌≡◌, ◌-◌, ◌≤◌};
ghost use Rattle.map.specs.Place.{holder, place_of};

use crate::walk::Walk;
use screen::memory::byte;
use sm83::Addr;

#[derive(Clone, Copy)]
pub enum Place {
    Outside,
    Start,
    Inside(Addr),
}

// Where the instruction starts that holds the byte at the target.
#[tactic(auto, using(crate::proofs::place::Walking::goes_on, crate::proofs::place::Walking::at_start, crate::proofs::place::Walking::inside))]
fn holder(mem: &[u8], first: u16, target: u16) -> u16
    requires { first ≤ target }
    ensures { result ≡ holder mem.now first 0 first (target - first) }
{
    let mut walk = Walk { left: 0 };
    let mut start = first;
    for at in first..target {
        if walk.starts(byte(mem, Addr(at))) {
            start = at;
        }
    }
    if walk.left == 0 { target } else { start }
}

// In the window from first to last, both in it, walked by instruction length whatever the screen says of it.
#[tactic(auto, unfolding(crate::specs::Place::place_of))]
pub fn place_of(mem: &[u8], first: Addr, last: Addr, target: Addr) -> Place
    ensures { result ≡ place_of mem.now first.0 last.0 target.0 }
{
    if (target.0 < first.0) | (last.0 < target.0) {
        return Place::Outside;
    }
    let start = holder(mem, first.0, target.0);
    if start == target.0 {
        Place::Start
    } else {
        Place::Inside(Addr(start))
    }
}
