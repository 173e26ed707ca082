// With which other last address a window from the same first one would pass: for refusals 8 and 9.
ghost use Rattle.std.specs.Prelude.{◌≡◌, ◌+◌, ◌-◌, ◌≤◌, min};
ghost use Rattle.routine.specs.Screen.{longest_window};
ghost use Rattle.map.specs.Passing.{would_pass, lowest, highest, passing_above, passing_below};

use screen::{LONGEST_WINDOW, screen};
use sm83::Addr;

// Whether the screen passes the window from first to last, lent a mark for each of its bytes.
#[tactic(auto, using(crate::proofs::passing::Lent::wrong_way, crate::proofs::passing::Lent::over_long))]
fn would_pass(mem: &[u8], first: Addr, last: Addr) -> bool
    ensures { result ≡ would_pass mem.now first.0 last.0 }
{
    if last.0 < first.0 {
        return false;
    }
    let n = (last.0 - first.0) as usize + 1;
    if n > LONGEST_WINDOW {
        return false;
    }
    let mut marks = [0u8; LONGEST_WINDOW];
    screen(mem, first, last, &mut marks[..n]).is_ok()
}

// Where no longer window and no address comes.
fn end_of(first: Addr) -> usize
    ensures { result ≡ min (first.0 + longest_window) 65536 }
{
    (first.0 as usize + LONGEST_WINDOW).min(65536)
}

// The lowest last address from one on, below an end.
#[tactic(auto, using(crate::proofs::passing::Searching::none_left, crate::proofs::passing::Searching::found_here, crate::proofs::passing::Searching::not_here))]
fn lowest(mem: &[u8], first: Addr, from: usize, end: usize) -> Option<Addr>
    requires { end ≤ 65536 }
    ensures { result ≡ lowest mem.now first.0 from (end - from) }
{
    for at in from..end {
        let last = Addr(at as u16);
        if would_pass(mem, first, last) {
            return Some(last);
        }
    }
    None
}

// The highest of so many last addresses, from the first address on.
#[tactic(auto, using(crate::proofs::passing::Searching::none_below, crate::proofs::passing::Searching::found_at_top, crate::proofs::passing::Searching::not_at_top))]
fn highest(mem: &[u8], first: Addr, count: u16) -> Option<Addr>
    requires { first.0 + count ≤ 65536 }
    ensures { result ≡ highest mem.now first.0 count }
{
    for left in (0..count).rev() {
        let last = Addr(first.0 + left);
        if would_pass(mem, first, last) {
            return Some(last);
        }
    }
    None
}

// The nearest last address above this one with which the window passes.
pub fn passing_above(mem: &[u8], first: Addr, last: Addr) -> Option<Addr>
    ensures { result ≡ passing_above mem.now first.0 last.0 }
{
    lowest(mem, first, last.0 as usize + 1, end_of(first))
}

// The nearest one below it.
#[tactic(auto, using(crate::proofs::passing::Searching::none_below))]
pub fn passing_below(mem: &[u8], first: Addr, last: Addr) -> Option<Addr>
    ensures { result ≡ passing_below mem.now first.0 last.0 }
{
    if last.0 < first.0 {
        return None;
    }
    highest(mem, first, last.0 - first.0)
}
