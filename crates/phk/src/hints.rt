// What a refusal of the screen comes to here: the forbidden instruction by its name, where the jump goes and what stands there, and with
// which last address the window would pass.
ghost use Rattle.std.specs.Prelude.{◌≡◌};
ghost use Rattle.phk.specs.View.{held_alone};

use crate::page::print;
use crate::said::{Host, Stream};
use crate::sentences::byte;
use crate::view::{Held, holds};
use crate::window::{Window, behind};
use map::barred::{Barred, barred_as};
use map::passing::{passing_above, passing_below};
use map::place::{Place, place_of};
use map::target::target_at;
use routine::ScreenRefusal;
use sm83::Addr;

fn this_is(host: &Host, name: &[u8]) {
    print(host, Stream::Output, b"this is @\n", &[], name);
}

// 7: the instruction at the address.
fn forbidden(host: &Host, mem: &[u8], at: u16) {
    match barred_as(byte(mem, at)) {
        None => {}
        Some(Barred::Illegal) => this_is(host, b"no instruction of the SM83"),
        Some(Barred::Stop) => this_is(host, b"STOP"),
        Some(Barred::Halt) => this_is(host, b"HALT"),
        Some(Barred::Ei) => this_is(host, b"EI"),
        Some(Barred::Reti) => this_is(host, b"RETI"),
        Some(Barred::JpHl) => this_is(host, b"JP HL"),
        Some(Barred::Call) => this_is(host, b"a CALL"),
        Some(Barred::Rst) => this_is(host, b"an RST"),
    }
}

// A jump to a start is not refused, and nothing is said of it.
fn goes(host: &Host, mem: &[u8], window: Window, at: u16, to: Addr) {
    let from = u64::from(at);
    let target = u64::from(to.0);
    match place_of(mem, Addr(window.first), Addr(window.last), to) {
        Place::Outside => print(
            host,
            Stream::Output,
            b"the jump at # goes to #, outside the window\n",
            &[from, target],
            b"",
        ),
        Place::Start => {}
        Place::Inside(start) => print(
            host,
            Stream::Output,
            b"the jump at # goes to #, inside the instruction at #\n",
            &[from, target, u64::from(start.0)],
            b"",
        ),
    }
}

// 10: the jump at the address.
fn jump(host: &Host, mem: &[u8], window: Window, at: u16) {
    if let Some(to) = target_at(mem, Addr(at)) {
        goes(host, mem, window, at, to);
    }
}

// A last address counts if the image has the whole window.
fn held_alone(held: Held, first: u16, found: Option<Addr>) -> Option<Addr>
    ensures { result ≡ held_alone held first found }
{
    let last = found?;
    if holds(held, first, behind(last.0, first) as u32 + 1) {
        Some(last)
    } else {
        None
    }
}

// 8 and 9: the nearest last addresses, below and above this one.
fn would_pass(host: &Host, mem: &[u8], window: Window, held: Held) {
    let first = Addr(window.first);
    let last = Addr(window.last);
    let above = held_alone(held, window.first, passing_above(mem, first, last));
    match (passing_below(mem, first, last), above) {
        (Some(low), Some(high)) => print(
            host,
            Stream::Output,
            b"the window would pass up to # or up to #\n",
            &[u64::from(low.0), u64::from(high.0)],
            b"",
        ),
        (Some(end), None) | (None, Some(end)) => print(
            host,
            Stream::Output,
            b"the window would pass up to #\n",
            &[u64::from(end.0)],
            b"",
        ),
        (None, None) => print(
            host,
            Stream::Output,
            b"no other last address in IMAGE makes the window from # pass\n",
            &[u64::from(window.first)],
            b"",
        ),
    }
}

// After the rule that a refusal with an address names; of another refusal there is no more to say.
pub fn hint(host: &Host, mem: &[u8], refusal: ScreenRefusal, window: Window, at: u16, held: Held) {
    match refusal {
        ScreenRefusal::ForbiddenOpcode => forbidden(host, mem, at),
        ScreenRefusal::PastTheEnd | ScreenRefusal::FallsThrough => would_pass(
            host, mem, window, held,
        ),
        ScreenRefusal::JumpUnmarked => jump(host, mem, window, at),
        _ => {}
    }
}
