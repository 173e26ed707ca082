// Interrupts on plain memory. Peeking at one costs nothing; taking it is part of the push that does.
ghost use Rattle.std.specs.Prelude.{◌≡◌};
ghost use Rattle.definition.specs.Bus.{lowest};
ghost use Rattle.bus.specs.World.{Peeks, Takes};
ghost use Rattle.bus.specs.Requests.{Sees, Clears, SeesAndTakes};

use crate::{AccessKind, Got, Memory, Port, write};
use outcome::interrupt::InterruptType;
use sm83::Addr;

// "the lowest set bit wins"
fn lowest(x: u8) -> Option<InterruptType>
    ensures { result ≡ lowest x }
{
    let first = x % 2 == 1;
    let second = x / 2 % 2 == 1;
    let third = x / 4 % 2 == 1;
    let fourth = x / 8 % 2 == 1;
    let fifth = x / 16 % 2 == 1;
    if first {
        Some(InterruptType::Vblank)
    } else if second {
        Some(InterruptType::LcdStat)
    } else if third {
        Some(InterruptType::Timer)
    } else if fourth {
        Some(InterruptType::Serial)
    } else if fifth {
        Some(InterruptType::Joypad)
    } else {
        None
    }
}

// The lowest bit that is requested and enabled, of the bytes as they lie there; the processor peeks.
pub fn lowest_pending(mem: &mut Memory) -> Option<InterruptType>
    ensures { Sees mem.old result mem.new }
{
    let requested = mem[0xff0f];
    let enabled = mem[0xffff];
    lowest(requested & enabled & 0x1f)
}

pub fn peek_next_interrupt(mem: &mut Memory) -> Option<InterruptType>
    ensures { Peeks mem.old result mem.new }
{
    lowest_pending(mem)
}

fn acknowledge(mem: &mut Memory, interrupt: InterruptType)
    ensures { Clears interrupt mem.old mem.new }
{
    let requested = mem[0xff0f];
    let n = interrupt.number();
    mem[0xff0f] = requested & !(1 << n);
}

// Clears the bit of the interrupt that it answers.
fn take_next_interrupt(mem: &mut Memory) -> Option<InterruptType>
    ensures { SeesAndTakes mem.old result mem.new }
{
    let next = lowest_pending(mem);
    match next {
        None => next,
        Some(interrupt) => {
            acknowledge(mem, interrupt);
            Some(interrupt)
        }
    }
}

// The push that takes an interrupt: one access.
pub fn write_and_take(port: Port, mem: &mut Memory, a: Addr, v: u8) -> Got<Option<InterruptType>>
    ensures { Takes a.0 v port mem.old result.value result.port mem.new }
{
    let p = write(port, mem, AccessKind::Stack, a, v);
    let next = take_next_interrupt(mem);
    Got {
        port: p,
        value: next,
    }
}
