// Point 4: an interrupt is taken.
ghost use Rattle.std.specs.Prelude.{◌≡◌};
ghost use Rattle.definition.specs.Step.{vector, entry_of, dispatched_as, dispatch};
ghost use Rattle.bus.specs.World.{Looks};
ghost use Rattle.bus.specs.Leads.{Runs};
ghost use Rattle.step.specs.Stages.{interrupted};

use bus::interrupts::{peek_next_interrupt, write_and_take};
use bus::{AccessKind, Left, Memory, Port};
use outcome::Outcome;
use outcome::interrupt::{InterruptType, is_pending};
use sm83::{Addr, Cpu};

const INTERRUPTS_VECTOR: [u16; 5] = [0x40, 0x48, 0x50, 0x58, 0x60];

// Where an interrupt goes.
pub fn vector(interrupt: InterruptType) -> u16
    ensures { result ≡ vector interrupt }
{
    INTERRUPTS_VECTOR[interrupt.number() as usize]
}

// "PC is its vector .. If none is left, PC is 0"
pub fn entry_of(next: Option<InterruptType>) -> u16
    ensures { result ≡ entry_of next }
{
    match next {
        None => 0,
        Some(interrupt) => vector(interrupt),
    }
}

// Which interrupt runs, or that it was cancelled.
pub fn dispatched_as(next: Option<InterruptType>) -> Outcome
    ensures { result ≡ dispatched_as next }
{
    match next {
        None => Outcome::Normal,
        Some(interrupt) => Outcome::RunningInterrupt(interrupt),
    }
}

// 4. PC is pushed, and the interrupt is taken between its two bytes.
pub fn dispatch(cpu: Cpu, port: Port, mem: &mut Memory) -> Left<Outcome>
    ensures { Runs dispatch cpu port mem.old result.value result.cpu result.port mem.new }
{
    let mut regs = cpu.registers;
    let pc = regs.pc;
    let sp = regs.sp;
    let first = sp.wrapping_sub(1);
    let got = write_and_take(port, mem, first, (pc.0 / 256) as u8);
    let next = got.value;
    let p = got.port;
    let second = first.wrapping_sub(1);
    let q = bus::write(p, mem, AccessKind::Stack, second, (pc.0 % 256) as u8);
    let t = bus::idle(q, mem);
    let u = bus::idle(t, mem);
    let v = bus::idle(u, mem);
    let to = Addr(entry_of(next));
    regs.sp = second;
    regs.pc = to;
    let mut s = cpu;
    s.registers = regs;
    s.ime = false;
    Left {
        cpu: s,
        port: v,
        value: dispatched_as(next),
    }
}

// IME set and an interrupt pending.
pub fn is_interrupted(ime: bool, mem: &mut Memory) -> bool
    ensures { Looks (interrupted ime) mem.old result mem.new }
{
    if ime {
        let next = peek_next_interrupt(mem);
        is_pending(next)
    } else {
        false
    }
}
