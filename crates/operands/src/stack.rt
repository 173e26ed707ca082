// The stack: it grows down, and a word's high byte goes first.
ghost use Rattle.std.specs.Prelude.{◌≡◌};
ghost use Rattle.definition.specs.Execution.{push, pop};
ghost use Rattle.bus.specs.Leads.{Runs};

use bus::{AccessKind, Left, Memory, Port};
use sm83::Cpu;
use sm83::registers::pair;
use sm83::state::with_registers;

pub fn stack_push(cpu: Cpu, port: Port, value: u16, mem: &mut Memory) -> Left<()>
    ensures { Runs (push value) cpu port mem.old tt result.cpu result.port mem.new }
{
    let mut regs = cpu.registers;
    let sp = regs.sp;
    let first = sp.wrapping_sub(1);
    let p = bus::write(port, mem, AccessKind::Stack, first, (value / 256) as u8);
    let second = first.wrapping_sub(1);
    let q = bus::write(p, mem, AccessKind::Stack, second, (value % 256) as u8);
    regs.sp = second;
    let s = with_registers(cpu, regs);
    Left {
        cpu: s,
        port: q,
        value: (),
    }
}

pub fn stack_pop(cpu: Cpu, port: Port, mem: &mut Memory) -> Left<u16>
    ensures { Runs pop cpu port mem.old result.value result.cpu result.port mem.new }
{
    let mut regs = cpu.registers;
    let first = regs.sp;
    let low = bus::read(port, mem, AccessKind::Stack, first);
    let p = low.port;
    let second = first.wrapping_add(1);
    let high = bus::read(p, mem, AccessKind::Stack, second);
    let q = high.port;
    let after = second.wrapping_add(1);
    regs.sp = after;
    let s = with_registers(cpu, regs);
    Left {
        cpu: s,
        port: q,
        value: pair(high.value, low.value),
    }
}
