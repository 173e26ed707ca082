// Bytes at PC.
ghost use Rattle.std.specs.Prelude.{◌≡◌};
ghost use Rattle.definition.specs.Execution.{byte_at_pc, imm16};
ghost use Rattle.bus.specs.World.{kind_of};
ghost use Rattle.bus.specs.Leads.{Runs};

use crate::{AccessKind, Left, Memory, Port};
use sm83::Cpu;
use sm83::registers::pair;

pub fn fetch_next_pc(cpu: Cpu, port: Port, kind: AccessKind, mem: &mut Memory) -> Left<u8>
    ensures { Runs (byte_at_pc (kind_of kind)) cpu port mem.old result.value result.cpu result.port mem.new }
{
    let mut regs = cpu.registers;
    let at = regs.pc;
    let got = crate::read(port, mem, kind, at);
    let p = got.port;
    let after = at.wrapping_add(1);
    regs.pc = after;
    let mut s = cpu;
    s.registers = regs;
    Left {
        cpu: s,
        port: p,
        value: got.value,
    }
}

// The low byte first.
pub fn fetch16(cpu: Cpu, port: Port, mem: &mut Memory) -> Left<u16>
    ensures { Runs imm16 cpu port mem.old result.value result.cpu result.port mem.new }
{
    let x = fetch_next_pc(cpu, port, AccessKind::Operand, mem);
    let c = x.cpu;
    let p = x.port;
    let y = fetch_next_pc(c, p, AccessKind::Operand, mem);
    let d = y.cpu;
    let q = y.port;
    Left {
        cpu: d,
        port: q,
        value: pair(y.value, x.value),
    }
}
