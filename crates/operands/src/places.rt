// Where a result goes in memory, with what comes before or after the access: HL moved, an address fetched, a second byte.
ghost use Rattle.instruction.specs.declared.OperandType.TheVariants.{HighAddr8, Addr16, Addr16Val16};
ghost use Rattle.bus.specs.Leads.{Runs};
ghost use Rattle.operands.specs.Operands.{write_operand, write_moving};

use bus::access::{high, store};
use bus::fetch::{fetch_next_pc, fetch16};
use bus::{AccessKind, Left, Memory, Port};
use sm83::state::with_registers;
use sm83::{Addr, Cpu};

// A byte to HL, which then is moved on or back.
pub fn write_moving(
    cpu: Cpu,
    port: Port,
    hl: Addr,
    after: Addr,
    v: u8,
    mem: &mut Memory,
) -> Left<()>
    ensures { Runs (write_moving hl.0 after.0 v) cpu port mem.old tt result.cpu result.port mem.new }
{
    let p = bus::write(port, mem, AccessKind::Operand, hl, v);
    let regs = cpu.registers;
    let s = with_registers(cpu, regs.reg_hl_write(after.0));
    Left {
        cpu: s,
        port: p,
        value: (),
    }
}

pub fn write_high(cpu: Cpu, port: Port, value: u16, mem: &mut Memory) -> Left<()>
    ensures { Runs (write_operand HighAddr8 value) cpu port mem.old tt result.cpu result.port mem.new }
{
    let x = fetch_next_pc(cpu, port, AccessKind::Operand, mem);
    let s = x.cpu;
    let p = x.port;
    store(s, p, high(x.value), (value % 256) as u8, mem)
}

pub fn write_at16(cpu: Cpu, port: Port, value: u16, mem: &mut Memory) -> Left<()>
    ensures { Runs (write_operand Addr16 value) cpu port mem.old tt result.cpu result.port mem.new }
{
    let x = fetch16(cpu, port, mem);
    let s = x.cpu;
    let p = x.port;
    store(s, p, Addr(x.value), (value % 256) as u8, mem)
}

// The low byte first.
pub fn write_word_at16(cpu: Cpu, port: Port, value: u16, mem: &mut Memory) -> Left<()>
    ensures { Runs (write_operand Addr16Val16 value) cpu port mem.old tt result.cpu result.port mem.new }
{
    let x = fetch16(cpu, port, mem);
    let s = x.cpu;
    let p = x.port;
    let a = Addr(x.value);
    let q = bus::write(p, mem, AccessKind::Operand, a, (value % 256) as u8);
    store(s, q, a.wrapping_add(1), (value / 256) as u8, mem)
}
