// Where an operand comes from.
ghost use Rattle.std.specs.Prelude.{◌≡◌, T};
ghost use Rattle.definition.specs.Execution.{imm8, give};
ghost use Rattle.instruction.specs.declared.OperandType.TheVariants.{Imm8Signed, HighAddr8, Addr16};
ghost use Rattle.bus.specs.Leads.{Runs};
ghost use Rattle.operands.specs.Keeps.{Keeps};
ghost use Rattle.operands.specs.Operands.{read_operand, read_moving};
ghost use Rattle.instruction.specs.Operand.{readable};

use arithmetic::words::sign_extended;
use bus::access::{high, load};
use bus::fetch::{fetch_next_pc, fetch16};
use bus::{AccessKind, Left, Memory, Port};
use instruction::OperandType;
use sm83::state::with_registers;
use sm83::{Addr, Cpu};

// The byte at HL, which then is moved on or back.
fn read_moving(cpu: Cpu, port: Port, hl: Addr, after: Addr, mem: &mut Memory) -> Left<u16>
    ensures { Runs (read_moving hl.0 after.0) cpu port mem.old result.value result.cpu result.port mem.new }
{
    let got = bus::read(port, mem, AccessKind::Operand, hl);
    let p = got.port;
    let regs = cpu.registers;
    let s = with_registers(cpu, regs.reg_hl_write(after.0));
    Left {
        cpu: s,
        port: p,
        value: got.value as u16,
    }
}

fn read_imm8(cpu: Cpu, port: Port, mem: &mut Memory) -> Left<u16>
    ensures { Runs imm8 cpu port mem.old result.value result.cpu result.port mem.new }
{
    let x = fetch_next_pc(cpu, port, AccessKind::Operand, mem);
    let s = x.cpu;
    let p = x.port;
    Left {
        cpu: s,
        port: p,
        value: x.value as u16,
    }
}

fn read_signed(cpu: Cpu, port: Port, mem: &mut Memory) -> Left<u16>
    ensures { Runs (read_operand Imm8Signed) cpu port mem.old result.value result.cpu result.port mem.new }
{
    let x = fetch_next_pc(cpu, port, AccessKind::Operand, mem);
    let s = x.cpu;
    let p = x.port;
    Left {
        cpu: s,
        port: p,
        value: sign_extended(x.value),
    }
}

fn read_high(cpu: Cpu, port: Port, mem: &mut Memory) -> Left<u16>
    ensures { Runs (read_operand HighAddr8) cpu port mem.old result.value result.cpu result.port mem.new }
{
    let x = fetch_next_pc(cpu, port, AccessKind::Operand, mem);
    let s = x.cpu;
    let p = x.port;
    load(s, p, high(x.value), mem)
}

fn read_at16(cpu: Cpu, port: Port, mem: &mut Memory) -> Left<u16>
    ensures { Runs (read_operand Addr16) cpu port mem.old result.value result.cpu result.port mem.new }
{
    let x = fetch16(cpu, port, mem);
    let s = x.cpu;
    let p = x.port;
    load(s, p, Addr(x.value), mem)
}

// A value that is at hand: no access, whatever memory holds.
fn held(cpu: Cpu, port: Port, value: u16) -> Left<u16>
    ensures { Keeps (give value) cpu port result.value result.cpu result.port }
{
    Left {
        cpu: cpu,
        port: port,
        value: value,
    }
}

pub fn read_operand(cpu: Cpu, port: Port, ty: OperandType, mem: &mut Memory) -> Left<u16>
    requires { T (readable ty) }
    ensures { Runs (read_operand ty) cpu port mem.old result.value result.cpu result.port mem.new }
{
    let hl = Addr(cpu.registers.reg_hl_read());
    match ty {
        OperandType::RegA => held(cpu, port, cpu.registers.a as u16),
        OperandType::RegB => held(cpu, port, cpu.registers.b as u16),
        OperandType::RegC => held(cpu, port, cpu.registers.c as u16),
        OperandType::RegD => held(cpu, port, cpu.registers.d as u16),
        OperandType::RegE => held(cpu, port, cpu.registers.e as u16),
        OperandType::RegH => held(cpu, port, cpu.registers.h as u16),
        OperandType::RegL => held(cpu, port, cpu.registers.l as u16),
        OperandType::AddrHL => load(cpu, port, hl, mem),
        OperandType::AddrHLDec => read_moving(cpu, port, hl, hl.wrapping_sub(1), mem),
        OperandType::AddrHLInc => read_moving(cpu, port, hl, hl.wrapping_add(1), mem),
        OperandType::AddrBC => load(cpu, port, Addr(cpu.registers.reg_bc_read()), mem),
        OperandType::AddrDE => load(cpu, port, Addr(cpu.registers.reg_de_read()), mem),
        OperandType::RegAF => held(cpu, port, cpu.registers.reg_af_read()),
        OperandType::RegBC => held(cpu, port, cpu.registers.reg_bc_read()),
        OperandType::RegDE => held(cpu, port, cpu.registers.reg_de_read()),
        OperandType::RegHL => held(cpu, port, cpu.registers.reg_hl_read()),
        OperandType::RegSP => held(cpu, port, cpu.registers.sp.0),
        OperandType::Imm8 => read_imm8(cpu, port, mem),
        OperandType::Imm8Signed => read_signed(cpu, port, mem),
        OperandType::Imm16 => fetch16(cpu, port, mem),
        OperandType::HighAddr8 => read_high(cpu, port, mem),
        OperandType::HighAddrC => load(cpu, port, high(cpu.registers.c), mem),
        OperandType::Addr16 => read_at16(cpu, port, mem),
        // an operand that is never read: no call gets here
        OperandType::Addr16Val16 => unreachable!(),
        OperandType::Implied => held(cpu, port, 0),
    }
}
