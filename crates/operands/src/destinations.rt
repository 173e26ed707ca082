// Where a result goes.
ghost use Rattle.std.specs.Prelude.{T};
ghost use Rattle.definition.specs.Execution.{set_reg};
ghost use Rattle.bus.specs.Leads.{Runs};
ghost use Rattle.operands.specs.Keeps.{Keeps};
ghost use Rattle.operands.specs.Operands.{write_operand};
ghost use Rattle.instruction.specs.Operand.{writable};

use crate::places::{write_at16, write_high, write_moving, write_word_at16};
use bus::access::{high, store};
use bus::{Left, Memory, Port};
use instruction::OperandType;
use sm83::state::with_registers;
use sm83::{Addr, Cpu, CpuRegisters};

// The registers are put back into the state: no access, whatever memory holds.
fn left(cpu: Cpu, port: Port, regs: CpuRegisters) -> Left<()>
    ensures { Keeps (set_reg (λ _. regs)) cpu port tt result.cpu result.port }
{
    let s = with_registers(cpu, regs);
    Left {
        cpu: s,
        port: port,
        value: (),
    }
}

// A register of one byte takes the low byte of the value.
pub fn write_operand(
    cpu: Cpu,
    port: Port,
    ty: OperandType,
    value: u16,
    mem: &mut Memory,
) -> Left<()>
    requires { T (writable ty) }
    ensures { Runs (write_operand ty value) cpu port mem.old tt result.cpu result.port mem.new }
{
    let mut regs = cpu.registers;
    let low = (value % 256) as u8;
    let hl = Addr(regs.reg_hl_read());
    match ty {
        OperandType::RegA => {
            regs.a = low;
            left(cpu, port, regs)
        }
        OperandType::RegB => {
            regs.b = low;
            left(cpu, port, regs)
        }
        OperandType::RegC => {
            regs.c = low;
            left(cpu, port, regs)
        }
        OperandType::RegD => {
            regs.d = low;
            left(cpu, port, regs)
        }
        OperandType::RegE => {
            regs.e = low;
            left(cpu, port, regs)
        }
        OperandType::RegH => {
            regs.h = low;
            left(cpu, port, regs)
        }
        OperandType::RegL => {
            regs.l = low;
            left(cpu, port, regs)
        }
        OperandType::AddrHL => store(cpu, port, hl, low, mem),
        OperandType::AddrHLDec => write_moving(cpu, port, hl, hl.wrapping_sub(1), low, mem),
        OperandType::AddrHLInc => write_moving(cpu, port, hl, hl.wrapping_add(1), low, mem),
        OperandType::AddrBC => store(cpu, port, Addr(regs.reg_bc_read()), low, mem),
        OperandType::AddrDE => store(cpu, port, Addr(regs.reg_de_read()), low, mem),
        OperandType::RegAF => left(cpu, port, regs.reg_af_write(value)),
        OperandType::RegBC => left(cpu, port, regs.reg_bc_write(value)),
        OperandType::RegDE => left(cpu, port, regs.reg_de_write(value)),
        OperandType::RegHL => left(cpu, port, regs.reg_hl_write(value)),
        OperandType::RegSP => {
            let sp = Addr(value);
            regs.sp = sp;
            left(cpu, port, regs)
        }
        // operands that are never written: no call gets here
        OperandType::Imm8 => unreachable!(),
        OperandType::Imm8Signed => unreachable!(),
        OperandType::Imm16 => unreachable!(),
        OperandType::HighAddr8 => write_high(cpu, port, value, mem),
        OperandType::HighAddrC => store(cpu, port, high(regs.c), low, mem),
        OperandType::Addr16 => write_at16(cpu, port, value, mem),
        OperandType::Addr16Val16 => write_word_at16(cpu, port, value, mem),
        OperandType::Implied => left(cpu, port, regs),
    }
}
