// What an instruction does between its operands: the match of `exec_instruction`.
ghost use Rattle.std.specs.Prelude.{T};
ghost use Rattle.bus.specs.Leads.{Runs};
ghost use Rattle.execution.specs.Mirror.{compute};
ghost use Rattle.execution.specs.Runnable.{executable};

use crate::Made;
use crate::halt::halt;
use crate::illegal::illegal;
use crate::jumps::{call, call_to, jp, jr, jump, ret, reti};
use crate::results::{breakpoint, di, ei, normal, stop, with_a, with_flags, with_result};
use crate::words::{add_hl, add_sp, after_idle, ld_hl_sp, ld_sp_hl, pop_word, push_word};
use arithmetic::decimal::daa;
use arithmetic::sums::{adc, add, cp, dec, inc, sbc, sub};
use bits::logic::{and, ccf, cpl, or, scf, xor};
use bits::shifts::{rl, rla, rlc, rlca, rr, rra, rrc, rrca, sla, sra, srl, swap};
use bits::single_bits::{bit, res, set};
use bus::{Left, Memory, Port};
use instruction::Opcode;
use sm83::{Addr, Cpu};

// The match in the order of the Rust. The fetch takes the opcode behind PREFIX.
pub fn compute(
    cpu: Cpu,
    port: Port,
    opcode: Opcode,
    src: u16,
    at: Addr,
    mem: &mut Memory,
) -> Left<Made>
    requires { T (executable opcode) }
    ensures { Runs (compute opcode at.0 src) cpu port mem.old result.value result.cpu result.port mem.new }
{
    let regs = cpu.registers;
    let a = regs.a;
    let f = regs.f;
    let x = (src % 256) as u8;
    match opcode {
        Opcode::Nop => normal(cpu, port, 0),
        Opcode::Ld => normal(cpu, port, src),
        Opcode::LdBB => breakpoint(cpu, port),
        Opcode::LdSPHL => ld_sp_hl(cpu, port, mem),
        Opcode::LdHLSPSigned8 => ld_hl_sp(cpu, port, src, mem),
        Opcode::Push => push_word(cpu, port, src, mem),
        Opcode::Pop => pop_word(cpu, port, mem),
        Opcode::Inc16 => after_idle(cpu, port, Addr(src).wrapping_add(1), mem),
        Opcode::Inc => with_result(cpu, port, inc(x, f)),
        Opcode::Dec16 => after_idle(cpu, port, Addr(src).wrapping_sub(1), mem),
        Opcode::Dec => with_result(cpu, port, dec(x, f)),
        Opcode::Add => with_result(cpu, port, add(a, x)),
        Opcode::Add16 => add_hl(cpu, port, src, mem),
        Opcode::AddSPSigned8 => add_sp(cpu, port, src, mem),
        Opcode::Adc => with_result(cpu, port, adc(a, x, f)),
        Opcode::Sub => with_result(cpu, port, sub(a, x)),
        Opcode::Cp => with_flags(cpu, port, cp(a, x), a as u16),
        Opcode::Sbc => with_result(cpu, port, sbc(a, x, f)),
        Opcode::And => with_result(cpu, port, and(a, x)),
        Opcode::Xor => with_result(cpu, port, xor(a, x)),
        Opcode::Or => with_result(cpu, port, or(a, x)),
        Opcode::Jp(cond) => jp(cpu, port, cond, src, at, mem),
        Opcode::JpHL => jump(cpu, port, src, at, true),
        Opcode::Jr(cond) => jr(cpu, port, cond, src, at, mem),
        Opcode::Call(cond) => call(cpu, port, cond, src, mem),
        Opcode::Ret(cond) => ret(cpu, port, cond, mem),
        Opcode::Reti => reti(cpu, port, mem),
        Opcode::Rst(vector) => call_to(cpu, port, vector as u16, mem),
        Opcode::Di => di(cpu, port),
        Opcode::Ei => ei(cpu, port),
        Opcode::Ccf => with_a(cpu, port, ccf(a, f)),
        Opcode::Scf => with_a(cpu, port, scf(a, f)),
        Opcode::Daa => with_a(cpu, port, daa(a, f)),
        Opcode::Cpl => with_a(cpu, port, cpl(a, f)),
        Opcode::Rlca => with_a(cpu, port, rlca(a)),
        Opcode::Rla => with_a(cpu, port, rla(a, f)),
        Opcode::Rrca => with_a(cpu, port, rrca(a)),
        Opcode::Rra => with_a(cpu, port, rra(a, f)),
        Opcode::Rlc => with_result(cpu, port, rlc(x)),
        Opcode::Rrc => with_result(cpu, port, rrc(x)),
        Opcode::Rl => with_result(cpu, port, rl(x, f)),
        Opcode::Rr => with_result(cpu, port, rr(x, f)),
        Opcode::Sla => with_result(cpu, port, sla(x)),
        Opcode::Sra => with_result(cpu, port, sra(x)),
        Opcode::Swap => with_result(cpu, port, swap(x)),
        Opcode::Srl => with_result(cpu, port, srl(x)),
        Opcode::Bit(n) => with_flags(cpu, port, bit(n, x, f), 0),
        Opcode::Res(n) => normal(cpu, port, res(n, x) as u16),
        Opcode::Set(n) => normal(cpu, port, set(n, x) as u16),
        Opcode::Halt => halt(cpu, port, mem),
        Opcode::Stop => stop(cpu, port),
        Opcode::Illegal => illegal(cpu, port, at),
        // PREFIX is never executed: no call gets here
        Opcode::Prefix => unreachable!(),
    }
}
