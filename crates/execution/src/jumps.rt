// Jumps, calls and returns.
ghost use Rattle.std.specs.Prelude.{◌&&◌, ◌≡◌, eqb, if◌then◌else◌};
ghost use Rattle.outcome.specs.declared.Outcome.TheVariants.{Normal, InfiniteLoop};
ghost use Rattle.sm83.specs.State.{set_pc};
ghost use Rattle.bus.specs.Leads.{Runs};
ghost use Rattle.execution.specs.Mirror.{jp_made, jr_made, call_made, call_if_made, ret_made, ret_if_made, reti_made};
ghost use Rattle.execution.specs.Worked.{worked};
ghost use Rattle.execution.specs.Unless.{IdlesUnless};

use crate::Made;
use crate::results::normal;
use bus::{Left, Memory, Port, idle};
use instruction::Condition;
use instruction::conditions::{check_cond, is_unconditional};
use operands::stack::{stack_pop, stack_push};
use outcome::Outcome;
use sm83::state::with_registers;
use sm83::{Addr, Cpu};

// PC is the target; the outcome says whether a sure jump is to its own start.
pub fn jump(cpu: Cpu, port: Port, to: u16, at: Addr, sure: bool) -> Left<Made>
    ensures { result ≡ worked (set_pc to cpu) port 0 (if sure && eqb to at.0 then InfiniteLoop else Normal) }
{
    let mut regs = cpu.registers;
    let pc = Addr(to);
    regs.pc = pc;
    let s = with_registers(cpu, regs);
    let looping = sure & (to == at.0);
    if looping {
        Left {
            cpu: s,
            port: port,
            value: Made {
                value: 0,
                outcome: Outcome::InfiniteLoop,
            },
        }
    } else {
        normal(s, port, 0)
    }
}

pub fn jp(cpu: Cpu, port: Port, cond: Condition, to: u16, at: Addr, mem: &mut Memory) -> Left<Made>
    ensures { Runs (jp_made cond at.0 to) cpu port mem.old result.value result.cpu result.port mem.new }
{
    let regs = cpu.registers;
    let go = check_cond(cond, regs.f);
    if go {
        let p = idle(port, mem);
        jump(cpu, p, to, at, is_unconditional(cond))
    } else {
        normal(cpu, port, 0)
    }
}

pub fn jr(cpu: Cpu, port: Port, cond: Condition, by: u16, at: Addr, mem: &mut Memory) -> Left<Made>
    ensures { Runs (jr_made cond at.0 by) cpu port mem.old result.value result.cpu result.port mem.new }
{
    let regs = cpu.registers;
    let go = check_cond(cond, regs.f);
    if go {
        let p = idle(port, mem);
        let pc = regs.pc;
        let to = pc.wrapping_add(by);
        jump(cpu, p, to.0, at, is_unconditional(cond))
    } else {
        normal(cpu, port, 0)
    }
}

// The way back to the stack, then PC.
pub fn call_to(cpu: Cpu, port: Port, to: u16, mem: &mut Memory) -> Left<Made>
    ensures { Runs (call_made to) cpu port mem.old result.value result.cpu result.port mem.new }
{
    let p = idle(port, mem);
    let back = cpu.registers;
    let x = stack_push(cpu, p, back.pc.0, mem);
    let s = x.cpu;
    let q = x.port;
    let mut regs = s.registers;
    let pc = Addr(to);
    regs.pc = pc;
    normal(with_registers(s, regs), q, 0)
}

pub fn call(cpu: Cpu, port: Port, cond: Condition, to: u16, mem: &mut Memory) -> Left<Made>
    ensures { Runs (call_if_made cond to) cpu port mem.old result.value result.cpu result.port mem.new }
{
    let regs = cpu.registers;
    let go = check_cond(cond, regs.f);
    if go {
        call_to(cpu, port, to, mem)
    } else {
        normal(cpu, port, 0)
    }
}

fn ret_now(cpu: Cpu, port: Port, mem: &mut Memory) -> Left<Made>
    ensures { Runs ret_made cpu port mem.old result.value result.cpu result.port mem.new }
{
    let x = stack_pop(cpu, port, mem);
    let s = x.cpu;
    let p = x.port;
    let q = idle(p, mem);
    let mut regs = s.registers;
    let pc = Addr(x.value);
    regs.pc = pc;
    normal(with_registers(s, regs), q, 0)
}

// A return that is not sure idles before its condition is looked at.
fn idle_unless(sure: bool, port: Port, mem: &mut Memory) -> Port
    ensures { IdlesUnless sure port mem.old result mem.new }
{
    if sure { port } else { idle(port, mem) }
}

pub fn ret(cpu: Cpu, port: Port, cond: Condition, mem: &mut Memory) -> Left<Made>
    ensures { Runs (ret_if_made cond) cpu port mem.old result.value result.cpu result.port mem.new }
{
    let p = idle_unless(is_unconditional(cond), port, mem);
    let regs = cpu.registers;
    let go = check_cond(cond, regs.f);
    if go {
        ret_now(cpu, p, mem)
    } else {
        normal(cpu, p, 0)
    }
}

pub fn reti(cpu: Cpu, port: Port, mem: &mut Memory) -> Left<Made>
    ensures { Runs reti_made cpu port mem.old result.value result.cpu result.port mem.new }
{
    let x = stack_pop(cpu, port, mem);
    let p = x.port;
    let q = idle(p, mem);
    let mut s = x.cpu;
    let mut regs = s.registers;
    let pc = Addr(x.value);
    regs.pc = pc;
    s.registers = regs;
    s.ime = true;
    normal(s, q, 0)
}
