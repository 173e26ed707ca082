// The operations on words, and PUSH and POP: each idles or uses the stack.
ghost use Rattle.std.specs.Prelude.{◌≡◌};
ghost use Rattle.bus.specs.Leads.{Runs};
ghost use Rattle.execution.specs.Mirror.{load_sp_made, load_hl_made, add_sp_made, add_hl_made, after_idle_made, push_made, pop_made};
ghost use Rattle.execution.specs.Worked.{offset_by};

use crate::Made;
use crate::results::{normal, with_flags};
use arithmetic::words::{add_signed8, add16};
use bus::{Left, Memory, Port, idle};
use operands::stack::{stack_pop, stack_push};
use sm83::state::with_registers;
use sm83::{Addr, Cpu};

pub fn ld_sp_hl(cpu: Cpu, port: Port, mem: &mut Memory) -> Left<Made>
    ensures { Runs load_sp_made cpu port mem.old result.value result.cpu result.port mem.new }
{
    let p = idle(port, mem);
    let mut regs = cpu.registers;
    let hl = Addr(regs.reg_hl_read());
    regs.sp = hl;
    normal(with_registers(cpu, regs), p, 0)
}

// SP and a signed byte, with their flags.
fn add_offset(cpu: Cpu, port: Port, value: u16) -> Left<Made>
    ensures { result ≡ offset_by cpu port value }
{
    let regs = cpu.registers;
    let x = add_signed8(regs.sp.0, value);
    with_flags(cpu, port, x.flags, x.value)
}

pub fn ld_hl_sp(cpu: Cpu, port: Port, value: u16, mem: &mut Memory) -> Left<Made>
    ensures { Runs (load_hl_made value) cpu port mem.old result.value result.cpu result.port mem.new }
{
    let p = idle(port, mem);
    add_offset(cpu, p, value)
}

pub fn add_sp(cpu: Cpu, port: Port, value: u16, mem: &mut Memory) -> Left<Made>
    ensures { Runs (add_sp_made value) cpu port mem.old result.value result.cpu result.port mem.new }
{
    let p = idle(port, mem);
    let q = idle(p, mem);
    add_offset(cpu, q, value)
}

pub fn add_hl(cpu: Cpu, port: Port, value: u16, mem: &mut Memory) -> Left<Made>
    ensures { Runs (add_hl_made value) cpu port mem.old result.value result.cpu result.port mem.new }
{
    let p = idle(port, mem);
    let regs = cpu.registers;
    let x = add16(regs.reg_hl_read(), value, regs.f);
    with_flags(cpu, p, x.flags, x.value)
}

// A word after one M-cycle: INC and DEC of a pair.
pub fn after_idle(cpu: Cpu, port: Port, word: Addr, mem: &mut Memory) -> Left<Made>
    ensures { Runs (after_idle_made word.0) cpu port mem.old result.value result.cpu result.port mem.new }
{
    let p = idle(port, mem);
    normal(cpu, p, word.0)
}

pub fn push_word(cpu: Cpu, port: Port, value: u16, mem: &mut Memory) -> Left<Made>
    ensures { Runs (push_made value) cpu port mem.old result.value result.cpu result.port mem.new }
{
    let p = idle(port, mem);
    let x = stack_push(cpu, p, value, mem);
    let s = x.cpu;
    let q = x.port;
    normal(s, q, 0)
}

pub fn pop_word(cpu: Cpu, port: Port, mem: &mut Memory) -> Left<Made>
    ensures { Runs pop_made cpu port mem.old result.value result.cpu result.port mem.new }
{
    let x = stack_pop(cpu, port, mem);
    let s = x.cpu;
    let p = x.port;
    normal(s, p, x.value)
}
