// What comes of an operation: a value to be written, with flags or with none, or A and F at once; STOP, DI, EI and the breakpoint.
ghost use Rattle.std.specs.Prelude.{◌≡◌, true, false};
ghost use Rattle.outcome.specs.declared.Outcome.TheVariants.{Normal, Breakpoint};
ghost use Rattle.sm83.specs.State.{on_registers, write_a, write_f, set_stopped, set_ime, set_latch};
ghost use Rattle.execution.specs.Worked.{worked};

use crate::Made;
use arithmetic::Computed;
use bus::{Left, Port};
use outcome::Outcome;
use sm83::Cpu;
use sm83::state::with_registers;

pub fn normal(cpu: Cpu, port: Port, value: u16) -> Left<Made>
    ensures { result ≡ worked cpu port value Normal }
{
    Left {
        cpu: cpu,
        port: port,
        value: Made {
            value: value,
            outcome: Outcome::Normal,
        },
    }
}

pub fn with_flags(cpu: Cpu, port: Port, flags: u8, value: u16) -> Left<Made>
    ensures { result ≡ worked (on_registers (write_f flags) cpu) port value Normal }
{
    let mut regs = cpu.registers;
    regs.f = flags;
    let s = with_registers(cpu, regs);
    normal(s, port, value)
}

pub fn with_result(cpu: Cpu, port: Port, x: Computed<u8>) -> Left<Made>
    ensures { result ≡ worked (on_registers (write_f x.flags) cpu) port x.value Normal }
{
    with_flags(cpu, port, x.flags, x.value as u16)
}

pub fn with_a(cpu: Cpu, port: Port, x: Computed<u8>) -> Left<Made>
    ensures { result ≡ worked (on_registers (λ q. write_f x.flags (write_a x.value q)) cpu) port 0 Normal }
{
    let mut regs = cpu.registers;
    regs.a = x.value;
    regs.f = x.flags;
    let s = with_registers(cpu, regs);
    normal(s, port, 0)
}

// STOP: the bus is stopped, and every step after it answers so.
pub fn stop(cpu: Cpu, port: Port) -> Left<Made>
    ensures { result ≡ worked (set_stopped true cpu) port 0 Normal }
{
    let mut s = cpu;
    s.stopped = true;
    normal(s, port, 0)
}

pub fn di(cpu: Cpu, port: Port) -> Left<Made>
    ensures { result ≡ worked (set_ime false cpu) port 0 Normal }
{
    let mut s = cpu;
    s.ime = false;
    normal(s, port, 0)
}

// The latch opens IME before the next instruction.
pub fn ei(cpu: Cpu, port: Port) -> Left<Made>
    ensures { result ≡ worked (set_latch true cpu) port 0 Normal }
{
    let mut s = cpu;
    s.latch = true;
    normal(s, port, 0)
}

// LD B,B: a breakpoint, with the registers as they are.
pub fn breakpoint(cpu: Cpu, port: Port) -> Left<Made>
    ensures { result ≡ worked cpu port 0 (Breakpoint cpu.registers) }
{
    let regs = cpu.registers;
    Left {
        cpu: cpu,
        port: port,
        value: Made {
            value: 0,
            outcome: Outcome::Breakpoint(regs),
        },
    }
}
