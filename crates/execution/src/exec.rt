// One instruction: its operand, what it does, where its result goes.
ghost use Rattle.std.specs.Prelude.{T};
ghost use Rattle.bus.specs.Leads.{Runs};
ghost use Rattle.execution.specs.Mirror.{exec_row};
ghost use Rattle.execution.specs.Runnable.{runnable};

use crate::compute::compute;
use bus::{Left, Memory, Port};
use instruction::Instruction;
use operands::destinations::write_operand;
use operands::sources::read_operand;
use outcome::Outcome;
use sm83::{Addr, Cpu};

// `at` is the address of the instruction; PC is past its first byte, or its first two after a prefix.
pub fn exec_instruction(
    cpu: Cpu,
    port: Port,
    instruction: Instruction,
    at: Addr,
    mem: &mut Memory,
) -> Left<Outcome>
    requires { T (runnable instruction) }
    ensures { Runs (exec_row instruction at.0) cpu port mem.old result.value result.cpu result.port mem.new }
{
    let src = instruction.src;
    let opcode = instruction.opcode;
    let dest = instruction.dest;
    let x = read_operand(cpu, port, src, mem);
    let c = x.cpu;
    let p = x.port;
    let w = compute(c, p, opcode, x.value, at, mem);
    let d = w.cpu;
    let q = w.port;
    let made = w.value;
    let y = write_operand(d, q, dest, made.value, mem);
    let e = y.cpu;
    let o = y.port;
    Left {
        cpu: e,
        port: o,
        value: made.outcome,
    }
}
