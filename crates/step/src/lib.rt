// One step: `next_instruction`, stage by stage in the order of the Rust.
#![tactic(auto)]

ghost use Rattle.definition.specs.Step.{instruction, awake, step};
ghost use Rattle.bus.specs.Leads.{Runs};
ghost use Rattle.step.specs.Stages.{Going};

use crate::dispatch::{dispatch, is_interrupted};
use crate::fetch::fetch_instruction;
use crate::waking::wake;
use bus::{Left, Memory, Port};
use execution::exec::exec_instruction;
use instruction::Instruction;
use outcome::Outcome;
use sm83::{Addr, Cpu};

mod dispatch;
mod fetch;
pub mod waking;

// What is to be executed, and from where it was fetched.
#[derive(Clone, Copy)]
pub struct Fetched {
    pub instruction: Instruction,
    pub at: Addr,
}

// 5 to 7.
fn run_one(cpu: Cpu, port: Port, mem: &mut Memory) -> Left<Outcome>
    ensures { Runs instruction cpu port mem.old result.value result.cpu result.port mem.new }
{
    let x = fetch_instruction(cpu, port, mem);
    let s = x.cpu;
    let p = x.port;
    let got = x.value;
    let i = got.instruction;
    let at = got.at;
    exec_instruction(s, p, i, at, mem)
}

// 4 to 7.
fn awake(cpu: Cpu, port: Port, mem: &mut Memory) -> Left<Outcome>
    ensures { Runs awake cpu port mem.old result.value result.cpu result.port mem.new }
{
    let called = is_interrupted(cpu.ime, mem);
    if called {
        dispatch(cpu, port, mem)
    } else {
        run_one(cpu, port, mem)
    }
}

// 3 to 7: neither stopped nor in a transfer.
fn running(cpu: Cpu, port: Port, mem: &mut Memory) -> Left<Outcome>
    requires { Going cpu }
    ensures { Runs step cpu port mem.old result.value result.cpu result.port mem.new }
{
    let w = wake(cpu, port, mem);
    let s = w.cpu;
    let p = w.port;
    let halting = w.value;
    if halting {
        Left {
            cpu: s,
            port: p,
            value: Outcome::Halting,
        }
    } else {
        awake(s, p, mem)
    }
}

// 1 to 7.
pub fn next_instruction(cpu: Cpu, port: Port, mem: &mut Memory) -> Left<Outcome>
    ensures { Runs step cpu port mem.old result.value result.cpu result.port mem.new }
{
    let stopped = cpu.stopped;
    if stopped {
        let p = bus::idle(port, mem);
        return Left {
            cpu: cpu,
            port: p,
            value: Outcome::Stopped,
        };
    }
    let hdma = cpu.hdma;
    if hdma {
        let p = bus::idle(port, mem);
        return Left {
            cpu: cpu,
            port: p,
            value: Outcome::RunningHDMA,
        };
    }
    running(cpu, port, mem)
}
