// The run with its budget, and the step. Any state, any slice.
#![tactic(auto)]

ghost use Rattle.std.specs.Prelude.{◌≡◌};
ghost use Rattle.definition.specs.Bus.{plain};
ghost use Rattle.definition.specs.Run.{run_for};
ghost use Rattle.run.specs.Answers.{run_answer};
ghost use Rattle.run.specs.Answers.{outcome_of, StepAnswers};

use crate::ending::refused;
use crate::repeat::repeat;
use outcome::{Outcome, Refusal};
use sm83::{Cpu, MCycles};

pub mod ending;
mod repeat;

#[derive(Clone, Copy)]
pub struct Ran {
    pub last: Option<Outcome>,
    pub cpu: Cpu,
    pub steps: u16,
    pub cycles: MCycles,
}

#[derive(Clone, Copy)]
pub struct Stepped {
    pub outcome: Outcome,
    pub cpu: Cpu,
    pub cycles: MCycles,
}

pub fn run(cpu: Cpu, mem: &mut [u8], budget: u16) -> Ran
    ensures { run_answer result mem.new ≡ run_for plain budget cpu mem.old }
{
    match mem.as_mut_array::<65536>() {
        Some(memory) => {
            let regs = cpu.registers;
            let clear = regs.f % 16 == 0;
            if clear {
                repeat(cpu, memory, budget)
            } else {
                refused(cpu, Refusal::LowBitsOfF, memory)
            }
        }
        None => refused(cpu, Refusal::MemoryLength, mem),
    }
}

fn outcome_of(last: Option<Outcome>) -> Outcome
    ensures { result ≡ outcome_of last }
{
    last.unwrap_or(Outcome::Normal)
}

// A run of one step.
pub fn step(cpu: Cpu, mem: &mut [u8]) -> Stepped
    ensures { StepAnswers cpu mem.old result mem.new }
{
    let x = run(cpu, mem, 1);
    let s = x.cpu;
    let cycles = x.cycles;
    let last = x.last;
    Stepped {
        outcome: outcome_of(last),
        cpu: s,
        cycles: cycles,
    }
}
