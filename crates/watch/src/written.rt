// The addresses that the next step writes, in order, and whether it takes an interrupt.
ghost use Rattle.std.specs.Prelude.{◌≡◌, not};
ghost use Rattle.definition.specs.Bus.{plain};
ghost use Rattle.definition.specs.Step.{step_on};
ghost use Rattle.routine.specs.Trace.{takes_none};
ghost use Rattle.watch.specs.Written.{written_by, addresses_of, instruction_writes};

use crate::course::{Course, after_fetch, course_of};
use crate::place::{place_of, pushed, writes_at};
use screen::memory::byte;
use sm83::{Addr, Cpu};

// No list: a step writes two addresses at most, and there is no heap here; two Options in a row would have a fourth value that no step has.
#[derive(Clone, Copy)]
pub enum Written {
    Nothing,
    One(Addr),
    Two(Addr, Addr),
}

#[tactic(auto, unfolding(crate::specs::Written::instruction_writes))]
fn instruction_writes(cpu: Cpu, mem: &[u8]) -> Written
    ensures { addresses_of result ≡ instruction_writes cpu mem.now }
{
    let place = place_of(byte(mem, cpu.registers.pc));
    writes_at(place, after_fetch(cpu), mem)
}

// Any state, any slice: a step that is refused writes nothing.
#[tactic(auto, using(crate::proofs::written::Stepped::rests, crate::proofs::written::Stepped::dispatches, crate::proofs::written::Stepped::executes))]
pub fn next_writes(cpu: Cpu, mem: &[u8]) -> Written
    ensures { addresses_of result ≡ written_by (step_on plain cpu mem.now).accesses }
{
    match course_of(cpu, mem) {
        Course::Rests => Written::Nothing,
        Course::Dispatches => pushed(cpu.registers.sp),
        Course::Executes => instruction_writes(cpu, mem),
    }
}

// A dispatch whose interrupt is cancelled ends Normal: so this is asked before the step.
#[tactic(auto, using(crate::proofs::written::Stepped::interrupted))]
pub fn interrupts(cpu: Cpu, mem: &[u8]) -> bool
    ensures { result ≡ not (takes_none (step_on plain cpu mem.now).accesses) }
{
    matches!(course_of(cpu, mem), Course::Dispatches)
}
