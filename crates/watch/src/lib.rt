// A run that is watched in a window: which addresses start an instruction, what the next step writes, and why the watch ends.
// State, memory and marks are parameters of their own, as in `run` and `screen`, whose are those of the C calls.
#![tactic(auto)]

ghost use Rattle.std.specs.Prelude.{◌≡◌};
ghost use Rattle.watch.specs.Reasons.{watch_on, watch_answer};

use crate::reasons::{Why, Window, why_of};
use crate::starts::strays;
use crate::written::{interrupts, next_writes};
use run::{Ran, run};
use sm83::{Addr, Cpu, MCycles};

mod course;
pub mod demanded;
mod place;
pub mod reasons;
pub mod starts;
pub mod written;

// Why the watch ends, if it does, and what the step did.
#[derive(Clone, Copy)]
pub struct Watched {
    pub why: Option<Why>,
    pub ran: Ran,
}

// One step, watched in the window that begins at `first` and has these marks. Before a step at no marked start it ends, and nothing is done.
#[tactic(auto, using(crate::proofs::OneStep::strayed))]
pub fn watch(cpu: Cpu, mem: &mut [u8], first: Addr, marks: &[u8]) -> Watched
    ensures { watch_answer result mem.new ≡ watch_on cpu mem.old first.0 marks.now }
{
    let astray = strays(first, marks, cpu);
    if astray {
        let nothing = Ran {
            last: None,
            cpu,
            steps: 0,
            cycles: MCycles(0),
        };
        return Watched {
            why: Some(Why::Strays),
            ran: nothing,
        };
    }
    let window = Window {
        first,
        length: marks.len(),
    };
    let written = next_writes(cpu, mem);
    let interrupted = interrupts(cpu, mem);
    let rest = window.by_accesses(interrupted, written);
    let ran = run(cpu, mem, 1);
    let why = why_of(ran.last, ran.cpu, rest);
    Watched { why, ran }
}
