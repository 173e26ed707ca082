// Steps one after the other, up to a budget: the loop of a run, on memory and a state that have been tested.
ghost use Rattle.std.specs.Prelude.{◌≡◌, ◌%◌, None};
ghost use Rattle.sm83.specs.State.{flags};
ghost use Rattle.definition.specs.Run.{repeated};
ghost use Rattle.bus.specs.World.{behind};
ghost use Rattle.run.specs.Answers.{run_answer};

use crate::Ran;
use crate::ending::stops_run;
use bus::{Memory, Port};
use outcome::Outcome;
use sm83::state::fresh;
use sm83::{Cpu, MCycles};
use step::next_instruction;

pub fn repeat(cpu: Cpu, mem: &mut Memory, budget: u16) -> Ran
    requires { flags cpu % 16 ≡ 0 }
    ensures { run_answer result mem.new ≡ repeated behind None budget cpu mem.old }
{
    let mut s = cpu;
    let mut p = Port { cycles: MCycles(0) };
    let mut last: Option<Outcome> = None;
    for n in 0..budget {
        let x = next_instruction(s, p, mem);
        let after = x.cpu;
        s = fresh(after);
        p = x.port;
        let o = x.value;
        last = Some(o);
        let stop = stops_run(o);
        if stop {
            let cycles = p.cycles;
            return Ran {
                last: last,
                cpu: s,
                steps: n + 1,
                cycles: cycles,
            };
        }
    }
    let cycles = p.cycles;
    Ran {
        last: last,
        cpu: s,
        steps: budget,
        cycles: cycles,
    }
}
