// Which outcomes end a run, and a run that is refused before it begins.
ghost use Rattle.std.specs.Prelude.{◌≡◌};
ghost use Rattle.definition.specs.Run.{stops_run, stops_last, not_run};
ghost use Rattle.run.specs.Answers.{run_answer};

use crate::Ran;
use outcome::{Outcome, Refusal};
use sm83::{Cpu, MCycles};

// After InfiniteLoop, Breakpoint, Stopped or a refusal.
pub(crate) fn stops_run(outcome: Outcome) -> bool
    ensures { result ≡ stops_run outcome }
{
    matches!(
        outcome,
        Outcome::InfiniteLoop | Outcome::Breakpoint(_) | Outcome::Stopped | Outcome::Refused(_)
    )
}

// A run whose last outcome is this one goes no further, whatever is left of its budget.
pub fn stops_last(last: Option<Outcome>) -> bool
    ensures { result ≡ stops_last last }
{
    match last {
        None => false,
        Some(outcome) => stops_run(outcome),
    }
}

// Everything is left as it came, and costs nothing.
pub(crate) fn refused(cpu: Cpu, refusal: Refusal, mem: &mut [u8]) -> Ran
    ensures { run_answer result mem.new ≡ not_run refusal cpu mem.old }
{
    Ran {
        last: Some(Outcome::Refused(refusal)),
        cpu: cpu,
        steps: 0,
        cycles: MCycles(0),
    }
}
