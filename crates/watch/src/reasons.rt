// Why a watch ends.
ghost use Rattle.std.specs.Prelude.{◌≡◌, if◌then◌else◌, Some};
ghost use Rattle.routine.specs.Trace.{in_window};
ghost use Rattle.watch.specs.Written.{addresses_of};
ghost use Rattle.watch.specs.Reasons.{first_inside, by_outcome, by_state, by_last};
ghost use Rattle.watch.specs.declared.reasons.Why.TheVariants.{Interrupted};

use crate::demanded::is_halted;
use crate::written::Written;
use outcome::Outcome;
use sm83::{Addr, Cpu};

#[derive(Clone, Copy)]
pub enum Why {
    // PC is no marked start of the window
    Strays,
    Refused,
    Stops,
    Halts,
    Interrupted,
    // into the window, at this address
    Writes(Addr),
}

// A window by its first address and its length.
#[derive(Clone, Copy)]
pub(crate) struct Window {
    pub(crate) first: Addr,
    pub(crate) length: usize,
}

impl Window {
    fn holds(self, a: Addr) -> bool
        ensures { result ≡ in_window self.first.0 self.length a.0 }
    {
        if a.0 < self.first.0 {
            return false;
        }
        let i = (a.0 - self.first.0) as usize;
        i < self.length
    }

    // The first address written that lies in the window.
    fn first_inside(self, written: Written) -> Option<Why>
        ensures { result ≡ first_inside self.first.0 self.length (addresses_of written) }
    {
        match written {
            Written::One(a) | Written::Two(a, _) if self.holds(a) => Some(Why::Writes(a)),
            Written::Two(_, b) if self.holds(b) => Some(Why::Writes(b)),
            _ => None,
        }
    }

    pub(crate) fn by_accesses(self, interrupted: bool, written: Written) -> Option<Why>
        ensures { result ≡ (if interrupted then Some Interrupted else first_inside self.first.0 self.length (addresses_of written)) }
    {
        if interrupted {
            return Some(Why::Interrupted);
        }
        self.first_inside(written)
    }
}

fn by_state(cpu: Cpu, rest: Option<Why>) -> Option<Why>
    ensures { result ≡ by_state cpu rest }
{
    let stopped = cpu.stopped;
    let halted = is_halted(cpu.halt);
    if stopped {
        Some(Why::Stops)
    } else if halted {
        Some(Why::Halts)
    } else {
        rest
    }
}

fn by_outcome(outcome: Outcome, rest: Option<Why>) -> Option<Why>
    ensures { result ≡ by_outcome outcome rest }
{
    match outcome {
        Outcome::Normal | Outcome::InfiniteLoop | Outcome::Breakpoint(_) => rest,
        Outcome::Halting => Some(Why::Halts),
        Outcome::RunningHDMA | Outcome::Stopped => Some(Why::Stops),
        Outcome::RunningInterrupt(_) => Some(Why::Interrupted),
        Outcome::Refused(_) => Some(Why::Refused),
    }
}

// By the outcome and the state left of a run of one step, or else as the rest says.
pub(crate) fn why_of(last: Option<Outcome>, after: Cpu, rest: Option<Why>) -> Option<Why>
    ensures { result ≡ by_last last (by_state after rest) }
{
    let here = by_state(after, rest);
    match last {
        None => here,
        Some(outcome) => by_outcome(outcome, here),
    }
}
