// What a step and a run answer: how it ended, or why it was refused. The numbers are the document's; what the screen answers stands in `routine`.
#![tactic(auto)]

ghost use Rattle.std.specs.Prelude.{◌≡◌};
ghost use Rattle.outcome.specs.Numbers.{number_of, outcome_number, last_number};

use crate::interrupt::InterruptType;
use sm83::CpuRegisters;

pub mod interrupt;

// Why a step or a run says no, in the order of the document's table. The screen's refusals are a kind of their own.
#[derive(Clone, Copy)]
pub enum Refusal {
    MemoryLength = 1,
    LowBitsOfF = 2,
    IllegalOpcode = 3,
}

impl Refusal {
    pub fn number(self) -> u8
        ensures { result ≡ number_of self }
    {
        self as u8
    }
}

// `CpuState` and `RunError` of the Rust in one, and no `Result`: a refusal leaves a state, bytes and M-cycles of its own, which `?` would pass over,
// and ends a run as a breakpoint does.
#[derive(Clone, Copy)]
pub enum Outcome {
    Normal,
    InfiniteLoop,
    Halting,
    RunningHDMA,
    Stopped,
    RunningInterrupt(InterruptType),
    Breakpoint(CpuRegisters),
    Refused(Refusal),
}

impl Outcome {
    // As a log writes it (02, request 5), and as the exported library answers it.
    pub fn number(self) -> u16
        ensures { result ≡ outcome_number self }
    {
        match self {
            Outcome::Normal => 0,
            Outcome::InfiniteLoop => 1,
            Outcome::Halting => 2,
            Outcome::RunningHDMA => 3,
            Outcome::Stopped => 4,
            Outcome::Breakpoint(_) => 5,
            Outcome::RunningInterrupt(interrupt) => 8 + u16::from(interrupt.number()),
            Outcome::Refused(refusal) => 16 + u16::from(refusal.number()),
        }
    }
}

// Of how a run ended: with its last step's outcome, or with nothing run, its budget being 0.
pub fn last_number(last: Option<Outcome>) -> u16
    ensures { result ≡ last_number last }
{
    match last {
        None => 6,
        Some(outcome) => outcome.number(),
    }
}
