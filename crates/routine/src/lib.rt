// The routine screen as a definition (specs/), and what a routine that it passes keeps (proofs/). Of code only the kinds and their numbers: the screen itself is the crate `screen`.
#![tactic(auto)]

ghost use Rattle.std.specs.Prelude.{◌≡◌};
ghost use Rattle.routine.specs.Numbers.{number_of, finding_number, verdict_number};

use sm83::Addr;

// Where control may go from an instruction: on, nowhere that any screen allows, back to the caller, to an address that it holds or counts from, into a routine; `If`: or on.
#[derive(Clone, Copy)]
pub enum Class {
    Basic,
    Barred,
    Return,
    ReturnIf,
    Absolute,
    AbsoluteIf,
    Relative,
    RelativeIf,
    Call,
    CallIf,
}

// Why the screen says no, in the order of the document's table. A step's refusals are a kind of their own.
#[derive(Clone, Copy)]
pub enum ScreenRefusal {
    MemoryLength = 1,
    WindowReversed = 4,
    WindowTooLong = 5,
    MarksLength = 6,
    ForbiddenOpcode = 7,
    PastTheEnd = 8,
    FallsThrough = 9,
    JumpUnmarked = 10,
}

impl ScreenRefusal {
    pub fn number(self) -> u8
        ensures { result ≡ number_of self }
    {
        self as u8
    }
}

// What the screen finds of a window that it does not pass: a refusal, from before the walk with no address, from then on at a start.
#[derive(Clone, Copy)]
pub enum Finding {
    BeforeWalk(ScreenRefusal),
    At(ScreenRefusal, Addr),
}

impl Finding {
    // The refusal's number.
    pub fn number(self) -> u8
        ensures { result ≡ finding_number self }
    {
        match self {
            Finding::BeforeWalk(refusal) | Finding::At(refusal, _) => refusal.number(),
        }
    }
}

// 0 where the screen passes, or the finding's number.
pub fn verdict_number(verdict: Result<(), Finding>) -> u8
    ensures { result ≡ verdict_number verdict }
{
    match verdict {
        Ok(()) => 0,
        Err(finding) => finding.number(),
    }
}
