// What the words of a command line have said so far.
ghost use Rattle.std.specs.Prelude.{◌≡◌};
ghost use Rattle.commandline.specs.declared.grammar.Part.TheVariants.{Topic};
ghost use Rattle.commandline.specs.Given.{is_given, word_or, address_or, number_or, power_or, command_or};
ghost use Rattle.commandline.specs.Line.{empty, said_of, with_stage, kept};

use crate::given::Given;
use crate::grammar::{Command, PARTS, Part, Power, Turn, place};
use text::number::Fault;

// What is wrong with a line: what it is about, and the index of the word.
#[derive(Clone, Copy, Debug, PartialEq, Eq)]
pub enum Mistake {
    NoCommand,
    UnknownCommand(usize),
    UnknownOption(usize),
    NotHere(usize),
    Twice(usize),
    NoValue(Part),
    TooMany(usize),
    NotGiven(Part),
    UnknownPower(Part, usize),
    Reversed,
    BadNumber(Part, usize, Fault),
    AddressTooLarge(Part, usize),
    WordTooLong(usize),
}

// The command of a line, and its unnamed words that are still to come.
#[derive(Clone, Copy)]
pub struct Call {
    pub command: Command,
    pub turn: Turn,
}

// Which word may come next: the command; an option, or the first of the unnamed words that are left; the value of an option, after which
// more of its values may be due.
#[derive(Clone, Copy)]
pub enum Stage {
    Start,
    Takes(Call),
    Awaits(Call, Part, Turn),
}

// After a mistake no word may come.
#[derive(Clone, Copy)]
pub struct Line {
    pub stage: Result<Stage, Mistake>,
    given: [Option<Given>; PARTS],
}

impl Line {
    pub fn new() -> Self
        ensures { result ≡ empty }
    {
        Line {
            stage: Ok(Stage::Start),
            given: [None; PARTS],
        }
    }

    pub(crate) fn given(self, part: Part) -> Option<Given>
        ensures { result ≡ said_of self part }
    {
        self.given[place(part)]
    }

    pub fn has(self, part: Part) -> bool
        ensures { result ≡ is_given (said_of self part) }
    {
        self.given(part).is_some()
    }

    // The value that was given for a part, if it is of this kind: a method for each, since a trait with an impl for each would hold the
    // same matches.
    pub fn word(self, part: Part, other: usize) -> usize
        ensures { result ≡ word_or (said_of self part) other }
    {
        match self.given(part) {
            Some(Given::Word(index)) => index,
            _ => other,
        }
    }

    pub fn address(self, part: Part, other: u16) -> u16
        ensures { result ≡ address_or (said_of self part) other }
    {
        match self.given(part) {
            Some(Given::Address(address)) => address,
            _ => other,
        }
    }

    pub fn number(self, part: Part, other: u64) -> u64
        ensures { result ≡ number_or (said_of self part) other }
    {
        match self.given(part) {
            Some(Given::Number(number)) => number,
            _ => other,
        }
    }

    pub fn power(self, part: Part, other: Power) -> Power
        ensures { result ≡ power_or (said_of self part) other }
    {
        match self.given(part) {
            Some(Given::Power(power)) => power,
            _ => other,
        }
    }

    // The command that the line asks the help of.
    pub fn topic(self, other: Command) -> Command
        ensures { result ≡ command_or (said_of self Topic) other }
    {
        match self.given(Part::Topic) {
            Some(Given::Command(command)) => command,
            _ => other,
        }
    }

    pub(crate) fn with_stage(self, stage: Result<Stage, Mistake>) -> Self
        ensures { result ≡ with_stage self stage }
    {
        Line { stage, ..self }
    }

    pub(crate) fn kept(mut self, part: Part, given: Given, stage: Stage) -> Self
        ensures { result ≡ kept self part given stage }
    {
        self.given[place(part)] = Some(given);
        self.with_stage(Ok(stage))
    }
}
