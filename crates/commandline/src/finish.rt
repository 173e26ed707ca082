// The end of a command line: what it asks for, or what is wrong with it as a whole.
ghost use Rattle.std.specs.Prelude.{◌≡◌};
ghost use Rattle.commandline.specs.Finish.{ordered, lacking, filled, or_help, finished};

use crate::grammar::{Command, Part, Turn, may_lack};
use crate::line::{Call, Line, Mistake, Stage};

// What a whole line asks for.
#[derive(Clone, Copy)]
pub enum Asked {
    Help(Command),
    Obey(Command),
}

// A window is the wrong way round if LAST is below FIRST.
#[tactic(auto, unfolding(crate::specs::Finish::ordered))]
fn ordered(line: Line, command: Command) -> Result<Asked, Mistake>
    ensures { result ≡ ordered line command }
{
    if line.address(Part::Last, 0) < line.address(Part::First, 0) {
        return Err(Mistake::Reversed);
    }
    Ok(Asked::Obey(command))
}

// The last unnamed word is missing, which some may be.
#[tactic(auto, unfolding(crate::specs::Finish::lacking))]
fn lacking(line: Line, command: Command, part: Part) -> Result<Asked, Mistake>
    ensures { result ≡ lacking line command part }
{
    if may_lack(part) {
        return ordered(line, command);
    }
    Err(Mistake::NotGiven(part))
}

// An unnamed word may be missing.
#[tactic(auto, unfolding(crate::specs::Finish::filled))]
fn filled(line: Line, call: Call) -> Result<Asked, Mistake>
    ensures { result ≡ filled line call }
{
    match call.turn {
        Turn::Nothing => ordered(line, call.command),
        Turn::One(part) => lacking(line, call.command, part),
        Turn::Two(part, _) | Turn::Three(part, _, _) => Err(Mistake::NotGiven(part)),
    }
}

// --help asks for the command's help, whatever the line lacks; a topic, for that of the topic.
#[tactic(auto, unfolding(crate::specs::Finish::or_help))]
fn or_help(line: Line, command: Command, asked: Result<Asked, Mistake>) -> Result<Asked, Mistake>
    ensures { result ≡ or_help line command asked }
{
    if line.has(Part::Help) || line.has(Part::Topic) {
        return Ok(Asked::Help(line.topic(command)));
    }
    asked
}

#[tactic(auto, unfolding(crate::specs::Finish::finish_at))]
pub fn finish(line: Line) -> Result<Asked, Mistake>
    ensures { result ≡ finished line }
{
    match line.stage? {
        Stage::Start => Err(Mistake::NoCommand),
        Stage::Takes(call) => or_help(line, call.command, filled(line, call)),
        Stage::Awaits(call, part, _) => or_help(line, call.command, Err(Mistake::NoValue(part))),
    }
}
