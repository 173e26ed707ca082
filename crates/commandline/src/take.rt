// One word of a command line. The first mistake stays.
ghost use Rattle.std.specs.Prelude.{◌≡◌};
ghost use Rattle.commandline.specs.Grammar.{command_named, option_named};
ghost use Rattle.commandline.specs.Take.{in_range, readable, value_in, take_value, awaiting, take_option, take_dashed, take_turn, take_command, is_dashed, take_next, take_awaited, take_word, take_overlong};

use crate::given::Given;
use crate::grammar::{
    Kind, Part, Turn, allows, command_named, is_alone, kind_of, option_named, power_named, turn_of,
    values_of,
};
use crate::line::{Call, Line, Mistake, Stage};
use text::address::address_in;
use text::number::{Fault, number_in};

// A word, and its index in the line.
#[derive(Clone, Copy)]
struct Word<'a> {
    text: &'a [u8],
    index: usize,
}

// A number, or the mistake that the part has none.
fn readable(part: Part, index: usize, number: Result<u64, Fault>) -> Result<u64, Mistake>
    ensures { result ≡ readable part index number }
{
    number.map_err(|fault| Mistake::BadNumber(part, index, fault))
}

// A number as an address.
fn in_range(part: Part, index: usize, n: u64) -> Result<Given, Mistake>
    ensures { result ≡ in_range part index n }
{
    match u16::try_from(n) {
        Ok(address) => Ok(Given::Address(address)),
        _ => Err(Mistake::AddressTooLarge(part, index)),
    }
}

impl Word<'_> {
    fn is_dashed(self) -> bool
        ensures { result ≡ is_dashed self.entry.text.now }
    {
        matches!(self.text, [b'-', ..])
    }

    // The word as the value of a part.
    #[tactic(auto, unfolding(crate::specs::Take::value_in))]
    fn value_in(self, kind: Kind, part: Part) -> Result<Given, Mistake>
        ensures { result ≡ value_in kind part self.entry.text.now self.entry.index }
    {
        let Word { text, index } = self;
        match kind {
            Kind::Alone => Ok(Given::Alone),
            Kind::Path => Ok(Given::Word(index)),
            Kind::Address => in_range(part, index, readable(part, index, address_in(text))?),
            Kind::Number => Ok(Given::Number(readable(part, index, number_in(text))?)),
            Kind::Power => match power_named(text) {
                Some(power) => Ok(Given::Power(power)),
                None => Err(Mistake::UnknownPower(part, index)),
            },
            Kind::Command => match command_named(text) {
                Some(command) => Ok(Given::Command(command)),
                None => Err(Mistake::UnknownCommand(index)),
            },
        }
    }
}

// A value for a part; the line then stands at `after`.
fn take_value(line: Line, after: Stage, part: Part, word: Word) -> Result<Line, Mistake>
    ensures { result ≡ take_value line after part word.entry.text.now word.entry.index }
{
    Ok(line.kept(part, word.value_in(kind_of(part), part)?, after))
}

// Where a line stands when these values of an option are due: at the first of them; if there are none, the option is done.
#[tactic(auto, unfolding(crate::specs::Take::awaiting))]
fn awaiting(call: Call, values: Turn) -> Stage
    ensures { result ≡ awaiting call values }
{
    match values.split_first() {
        None => Stage::Takes(call),
        Some((part, more)) => Stage::Awaits(call, part, more),
    }
}

#[tactic(auto, unfolding(crate::specs::Take::take_option))]
fn take_option(line: Line, call: Call, part: Part, index: usize) -> Result<Line, Mistake>
    ensures { result ≡ take_option line call part index }
{
    if !allows(call.command, part) {
        return Err(Mistake::NotHere(index));
    }
    if line.has(part) {
        return Err(Mistake::Twice(index));
    }
    let values = values_of(part);
    if is_alone(values) {
        return Ok(line.kept(part, Given::Alone, Stage::Takes(call)));
    }
    Ok(line.with_stage(Ok(awaiting(call, values))))
}

// A word that begins with -.
#[tactic(auto, unfolding(crate::specs::Take::take_dashed))]
fn take_dashed(line: Line, call: Call, word: Word) -> Result<Line, Mistake>
    ensures { result ≡ take_dashed line call word.entry.index (option_named word.entry.text.now) }
{
    match option_named(word.text) {
        Some(part) => take_option(line, call, part, word.index),
        None => Err(Mistake::UnknownOption(word.index)),
    }
}

#[tactic(auto, unfolding(crate::specs::Take::take_turn))]
fn take_turn(line: Line, call: Call, word: Word) -> Result<Line, Mistake>
    ensures { result ≡ take_turn line call word.entry.text.now word.entry.index }
{
    match call.turn.split_first() {
        None => Err(Mistake::TooMany(word.index)),
        Some((part, turn)) => take_value(line, Stage::Takes(Call { turn, ..call }), part, word),
    }
}

#[tactic(auto, unfolding(crate::specs::Take::take_command))]
fn take_command(line: Line, word: Word) -> Result<Line, Mistake>
    ensures { result ≡ take_command line word.entry.index (command_named word.entry.text.now) }
{
    match command_named(word.text) {
        Some(command) => {
            let turn = turn_of(command);
            Ok(line.with_stage(Ok(Stage::Takes(Call { command, turn }))))
        }
        None => Err(Mistake::UnknownCommand(word.index)),
    }
}

// An option or an unnamed word.
#[tactic(auto, unfolding(crate::specs::Take::take_next))]
fn take_next(line: Line, call: Call, word: Word) -> Result<Line, Mistake>
    ensures { result ≡ take_next line call word.entry.text.now word.entry.index }
{
    if word.is_dashed() {
        return take_dashed(line, call, word);
    }
    take_turn(line, call, word)
}

// The value of an option. A word that begins with - is none, so that an option whose value was left out does not take the next option for it;
// a file with such a name is written ./-name.
#[tactic(auto, unfolding(crate::specs::Take::take_awaited))]
fn take_awaited(line: Line, after: Stage, part: Part, word: Word) -> Result<Line, Mistake>
    ensures { result ≡ take_awaited line after part word.entry.text.now word.entry.index }
{
    if word.is_dashed() {
        return Err(Mistake::NoValue(part));
    }
    take_value(line, after, part, word)
}

#[tactic(auto, unfolding(crate::specs::Take::take_at))]
pub fn take(line: Line, word: &[u8], index: usize) -> Line
    ensures { result ≡ take_word line word.now index }
{
    let word = Word { text: word, index };
    let taken = match line.stage {
        Ok(Stage::Start) => take_command(line, word),
        Ok(Stage::Takes(call)) => take_next(line, call, word),
        Ok(Stage::Awaits(call, part, more)) => take_awaited(line, awaiting(call, more), part, word),
        Err(_) => Ok(line),
    };
    match taken {
        Ok(next) => next,
        Err(mistake) => line.with_stage(Err(mistake)),
    }
}

// A word that was too long to be read.
#[tactic(auto, unfolding(crate::specs::Take::overlong_at))]
pub fn overlong(line: Line, index: usize) -> Line
    ensures { result ≡ take_overlong line index }
{
    match line.stage {
        Ok(_) => line.with_stage(Err(Mistake::WordTooLong(index))),
        Err(_) => line,
    }
}
