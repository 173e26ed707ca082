// The grammar: the commands, what a word may stand for, which words a command takes, and what follows an option. A new command or option
// is one case in each of these, and a sentence in the program; where a word is looked up, it is a line of the text and, at the same place,
// an element of the list beside it.
ghost use Rattle.std.specs.Prelude.{◌≡◌};
ghost use Rattle.text.specs.Lines.{number_of};
ghost use Rattle.commandline.specs.Grammar.{PlaceOf, split_first, turn_of, may_lack, allows, kind_of, own_value, values_of, is_alone, named, command_named, option_named, power_named};

use text::lines::number_of;

#[derive(Clone, Copy)]
pub enum Command {
    Screen,
    Run,
    Step,
    Show,
    Demo,
    Version,
    Help,
}

// What a word after the command stands for: an unnamed word, by its turn, or an option.
#[derive(Clone, Copy, Debug, PartialEq, Eq)]
pub enum Part {
    Image,
    First,
    Last,
    Address,
    Count,
    Topic,
    At,
    State,
    Pc,
    Sp,
    Af,
    Bc,
    De,
    Hl,
    Ime,
    Ei,
    Steps,
    Out,
    Marks,
    Map,
    Trace,
    Stack,
    Help,
}

// How many parts there are, and the place of each in a row of them: where `Line` keeps what was said of it.
pub(crate) const PARTS: usize = 23;

pub(crate) fn place(part: Part) -> usize
    ensures { PlaceOf part result }
{
    part as usize
}

// The states at power-on.
#[derive(Clone, Copy)]
pub enum Power {
    Dmg,
    Cgb,
    CgbDmg,
    Zero,
}

// The words that are still to come, in their order: three at most, and none left out, as a list of that length could not say.
#[derive(Clone, Copy)]
pub enum Turn {
    Nothing,
    One(Part),
    Two(Part, Part),
    Three(Part, Part, Part),
}

impl Turn {
    pub(crate) fn split_first(self) -> Option<(Part, Turn)>
        ensures { result ≡ split_first self }
    {
        match self {
            Turn::Nothing => None,
            Turn::One(a) => Some((a, Turn::Nothing)),
            Turn::Two(a, b) => Some((a, Turn::One(b))),
            Turn::Three(a, b, c) => Some((a, Turn::Two(b, c))),
        }
    }
}

// The unnamed words of a command.
pub(crate) fn turn_of(command: Command) -> Turn
    ensures { result ≡ turn_of command }
{
    match command {
        Command::Screen => Turn::Three(Part::Image, Part::First, Part::Last),
        Command::Run => Turn::One(Part::Image),
        Command::Step => Turn::One(Part::Image),
        Command::Show => Turn::Three(Part::Image, Part::Address, Part::Count),
        Command::Demo => Turn::Nothing,
        Command::Version => Turn::Nothing,
        Command::Help => Turn::One(Part::Topic),
    }
}

// The unnamed words that may be left out at the end of a line.
pub(crate) fn may_lack(part: Part) -> bool
    ensures { result ≡ may_lack part }
{
    matches!(part, Part::Count | Part::Topic)
}

// The options of a command; --within is FIRST, the first of its two addresses.
pub(crate) fn allows(command: Command, part: Part) -> bool
    ensures { result ≡ allows command part }
{
    match command {
        Command::Screen => matches!(part, Part::At | Part::Marks | Part::Map | Part::Help),
        Command::Run => matches!(
            part,
            Part::First
                | Part::At
                | Part::State
                | Part::Pc
                | Part::Sp
                | Part::Af
                | Part::Bc
                | Part::De
                | Part::Hl
                | Part::Ime
                | Part::Ei
                | Part::Steps
                | Part::Out
                | Part::Trace
                | Part::Help
        ),
        Command::Step => matches!(
            part,
            Part::At
                | Part::State
                | Part::Pc
                | Part::Sp
                | Part::Af
                | Part::Bc
                | Part::De
                | Part::Hl
                | Part::Ime
                | Part::Ei
                | Part::Out
                | Part::Help
        ),
        Command::Show => matches!(part, Part::At | Part::Stack | Part::Help),
        Command::Demo | Command::Version | Command::Help => matches!(part, Part::Help),
    }
}

// The kind of a value; an option without one stands alone.
#[derive(Clone, Copy)]
pub enum Kind {
    Alone,
    Path,
    Address,
    Number,
    Power,
    Command,
}

// Which value a word is that stands for the part.
pub(crate) fn kind_of(part: Part) -> Kind
    ensures { result ≡ kind_of part }
{
    match part {
        Part::Image | Part::Out => Kind::Path,
        Part::First
        | Part::Last
        | Part::Address
        | Part::At
        | Part::Pc
        | Part::Sp
        | Part::Af
        | Part::Bc
        | Part::De
        | Part::Hl => Kind::Address,
        Part::Count | Part::Steps => Kind::Number,
        Part::Topic => Kind::Command,
        Part::State => Kind::Power,
        Part::Ime | Part::Ei | Part::Marks | Part::Map | Part::Trace | Part::Stack | Part::Help =>
            Kind::Alone,
    }
}

// Its own value comes after an option, unless it stands alone.
fn own_value(kind: Kind, part: Part) -> Turn
    ensures { result ≡ own_value kind part }
{
    match kind {
        Kind::Alone => Turn::Nothing,
        Kind::Path | Kind::Address | Kind::Number | Kind::Power | Kind::Command => Turn::One(part),
    }
}

// The values that come after an option: after --within, which is FIRST, a second one.
pub(crate) fn values_of(part: Part) -> Turn
    ensures { result ≡ values_of part }
{
    match part {
        Part::First => Turn::Two(Part::First, Part::Last),
        _ => own_value(kind_of(part), part),
    }
}

pub(crate) fn is_alone(values: Turn) -> bool
    ensures { result ≡ is_alone values }
{
    matches!(values, Turn::Nothing)
}

// What a word names: of these items, the one with the number of the line that holds it.
fn named<T: Copy>(lines: &[u8], items: &[T], word: &[u8]) -> Option<T>
    ensures { result ≡ named items.now (number_of lines.now word.now) }
{
    match number_of(lines, word) {
        Some(n) if 0 < n => items.get(n - 1).copied(),
        _ => None,
    }
}

#[tactic(auto, unfolding(crate::specs::Grammar::command_named))]
pub(crate) fn command_named(word: &[u8]) -> Option<Command>
    ensures { result ≡ command_named word.now }
{
    named(
        b"screen\nrun\nstep\nshow\ndemo\nversion --version\nhelp --help -h",
        &[
            Command::Screen,
            Command::Run,
            Command::Step,
            Command::Show,
            Command::Demo,
            Command::Version,
            Command::Help,
        ],
        word,
    )
}

#[tactic(auto, unfolding(crate::specs::Grammar::option_named))]
pub(crate) fn option_named(word: &[u8]) -> Option<Part>
    ensures { result ≡ option_named word.now }
{
    named(
        b"--within\n--at\n--state\n--pc\n--sp\n--af\n--bc\n--de\n--hl\n--ime\n--ei\n--steps\n--out\n--marks\n--map\n--trace\n--stack\n--help -h",
        &[
            Part::First,
            Part::At,
            Part::State,
            Part::Pc,
            Part::Sp,
            Part::Af,
            Part::Bc,
            Part::De,
            Part::Hl,
            Part::Ime,
            Part::Ei,
            Part::Steps,
            Part::Out,
            Part::Marks,
            Part::Map,
            Part::Trace,
            Part::Stack,
            Part::Help,
        ],
        word,
    )
}

#[tactic(auto, unfolding(crate::specs::Grammar::power_named))]
pub(crate) fn power_named(word: &[u8]) -> Option<Power>
    ensures { result ≡ power_named word.now }
{
    named(
        b"dmg\ncgb\ncgb-dmg\nzero",
        &[Power::Dmg, Power::Cgb, Power::CgbDmg, Power::Zero],
        word,
    )
}
