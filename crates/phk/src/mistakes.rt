// What the tool says of files that it cannot read or write and of a bad command line: each sentence once, as in `sentences`.
use crate::files::NoImage;
use crate::page::{fail, note};
use crate::said::{Host, Stream, arg};
use crate::saving::WhyNot;
use crate::view::Held;
use crate::window::Window;
use commandline::grammar::Part;
use commandline::line::Mistake;
use text::lines::line_of;
use text::number::Fault;

fn print(host: &Host, form: &[u8], values: &[u64], word: &[u8]) {
    crate::page::print(host, Stream::Errors, form, values, word);
}

// What cannot be written to: one line each.
fn out_is(host: &Host, path: &[u8], sentence: &[u8]) {
    print(host, b"phk: --out '@': ", &[], path);
    note(host, sentence);
}

pub fn not_saved(host: &Host, path: &[u8], why: WhyNot) {
    match why {
        WhyNot::Unnamed => note(
            host,
            b"phk: --out: an empty word names no file; give the name of a new one\n",
        ),
        WhyNot::Link => out_is(
            host,
            path,
            b"a symbolic link; name the file that it leads to, or another\n",
        ),
        WhyNot::Folder => out_is(host, path, b"a folder; expected the name of a file\n"),
        WhyNot::NoFile => out_is(
            host,
            path,
            b"a device, a pipe or a socket; expected a new name or a file\n",
        ),
        WhyNot::TheImage => out_is(
            host,
            path,
            b"this is IMAGE itself, which is never changed; give another name\n",
        ),
        WhyNot::TheOutput => out_is(
            host,
            path,
            b"standard output goes to this file, and would be lost with it; give another name\n",
        ),
        WhyNot::ReadOnly => out_is(
            host,
            path,
            b"a file that is read-only; give another name, or make it writable\n",
        ),
        WhyNot::NotYours => out_is(
            host,
            path,
            b"a file of another user, or one that you may not write; give another name\n",
        ),
        WhyNot::NotMade(e) => fail(host, b"phk: --out '@': no file can be made there", path, e),
        WhyNot::NotFilled(e) => fail(
            host,
            b"phk: --out '@': not written, since its disk did not take all 65,536 bytes; nothing was changed",
            path,
            e,
        ),
        WhyNot::NotPlaced(e) => fail(
            host,
            b"phk: --out '@': not written, since the new file could not be renamed to this; nothing was changed",
            path,
            e,
        ),
    }
}

fn bytes(host: &Host, count: u64) {
    let form = line_of(b"% bytes\n% byte", usize::from(count == 1));
    print(host, form, &[count], b"");
}

// An image that goes past the last address.
fn too_long(host: &Host, path: &[u8], room: u64) {
    print(
        host,
        b"phk: IMAGE '@': too long, expected at most ",
        &[],
        path,
    );
    bytes(host, room);
    note(host, b" up to address FFFF\n");
}

// An image that is too short, and no --at says where it lies.
fn too_short(host: &Host, path: &[u8], length: u64) {
    print(host, b"phk: IMAGE '@': ", &[], path);
    bytes(host, length);
    note(
        host,
        b", expected 65536; say with --at ADDRESS where a part of memory lies\n",
    );
}

pub fn no_image(host: &Host, path: &[u8], why: NoImage) {
    match why {
        NoImage::Unreadable(e) => fail(
            host,
            b"phk: IMAGE '@', expected a file that can be read",
            path,
            e,
        ),
        NoImage::TooLong(room) => too_long(host, path, room),
        NoImage::TooShort(length) => too_short(host, path, length),
    }
}

// An image that is a part of memory.
pub fn part(host: &Host, path: &[u8], length: u64, from: u16) {
    print(host, b"phk: IMAGE '@': ", &[], path);
    bytes(host, length);
    print(
        host,
        b" at #; every other byte of memory is 0\n",
        &[u64::from(from)],
        b"",
    );
}

// Which bytes an image has: an empty one has none.
fn has(host: &Host, held: Held) {
    if held.length == 0 {
        note(host, b"which has no byte");
    } else {
        let last = u64::from(held.from) + u64::from(held.length) - 1;
        print(
            host,
            b"which has # to #",
            &[u64::from(held.from), last],
            b"",
        );
    }
}

pub fn window_outside(host: &Host, window: Window, held: Held) {
    print(
        host,
        b"phk: the window # to # is not all in IMAGE, ",
        &[u64::from(window.first), u64::from(window.last)],
        b"",
    );
    has(host, held);
    note(
        host,
        b"; give a window inside it, or an image that has the whole routine\n",
    );
}

pub fn start_outside(host: &Host, pc: u16, held: Held) {
    print(
        host,
        b"phk: the run would start at #, where the instruction is not all in IMAGE, ",
        &[u64::from(pc)],
        b"",
    );
    has(host, held);
    note(host, b"; give another start with --pc\n");
}

pub fn no_demo(host: &Host) {
    note(
        host,
        b"phk: demo is shown by the command ./phk, and not by the program under it\n",
    );
}

// What a person wrote, between quotes; nothing if it is empty.
fn quoted(host: &Host, word: &[u8]) {
    if !word.is_empty() {
        print(host, b" '@'", &[], word);
    }
}

fn quoted_at(host: &Host, index: usize) {
    quoted(host, arg(host, index).as_slice());
}

fn tell_name(host: &Host, part: Part) {
    let name: &[u8] = match part {
        Part::Image => b" IMAGE",
        Part::First => b" FIRST",
        Part::Last => b" LAST",
        Part::Address => b" ADDRESS",
        Part::Count => b" COUNT",
        Part::Topic => b" COMMAND",
        Part::At => b" --at",
        Part::State => b" --state",
        Part::Pc => b" --pc",
        Part::Sp => b" --sp",
        Part::Af => b" --af",
        Part::Bc => b" --bc",
        Part::De => b" --de",
        Part::Hl => b" --hl",
        Part::Ime => b" --ime",
        Part::Ei => b" --ei",
        Part::Steps => b" --steps",
        Part::Out => b" --out",
        Part::Marks => b" --marks",
        Part::Map => b" --map",
        Part::Trace => b" --trace",
        Part::Stack => b" --stack",
        Part::Help => b" --help",
    };
    note(host, name);
}

// The part, and what was given for it.
fn named(host: &Host, part: Part, index: usize) {
    tell_name(host, part);
    quoted_at(host, index);
    note(host, b":");
}

// The part, for which nothing was given.
fn named_alone(host: &Host, part: Part) {
    tell_name(host, part);
    note(host, b":");
}

// A word by its number, the command being the first: too long to be shown.
fn numbered(host: &Host, index: usize) {
    print(host, b" word %:", &[index as u64], b"");
}

// What a mistake is about: a word, a part, or what was given for one.
fn subject(host: &Host, mistake: Mistake) {
    match mistake {
        Mistake::NoCommand => {}
        Mistake::UnknownCommand(index)
        | Mistake::UnknownOption(index)
        | Mistake::NotHere(index)
        | Mistake::Twice(index)
        | Mistake::TooMany(index) => quoted_at(host, index),
        Mistake::NoValue(part) | Mistake::NotGiven(part) => named_alone(host, part),
        Mistake::Reversed => named_alone(host, Part::First),
        Mistake::UnknownPower(part, index)
        | Mistake::BadNumber(part, index, _)
        | Mistake::AddressTooLarge(part, index) => named(host, part, index),
        Mistake::WordTooLong(index) => numbered(host, index),
    }
}

fn said(host: &Host, sentence: &[u8]) {
    print(host, b" @\n", &[], sentence);
}

// Why a word is no number.
fn fault_of(host: &Host, fault: Fault) {
    let sentence: &[u8] = match fault {
        Fault::Empty =>
            b"an empty word is no number; expected an address such as 0150, or for a count one such as 336",
        Fault::NotADigit =>
            b"this is no number; expected an address such as 0150 or 0x150, or for a count one such as 336",
        Fault::HAtTheEnd => b"an h marks no number here; write an address as 0150 or 0x150",
        Fault::HexWithoutPrefix =>
            b"a hexadecimal count needs 0x in front; expected one such as 0x150, or a decimal one such as 336",
        Fault::NoDigitAfterPrefix =>
            b"no digit follows the mark in front; expected an address such as 0x150",
        Fault::NotFourDigits =>
            b"it is not clear which address this is; write four hexadecimal digits, as 0150, or 0x150; a decimal number ends in a dot, as 336.",
        Fault::TooLarge => b"this number is too large; expected at most 4294967295",
    };
    said(host, sentence);
}

// What was expected.
fn expected(host: &Host, mistake: Mistake) {
    let sentence: &[u8] = match mistake {
        Mistake::NoCommand =>
            b"no command was given; expected screen, run, step, show, demo, version or help",
        Mistake::UnknownCommand(_) =>
            b"is no command; expected screen, run, step, show, demo, version or help",
        Mistake::UnknownOption(_) => b"is no option; phk help COMMAND lists those of a command",
        Mistake::NotHere(_) =>
            b"is no option of this command; --help after the command lists those that it has",
        Mistake::Twice(_) => b"was given twice; give it once",
        Mistake::NoValue(_) =>
            b"its value is missing; expected one more word, which begins with no dash (a file so named is ./-name)",
        Mistake::TooMany(_) =>
            b"is one word too many; --help after the command shows which it takes",
        Mistake::NotGiven(_) => b"it is missing; --help after the command shows where it stands",
        Mistake::UnknownPower(_, _) => b"no such state; expected dmg, cgb, cgb-dmg or zero",
        Mistake::Reversed =>
            b"the window is the wrong way round (refusal 4); expected FIRST not above LAST",
        Mistake::BadNumber(_, _, fault) => return fault_of(host, fault),
        Mistake::AddressTooLarge(_, _) => b"this address is too large; expected at most FFFF",
        Mistake::WordTooLong(_) => b"it is longer than 4,095 bytes; no word of phk is",
    };
    said(host, sentence);
}

// The first mistake of a command line: what it is about, and what was expected.
pub fn mistake(host: &Host, mistake: Mistake) {
    note(host, b"phk:");
    subject(host, mistake);
    expected(host, mistake);
}
