// phk show: bytes of memory, 16 a row, or the words of a stack. What the image does not have is shown as --.
ghost use Rattle.std.specs.Prelude.{◌≡◌};
ghost use Rattle.phk.specs.Shown.{at_most, next_of16};

use crate::page::{out, print_short};
use crate::said::{Host, Stream};
use crate::sentences::{after, byte, row};
use crate::view::{Held, holds};
use commandline::grammar::Part;
use commandline::line::Line;
use map::barred::{Barred, barred_as};

// There are no more than 65,536 bytes.
fn at_most(count: u64, most: u32) -> u32
    ensures { result ≡ at_most count most }
{
    count.min(u64::from(most)) as u32
}

fn print_byte(host: &Host, mem: &[u8], held: Held, a: u16) {
    if holds(held, a, 1) {
        print_short(host, Stream::Output, b" $", &[u64::from(byte(mem, a))], b"");
    } else {
        out(host, b" --");
    }
}

fn next_of_16(column: u8) -> u8
    ensures { result ≡ next_of16 column }
{
    (column % 16 + 1) % 16
}

// 16 to a row, with its address in front.
fn print_bytes(host: &Host, mem: &[u8], held: Held, first: u16, count: u32) {
    let mut a = first;
    let mut column: u8 = 0;
    for i in 0..count {
        if column == 0 {
            print_short(host, Stream::Output, b"# ", &[u64::from(a)], b"");
        }
        print_byte(host, mem, held, a);
        column = next_of_16(column);
        if (column == 0) | (i == count - 1) {
            out(host, b"\n");
        }
        a = after(a, 1);
    }
}

// A return address stands behind the call that pushed it: a CALL of three bytes, or an RST of one.
fn print_caller(host: &Host, mem: &[u8], back: u16) {
    let call = after(back, 65533);
    let rst = after(back, 65535);
    if matches!(barred_as(byte(mem, call)), Some(Barred::Call)) {
        print_behind(host, b"  behind the CALL at #\n", call);
    } else if matches!(barred_as(byte(mem, rst)), Some(Barred::Rst)) {
        print_behind(host, b"  behind the RST at #\n", rst);
    } else {
        out(host, b"\n");
    }
}

fn print_behind(host: &Host, form: &[u8], a: u16) {
    print_short(host, Stream::Output, form, &[u64::from(a)], b"");
}

// A word of the stack, low byte first, and the call that it may return to.
fn print_word(host: &Host, mem: &[u8], held: Held, a: u16) {
    row(host, a);
    if holds(held, a, 2) {
        let low = byte(mem, a);
        let high = byte(mem, after(a, 1));
        print_short(
            host,
            Stream::Output,
            b"$$",
            &[u64::from(high), u64::from(low)],
            b"",
        );
        print_caller(host, mem, after(u16::from(low), 256 * u16::from(high)));
    } else {
        out(host, b"----\n");
    }
}

fn print_words(host: &Host, mem: &[u8], held: Held, first: u16, count: u32) {
    let mut a = first;
    for _ in 0..count {
        print_word(host, mem, held, a);
        a = after(a, 2);
    }
}

pub fn showing(host: &Host, line: Line, mem: &[u8], held: Held) {
    let at = line.address(Part::Address, 0);
    if line.has(Part::Stack) {
        print_words(
            host,
            mem,
            held,
            at,
            at_most(line.number(Part::Count, 8), 32768),
        );
    } else {
        print_bytes(
            host,
            mem,
            held,
            at,
            at_most(line.number(Part::Count, 128), 65536),
        );
    }
}
