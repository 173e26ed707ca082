// Forms, filled in and written.
ghost use Rattle.std.specs.Prelude.{◌≡◌, ◌^◌, ◌<◌, ◌≤◌, min, length, take};
ghost use Rattle.phk.specs.Counts.{IsPrefixLen};

use crate::said::{Host, Stream, lose};
use std::io;
use std::io::Write;
use text::page::Page;

// As much room as there may be, of which a beginning is filled.
#[derive(Clone, Copy)]
pub struct Filled<const ROOM: usize> {
    pub bytes: [u8; ROOM],
    pub count: usize,
    ghost fits: { count ≤ ROOM },
}

impl<const ROOM: usize> Filled<ROOM> {
    // No more than there is room.
    pub fn new(bytes: [u8; ROOM], count: usize) -> Self
        ensures bytes { result.bytes ≡ bytes.entry }
        ensures count { result.count ≡ min count ROOM }
    {
        Filled {
            bytes,
            count: count.min(ROOM),
        }
    }

    pub fn as_slice(&self) -> &[u8]
        ensures { result.now ≡ take self.now.count self.now.bytes }
    {
        &self.bytes[..self.count]
    }
}

// At most the page's length.
pub fn within(out: &[u8], n: usize) -> usize
    ensures prefix_len { IsPrefixLen result out.now }
    ensures value { result ≡ min n (length out.now) }
{
    n.min(out.len())
}

// All of it, or it is lost; of standard error nobody can be told.
fn write(host: &Host, to: Stream, text: &[u8]) -> bool {
    let written = match to {
        Stream::Output => host.rt.stdout().write_all(text),
        Stream::Errors => host.rt.stderr().write_all(text),
    };
    match written {
        Ok(()) => true,
        Err(e) => {
            lose(host, to, e);
            false
        }
    }
}

pub fn out(host: &Host, text: &[u8]) {
    write(host, Stream::Output, text);
}

// The same on standard error.
pub fn note(host: &Host, text: &[u8]) {
    write(host, Stream::Errors, text);
}

// The first n bytes of a page.
pub fn say(host: &Host, to: Stream, out: &[u8], n: usize) -> bool {
    let k = within(out, n);
    write(host, to, &out[..k])
}

// A line of at most so many bytes, and whether it was written.
fn print_in<const ROOM: usize>(
    host: &Host,
    to: Stream,
    form: &[u8],
    values: &[u64],
    word: &[u8],
) -> bool
    requires { ROOM < 2 ^ 63 }
{
    let mut out = [0u8; ROOM];
    let mut page = Page {
        bytes: &mut out,
        at: 0,
    };
    page.fill(form, values, word);
    let n = page.at;
    say(host, to, &out, n)
}

// Not inlined: the room for the line would lie in the frame of each caller, also while that calls others.
#[inline(never)]
pub fn print(host: &Host, to: Stream, form: &[u8], values: &[u64], word: &[u8]) {
    print_in::<65536>(host, to, form, values, word);
}

// The same for a line of at most 128 bytes, and whether it was written.
pub fn print_short(host: &Host, to: Stream, form: &[u8], values: &[u64], word: &[u8]) -> bool {
    print_in::<128>(host, to, form, values, word)
}

// What the system says of an error: its words, and behind them its number.
fn put_error(out: &mut [u8], e: io::Error) -> usize {
    let room = out.len();
    let mut rest: &mut [u8] = out;
    let _ = write!(rest, "{e}");
    let left = rest.len();
    room.saturating_sub(left)
}

// What stands in front of the number.
const NUMBER: &[u8] = b" (os error ";

// How long the words are in front of the number.
fn words_in(said: &[u8]) -> usize {
    said.windows(11)
        .position(|here| here == NUMBER)
        .unwrap_or(said.len())
}

// The system's own words come after it.
pub fn fail(host: &Host, form: &[u8], word: &[u8], e: io::Error) {
    let mut said = [0u8; 256];
    print(host, Stream::Errors, form, &[], word);
    note(host, b": ");
    let n = put_error(&mut said, e);
    let said = Filled::new(said, n);
    let said = said.as_slice();
    say(host, Stream::Errors, said, words_in(said));
    note(host, b"\n");
}
