// What a replay says as it goes: of a record with a name, of a record that differs, and of a sample that is not whole.
ghost use Rattle.std.specs.Prelude.{◌≤◌, length};

use records::layout::NAME_LENGTH;
use std::io;
use std::io::Write;

// What standard output does not take is lost.
pub fn say(rt: &HostRuntime, words: &[u8]) {
    rt.stdout().write_all(words).is_ok();
}

// The same on standard error.
pub fn note(rt: &HostRuntime, words: &[u8]) {
    rt.stderr().write_all(words).is_ok();
}

// How long the words are in front of the system's number of an error.
fn words_in(said: &[u8]) -> usize
    ensures { result ≤ length said.now }
{
    for i in 0..said.len() {
        if said[i..].starts_with(b" (os error ") {
            return i;
        }
    }
    said.len()
}

// Why a file was not opened: its name, and the system's words.
pub fn not_opened(rt: &HostRuntime, path: &str, e: io::Error) {
    let mut said = [0u8; 256];
    let room = said.len();
    let mut rest: &mut [u8] = &mut said;
    let _ = write!(rest, "{e}");
    let left = rest.len();
    let n = words_in(&said[..room.saturating_sub(left)]);
    note(rt, path.as_bytes());
    note(rt, b": ");
    note(rt, &said[..n]);
    note(rt, b"\n");
}

// A record with a name is a row of the document, or of docs/DIFFERENCES.md; the name stands at its end.
pub fn say_row(rt: &HostRuntime, item: &[u8], same: bool) {
    if item.len() <= NAME_LENGTH {
        return;
    }
    let n = usize::from(item[NAME_LENGTH]);
    if n == 0 || n > item.len() {
        return;
    }
    say(rt, b"row ");
    say(rt, &item[item.len() - n..]);
    say(rt, if same { b": ok\n" } else { b": DIFFERS\n" });
}

pub fn say_short(rt: &HostRuntime) {
    println!(rt; "the sample is shorter than 2 bytes: make it again with oracle/sample").is_ok();
}

pub fn say_cut(rt: &HostRuntime, before: usize, at: usize) {
    println!(rt;
        "no whole record at byte {at}, after record {before}: the sample is cut short; make it again with oracle/sample"
    ).is_ok();
}

pub fn say_rest(rt: &HostRuntime, at: usize) {
    println!(rt;
        "the last record ends at byte {at}, but the sample goes on: make it again with oracle/sample"
    ).is_ok();
}

// Records are numbered from 1, as `oracle/sample --show` numbers them.
pub fn say_differs(rt: &HostRuntime, before: usize, at: usize) {
    let number = before.wrapping_add(1);
    println!(rt;
        "record {number}, at byte {at}, DIFFERS: see it with oracle/sample --show"
    ).is_ok();
}
