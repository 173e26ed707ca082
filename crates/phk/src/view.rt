// What a run is watched for: a line a step, how far it is, the launcher's word to stop, and the part of memory that the image holds.
ghost use Rattle.std.specs.Prelude.{◌≡◌};
ghost use Rattle.phk.specs.View.{holds, is_whole, is_single, is_outside, unseen};

use crate::said::Host;
use map::opcode::length_of;
use std::fs::File;
use std::os::unix::fs::FileExt;

// The bytes of memory that the image has: `length` of them, from an address on.
#[derive(Clone, Copy)]
pub struct Held {
    pub from: u16,
    pub length: u32,
}

#[derive(Clone, Copy)]
pub struct View {
    pub trace: bool,
    pub progress: bool,
    pub stops: bool,
    pub held: Held,
}

pub fn is_whole(held: Held) -> bool
    ensures { result ≡ is_whole held }
{
    65536 <= held.length
}

// Whether so many bytes from an address on are all in the image.
pub fn holds(held: Held, at: u16, length: u32) -> bool
    ensures { result ≡ holds held at length }
{
    let begins = held.from <= at;
    let ends = u64::from(at) + u64::from(length) <= u64::from(held.from) + u64::from(held.length);
    is_whole(held) | (begins & ends)
}

// A run goes step by step if each is shown, or may be the one that leaves the image.
pub fn is_single(view: View) -> bool
    ensures { result ≡ is_single view }
{
    view.trace | !is_whole(view.held)
}

// Nothing is shown, and nothing asked.
pub fn unseen(held: Held) -> View
    ensures { result ≡ unseen held }
{
    View {
        trace: false,
        progress: false,
        stops: false,
        held,
    }
}

// The launcher has asked to stop: it has read from the file that it opened as descriptor 5, whose place it shares with the program.
pub fn asked(host: &Host, stops: bool) -> bool {
    stops && has_moved(&host.place)
}

// The system says of a descriptor "pos:", a tab and its place first: 0 at the file's beginning.
fn has_moved(place: &Option<File>) -> bool {
    let mut said = [0u8; 8];
    if let Some(file) = place
        && let Ok(n) = file.read_at(&mut said, 0)
    {
        return (5 < n) & (said[5] != b'0');
    }
    false
}

// The instruction at an address, whose first byte is b, is not all in the image.
pub fn is_outside(held: Held, at: u16, b: u8) -> bool
    ensures { result ≡ is_outside held at b }
{
    !holds(held, at, u32::from(length_of(b)))
}
