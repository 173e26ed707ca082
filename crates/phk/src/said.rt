// What the launcher told the program, and what the program tells it: the status, at the end.
ghost use Rattle.std.specs.Prelude.{◌≡◌};
ghost use Rattle.phk.specs.Status.{status_number, status_if, stands, env_in};

use crate::page::{Filled, note};
use std::cell::Cell;
use std::env::{Env as Words, FillError};
use std::fs::File;
use std::io;
use std::io::ErrorKind;

// The program's last word; its number is what the launcher hears.
#[derive(Clone, Copy, PartialEq, Eq)]
pub enum Status {
    Done = 0,
    Refused = 1,
    BadUsage = 2,
    // The image cannot be read or does not hold what is asked for, --out cannot be written.
    BadFile = 4,
    LostOutput = 5,
    StoppedByHand = 130,
    // 128 and the number of the signal that ends a program whose reader goes away.
    ReaderGone = 141,
}

impl From<Status> for u8 {
    ghost from_gives = { λ status number. number ≡ status_number status };

    fn from(status: Status) -> u8 {
        status as u8
    }
}

// A command is given up, and why has been told.
#[derive(Clone, Copy)]
pub struct GivenUp;

// The launcher's word comes first and begins with @: then c, colours on standard output, or -; p, progress on standard error, or -; s,
// there is a launcher, which hears the status and tells when to stop; w, lines may have 100 columns, or -. `first` is the first word
// of the command line proper.
#[derive(Clone, Copy)]
pub struct Env {
    pub first: usize,
    pub colour: bool,
    pub progress: bool,
    pub tells: bool,
    pub wide: bool,
}

// Where what is said goes.
#[derive(Clone, Copy)]
pub enum Stream {
    Output,
    Errors,
}

// Why standard output did not take all: its disk is full, or another reason; or the reader of what is said went away.
#[derive(Clone, Copy)]
pub enum Loss {
    DiskFull,
    NoMore,
    NoReader,
}

// The system, by which all is read and written; what standard output has not taken so far; and where the place of descriptor 5 can be
// read, if the launcher opened it.
#[derive(Drop)]
pub struct Host {
    pub rt: HostRuntime,
    pub loss: Cell<Option<Loss>>,
    pub place: Option<File>,
}

pub fn hosted(rt: HostRuntime) -> Host {
    let place = File::open(&rt, "/proc/self/fdinfo/5").ok();
    Host {
        rt,
        loss: Cell::new(None),
        place,
    }
}

// Whether anybody still reads what is said.
pub fn is_read(host: &Host) -> bool {
    !matches!(host.loss.get(), Some(Loss::NoReader))
}

// Why a write failed. Of one to standard error only that its reader went away.
fn loss_of(to: Stream, kind: ErrorKind) -> Option<Loss> {
    match (to, kind) {
        (_, ErrorKind::BrokenPipe) => Some(Loss::NoReader),
        (Stream::Output, ErrorKind::StorageFull) => Some(Loss::DiskFull),
        (Stream::Output, _) => Some(Loss::NoMore),
        (Stream::Errors, _) => None,
    }
}

// What could not be written is noted. Behind a reader that went away there is nothing to note.
pub fn lose(host: &Host, to: Stream, e: io::Error) {
    if let Some(loss) = loss_of(to, e.kind())
        && is_read(host)
    {
        host.loss.set(Some(loss));
    }
}

// How many words the program was given, its own name among them.
pub fn arg_count(host: &Host) -> usize {
    let mut byte = [0u8; 1];
    for i in 0..usize::MAX {
        if let Err(FillError::NotPresent) = host.rt.arg(i, &mut byte) {
            return i;
        }
    }
    usize::MAX
}

// A word that was given, unless it is longer than there is room.
pub fn word(host: &Host, i: usize) -> Result<Filled<4096>, FillError> {
    let mut bytes = [0u8; 4096];
    let length = host.rt.arg(i, &mut bytes)?;
    Ok(Filled::new(bytes, length))
}

// The same; an empty one if there is none or it is longer than there is room.
pub fn arg(host: &Host, i: usize) -> Filled<4096> {
    match word(host, i) {
        Ok(word) => word,
        Err(_) => Filled::new([0; 4096], 0),
    }
}

// The status of what passes, or is refused.
pub fn status_if(passes: bool) -> Status
    ensures { status_number result ≡ status_if passes }
{
    if passes {
        Status::Done
    } else {
        Status::Refused
    }
}

#[tactic(auto, unfolding(crate::specs::Status::stands))]
fn stands(word: &[u8], i: usize, b: u8) -> bool
    ensures { result ≡ stands word.now i b }
{
    i < word.len() && word[i] == b
}

fn env_in(word: &[u8]) -> Env
    ensures { result ≡ env_in word.now }
{
    if stands(word, 0, b'@') {
        return Env {
            first: 2,
            colour: stands(word, 1, b'c'),
            progress: stands(word, 2, b'p'),
            tells: stands(word, 3, b's'),
            wide: stands(word, 4, b'w'),
        };
    }
    Env {
        first: 1,
        colour: false,
        progress: false,
        tells: false,
        wide: false,
    }
}

pub fn told(host: &Host) -> Env {
    env_in(arg(host, 1).as_slice())
}

fn output_lost(host: &Host, sentence: &[u8]) -> Status {
    note(host, sentence);
    Status::LostOutput
}

// The status, unless standard output did not take all that was said.
pub fn last_word(host: &Host, status: Status) -> Status {
    match host.loss.get() {
        None => status,
        Some(Loss::DiskFull) => output_lost(
            host,
            b"phk: standard output: no space left on its device; what was to be said is not all there\n",
        ),
        Some(Loss::NoMore) => output_lost(
            host,
            b"phk: standard output takes no more; what was to be said is not all there\n",
        ),
        Some(Loss::NoReader) => Status::ReaderGone,
    }
}
