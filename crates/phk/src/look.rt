// What stands at a path, before anything is written there. A path that C cannot be handed, for it is longer than 4,095 bytes, names nothing;
// nor does one that is no UTF-8.
ghost use Rattle.std.specs.Prelude.{◌≡◌, ◌<◌, MatchResult, Some, pos};
ghost use Rattle.std.specs.IoError.{raw_os_error};
ghost use Rattle.std.specs.Str.{IsUtf8};
ghost use Rattle.phk.specs.Ended.{Ended};
ghost use Rattle.phk.specs.Looking.{kept_of, kind_of};

use crate::said::Host;
use std::fs::{File, Metadata, OpenOptions};
use std::io::{Error, ErrorKind};
use std::os::unix::fs::MetadataExt;
use std::{fs, io};

const PATH_MAX: usize = 4096;

const LAST: usize = PATH_MAX - 1;

// The system's number for bytes that are no text.
const EILSEQ: i32 = 84;

// What stands at a name.
#[derive(Clone, Copy, PartialEq, Eq)]
pub enum Kind {
    Link,
    Folder,
    File,
    // a device, a pipe or a socket
    Other,
}

// Of a mode, the bits from the thirteenth on (as S_IFMT cuts them) are the system's number of a kind.
fn kind_of(mode: u32) -> Kind
    ensures { result ≡ kind_of mode }
{
    match mode / 4096 % 16 {
        10 => Kind::Link,
        4 => Kind::Folder,
        8 => Kind::File,
        _ => Kind::Other,
    }
}

// What the system says of a file: its kind and rights, which file it is (the same device and number: the same file), and whose.
#[derive(Clone, Copy)]
pub struct Looked {
    pub mode: u32,
    pub dev: u64,
    pub ino: u64,
    pub uid: u32,
    pub gid: u32,
}

impl Looked {
    pub fn kind(self) -> Kind
        ensures { result ≡ kind_of self.mode }
    {
        kind_of(self.mode)
    }
}

fn kept(mode: u32, dev: u64, ino: u64, uid: u32, gid: u32) -> Looked
    ensures { result ≡ kept_of mode dev ino uid gid }
{
    Looked {
        mode: mode,
        dev: dev,
        ino: ino,
        uid: uid,
        gid: gid,
    }
}

// A path as the system is handed it: text, of the same bytes.
pub fn text_of(path: &[u8]) -> io::Result<&str>
    ensures { MatchResult result (λ s. (s.now ≡ path.now) × IsUtf8 path.now) (λ e. ¬ (IsUtf8 path.now) × (raw_os_error e ≡ Some (pos 84))) }
{
    match std::str::from_utf8(path) {
        Ok(text) => Ok(text),
        Err(_) => Err(Error::from_raw_os_error(EILSEQ)),
    }
}

// A path that ends in a 0.
#[derive(Drop)]
struct Path {
    bytes: [u8; PATH_MAX],
    ghost ended: { Ended bytes },
}

impl Path {
    // As much of the path as leaves room for a 0, and then zeros.
    fn ended(path: &[u8]) -> Self {
        let mut ended = [0u8; PATH_MAX];
        let n = path.len().min(LAST);
        ended[..n].copy_from_slice(&path[..n]);
        ended[LAST] = 0;
        Path { bytes: ended }
    }

    // How long it is in front of its first 0.
    fn length(&self) -> usize
        ensures { result < 4096 }
    {
        self.bytes[..LAST]
            .iter()
            .position(|b| *b == 0)
            .unwrap_or(LAST)
    }

    fn as_text(&self) -> io::Result<&str> {
        text_of(&self.bytes[..self.length()])
    }
}

// What has the name itself, of a link the link; or what the name leads to, through links.
fn asked(host: &Host, path: &Path, follow: bool) -> io::Result<Metadata> {
    let text = path.as_text()?;
    if follow {
        fs::metadata(&host.rt, text)
    } else {
        fs::symlink_metadata(&host.rt, text)
    }
}

pub fn look(host: &Host, path: &[u8], follow: bool) -> Option<Looked> {
    if path.len() > LAST {
        return None;
    }
    let found = asked(host, &Path::ended(path), follow).ok()?;
    Some(kept(
        found.mode(),
        found.dev(),
        found.ino(),
        found.uid(),
        found.gid(),
    ))
}

// The program's own folder below /proc: it is the user's by whose rights files are opened.
pub fn user(host: &Host) -> Option<Looked> {
    look(host, b"/proc/self", true)
}

fn open_write(host: &Host, path: &[u8]) -> io::Result<File> {
    let text = text_of(path)?;
    OpenOptions::new().write(true).open(&host.rt, text)
}

// Whether a file opens for writing; it is closed at once. One that is being run does not, but may be replaced.
fn opens(host: &Host, path: &[u8]) -> bool {
    match open_write(host, path) {
        Ok(_) => true,
        Err(e) => e.kind() == ErrorKind::ExecutableFileBusy,
    }
}

// Whether the user may write to the file that the name leads to. Only a file is tried: a device or a pipe would be set off.
pub fn may_write(host: &Host, path: &[u8]) -> bool {
    match look(host, path, true) {
        Some(there) => there.kind() == Kind::File && opens(host, path),
        None => false,
    }
}
