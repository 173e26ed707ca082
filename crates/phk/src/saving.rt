// Memory is written to a new file beside the one that --out names, and that is renamed into place: it appears whole or not at all.
ghost use Rattle.std.specs.Prelude.{◌≡◌};
ghost use Rattle.phk.specs.Targets.{target_of, same_file, nobody_writes, owns};

use crate::look::{Kind, Looked, look, may_write, text_of, user};
use crate::mistakes;
use crate::page::Filled;
use crate::said::{GivenUp, Host, arg};
use commandline::grammar::Part;
use commandline::line::Line;
use std::fs::{File, OpenOptions, Permissions};
use std::io::Write;
use std::os::unix::fs::{PermissionsExt, fchown};
use std::{fs, io};
use text::page::Page;

// The longest name beside a file: two words of a command line, and .new- between them.
const LONGEST_NAME: usize = 4096 + 5 + 4096;

// Why memory is not written at the name that --out gives.
#[derive(Drop)]
pub enum WhyNot {
    Unnamed,
    Link,
    Folder,
    NoFile,
    TheImage,
    ReadOnly,
    NotYours,
    TheOutput,
    NotMade(io::Error),
    NotFilled(io::Error),
    NotPlaced(io::Error),
}

// The same file, if the second is there.
fn same_file(a: Looked, b: Option<Looked>) -> bool
    ensures { result ≡ same_file a b }
{
    match b {
        Some(b) => (a.dev == b.dev) & (a.ino == b.ino),
        None => false,
    }
}

// Of a mode, the eighth, fifth and second bit say who may write: the system's numbers.
fn nobody_writes(mode: u32) -> bool
    ensures { result ≡ nobody_writes mode }
{
    (mode / 128 % 2 == 0) & (mode / 16 % 2 == 0) & (mode / 2 % 2 == 0)
}

// By what the system says of it and of the image, and whether the caller may write it.
fn target_of(there: Option<Looked>, image: Option<Looked>, may: bool) -> Result<(), WhyNot>
    ensures { result ≡ target_of there image may }
{
    let Some(there) = there else {
        return Ok(());
    };
    match there.kind() {
        Kind::Link => return Err(WhyNot::Link),
        Kind::Folder => return Err(WhyNot::Folder),
        Kind::Other => return Err(WhyNot::NoFile),
        Kind::File => {}
    }
    if same_file(there, image) {
        return Err(WhyNot::TheImage);
    }
    if nobody_writes(there.mode) {
        return Err(WhyNot::ReadOnly);
    }
    if may { Ok(()) } else { Err(WhyNot::NotYours) }
}

// Who may do anything may write a file, and its owner may.
fn owns(user: Option<Looked>, there: Option<Looked>) -> bool
    ensures { result ≡ owns user there }
{
    match (user, there) {
        (Some(user), Some(there)) => (user.uid == 0) | (user.uid == there.uid),
        _ => false,
    }
}

// A file that standard output goes to would take what is said with it when it is replaced.
fn is_output(host: &Host, there: Option<Looked>) -> bool {
    match there {
        Some(there) => same_file(there, look(host, b"/dev/stdout", true)),
        None => false,
    }
}

fn may_save_as(host: &Host, path: &[u8], image: &[u8]) -> Result<(), WhyNot> {
    if path.is_empty() {
        return Err(WhyNot::Unnamed);
    }
    let there = look(host, path, false);
    let may = owns(user(host), there) & may_write(host, path);
    target_of(there, look(host, image, true), may)?;
    if is_output(host, there) {
        return Err(WhyNot::TheOutput);
    }
    may_make(host, path)
}

// The new file's name is the file's with .new- and the program's first word, in which the launcher puts its process's number: if the
// program is ended in between, the launcher removes it by that name.
fn name_beside(host: &Host, path: &[u8]) -> Filled<LONGEST_NAME> {
    let mut new = [0u8; LONGEST_NAME];
    let mut page = Page {
        bytes: &mut new,
        at: 0,
    };
    page.put(path);
    page.put(b".new-");
    page.put(arg(host, 1).as_slice());
    let count = page.at;
    Filled::new(new, count)
}

// A new file, where there is none of that name.
fn create(host: &Host, path: &[u8]) -> io::Result<File> {
    let text = text_of(path)?;
    OpenOptions::new()
        .write(true)
        .create_new(true)
        .open(&host.rt, text)
}

// What cannot be removed stays.
fn remove(host: &Host, path: &[u8]) {
    if let Ok(text) = text_of(path) {
        let _ = fs::remove_file(&host.rt, text);
    }
}

fn rename(host: &Host, from: &[u8], to: &[u8]) -> io::Result<()> {
    let from = text_of(from)?;
    let to = text_of(to)?;
    fs::rename(&host.rt, from, to)
}

// Whether its folder takes a new file: tried with an empty one, which is removed at once.
fn may_make(host: &Host, path: &[u8]) -> Result<(), WhyNot> {
    let new = name_beside(host, path);
    create(host, new.as_slice()).map_err(WhyNot::NotMade)?;
    remove(host, new.as_slice());
    Ok(())
}

fn told(host: &Host, path: &[u8], done: Result<(), WhyNot>) -> Result<(), GivenUp> {
    match done {
        Ok(()) => Ok(()),
        Err(why) => {
            mistakes::not_saved(host, path, why);
            Err(GivenUp)
        }
    }
}

// Only a new name or a file that the caller may write is written to, and never the image: asked before anything is run.
pub fn may_save(host: &Host, line: Line) -> Result<(), GivenUp> {
    if !line.has(Part::Out) {
        return Ok(());
    }
    let path = arg(host, line.word(Part::Out, 0));
    let image = arg(host, line.word(Part::Image, 0));
    let may = may_save_as(host, path.as_slice(), image.as_slice());
    told(host, path.as_slice(), may)
}

// All bytes, to the disk.
fn fill(mut file: File, mem: &[u8]) -> io::Result<()> {
    let written = file.write_all(mem);
    file.sync_all()?;
    written
}

// A file that is replaced hands its owner and its mode on; who may not give files away keeps it.
fn hand_on(file: &File, there: Option<Looked>) {
    if let Some(there) = there {
        let _ = fchown(file, Some(there.uid), Some(there.gid));
        let _ = file.set_permissions(Permissions::from_mode(there.mode % 4096));
    }
}

fn place(host: &Host, file: File, new: &[u8], path: &[u8], mem: &[u8]) -> Result<(), WhyNot> {
    fill(file, mem).map_err(WhyNot::NotFilled)?;
    rename(host, new, path).map_err(WhyNot::NotPlaced)
}

// Why it is not in its place is told, and then the new file goes.
fn save_as(host: &Host, path: &[u8], mem: &[u8]) -> Result<(), GivenUp> {
    let new = name_beside(host, path);
    let file = match create(host, new.as_slice()) {
        Ok(file) => file,
        Err(e) => return told(host, path, Err(WhyNot::NotMade(e))),
    };
    hand_on(&file, look(host, path, false));
    let placed = told(host, path, place(host, file, new.as_slice(), path, mem));
    if placed.is_err() {
        remove(host, new.as_slice());
    }
    placed
}

pub fn save(host: &Host, line: Line, mem: &[u8]) -> Result<(), GivenUp> {
    let path = arg(host, line.word(Part::Out, 0));
    save_as(host, path.as_slice(), mem)
}
