// The image is read.
ghost use Rattle.std.specs.Prelude.{◌≡◌};
ghost use Rattle.phk.specs.Counts.{IsPrefixLen};
ghost use Rattle.phk.specs.Images.{image_of};

use crate::look::text_of;
use crate::mistakes;
use crate::said::{GivenUp, Host, arg};
use crate::view::{Held, is_whole};
use commandline::grammar::Part;
use commandline::line::Line;
use std::fs::File;
use std::io;
use std::io::Read;

// Why a file is no image.
#[derive(Drop)]
pub enum NoImage {
    Unreadable(io::Error),
    // more than so many bytes
    TooLong(u64),
    // so many bytes, and no --at says where they lie
    TooShort(u64),
}

impl From<io::Error> for NoImage {
    ghost use Rattle.phk.specs.declared.files.NoImage.TheVariants.{Unreadable};

    ghost from_gives = { λ e why. why ≡ Unreadable e };

    fn from(e: io::Error) -> Self {
        NoImage::Unreadable(e)
    }
}

// After n bytes a read behind the last address found more, or none. Without --at the image is the whole memory.
fn image_of(more: bool, given: bool, from: u16, n: usize) -> Result<Held, NoImage>
    ensures { result ≡ image_of more given from n }
{
    if more {
        return Err(NoImage::TooLong(65536 - u64::from(from)));
    }
    if !given & (n < 65536) {
        return Err(NoImage::TooShort(n as u64));
    }
    Ok(Held {
        from,
        length: n.min(65536) as u32,
    })
}

fn read_on(file: &mut File) -> io::Result<usize> {
    let mut one = [0u8; 1];
    file.read(&mut one)
}

// Until all of it is filled, or nothing comes. No `for` goes over it, since a read fills as much as it likes.
fn read_full(file: &mut File, mem: &mut [u8]) -> usize
    ensures { IsPrefixLen result mem.new }
{
    let mut done = 0;
    while done < mem.len() {
        match file.read(&mut mem[done..]) {
            Ok(0) => return done,
            Ok(n) => done += n,
            Err(_) => return done,
        }
    }
    done
}

fn read_part(file: &mut File, mem: &mut [u8], from: usize) -> usize {
    if from <= mem.len() {
        return read_full(file, &mut mem[from..]);
    }
    0
}

fn load_from(file: &mut File, mem: &mut [u8], given: bool, from: u16) -> Result<Held, NoImage> {
    let n = read_part(file, mem, usize::from(from));
    let more = read_on(file)?;
    image_of(0 < more, given, from, n)
}

fn open_read(host: &Host, path: &[u8]) -> io::Result<File> {
    File::open(&host.rt, text_of(path)?)
}

fn load_named(
    host: &Host,
    path: &[u8],
    mem: &mut [u8],
    given: bool,
    from: u16,
) -> Result<Held, NoImage> {
    let mut file = open_read(host, path)?;
    load_from(&mut file, mem, given, from)
}

// Which bytes of memory the image has.
pub fn load(host: &Host, line: Line, mem: &mut [u8]) -> Result<Held, GivenUp> {
    let path = arg(host, line.word(Part::Image, 0));
    let path = path.as_slice();
    match load_named(
        host,
        path,
        mem,
        line.has(Part::At),
        line.address(Part::At, 0),
    ) {
        Ok(held) => Ok(held),
        Err(why) => {
            mistakes::no_image(host, path, why);
            Err(GivenUp)
        }
    }
}

// Of a part of memory, that the rest of it is made up: said once it is clear that what is asked for lies in the part.
pub fn tell_part(host: &Host, line: Line, held: Held) {
    if !is_whole(held) {
        let path = arg(host, line.word(Part::Image, 0));
        mistakes::part(host, path.as_slice(), u64::from(held.length), held.from);
    }
}
