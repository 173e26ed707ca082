// Replays the stored sample: replay FILE. Each record is asked of the core and every value compared; then what was met is counted.
#![tactic(auto)]

mod report;
mod rounds;
mod runs;
mod said;
mod sample;
mod told;
mod windows;

use crate::report::report;
use records::notes::PLACES;
use rounds::{Room, replay};
use said::{not_opened, note};
use sample::MOST_MEMORY;
use std::env::Env;
use std::fs::File;
use std::io;
use std::io::Read;

fn replay_file(rt: &HostRuntime, file: &[u8]) {
    let mut room = Room {
        memory: [0u8; MOST_MEMORY],
        other: [0u8; MOST_MEMORY],
        counts: [0u32; PLACES],
    };
    let differ = replay(rt, file, &mut room);
    report(rt, &room.counts);
    println!(rt; "differ {differ}").is_ok();
}

fn replay_front(rt: &HostRuntime, room: &[u8], n: usize) {
    if n < room.len() {
        replay_file(rt, &room[..n]);
    } else {
        note(
            rt,
            b"replay: the sample is longer than 1,048,575 bytes: nothing was replayed\n",
        );
    }
}

// Until the room is filled, or nothing comes. std's `read_exact` takes a shorter end for an error, so the reads are counted here.
fn read_full(file: &mut File, room: &mut [u8]) -> io::Result<usize> {
    let mut done = 0;
    while done < room.len() {
        let n = file.read(&mut room[done..])?;
        if n == 0 {
            return Ok(done);
        }
        done += n;
    }
    Ok(done)
}

// A file that fills the room may go on behind it, and is not replayed.
fn replay_from(rt: &HostRuntime, file: &mut File, room: &mut [u8; 1048576]) -> io::Result<()> {
    let n = read_full(file, room)?;
    replay_front(rt, room, n);
    Ok(())
}

fn main(rt: HostRuntime) -> io::Result<()> {
    let mut word = [0u8; 4096];
    let Ok(n) = rt.arg(1, &mut word) else {
        note(&rt, b"replay: name the sample: replay FILE\n");
        return Ok(());
    };
    let Ok(path) = str::from_utf8(&word[..n]) else {
        note(
            &rt,
            b"replay: the sample's name is no UTF-8: give it another name\n",
        );
        return Ok(());
    };
    let mut file = match File::open(&rt, path) {
        Ok(file) => file,
        Err(e) => {
            not_opened(&rt, path, e);
            return Ok(());
        }
    };
    let mut room = [0u8; 1048576];
    replay_from(&rt, &mut file, &mut room)
}
