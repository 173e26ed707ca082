// The picture of a window with its jumps as arrows: a row for each instruction, and to the right of its bytes a lane for each jump.
//
//   <      an arrow ends here, at the instruction's start      <!  or inside the instruction, where nothing starts
//   --     a jump with a condition, == one without; + is its end of the lane, . or ' the end where it goes, @ both in one row
//   -> =>  a jump that leaves the window, or that found no free lane
mod line;
mod slots;

use crate::arrows::line::{BYTES, draw_arrows, draw_ends, draw_start, print_line, put_start};
use crate::arrows::slots::{SLOTS, find_all_lanes, note_rows};
use crate::page::{out, print_short, within};
use crate::said::{Host, Stream};
use crate::sentences::{after, byte};
use crate::window::Window;
use map::kinds::{Kind, draw};
use map::lanes::{Arrow, Lane, Rows, arrow_at};
use map::target::{jumps_always, target_at};
use screen::LONGEST_WINDOW;
use sm83::Addr;

// Where the jump at an address goes, in place of an arrow.
fn print_target(host: &Host, mem: &[u8], a: u16) {
    if let Some(target) = target_at(mem, Addr(a)) {
        let values = [u64::from(target.0)];
        if jumps_always(byte(mem, a)) {
            print_short(host, Stream::Output, b"  => #", &values, b"");
        } else {
            print_short(host, Stream::Output, b"  -> #", &values, b"");
        }
    }
}

// What is drawn: the window from an address on, and its arrows.
#[derive(Clone, Copy)]
struct Picture<'a> {
    mem: &'a [u8],
    first: u16,
    arrows: &'a [Arrow],
}

// An instruction with the lane of its jump; so many bytes of the window are left from it on.
fn print_row(host: &Host, picture: Picture, row: u16, lane: Lane, left: usize) {
    let Picture { mem, first, arrows } = picture;
    let mut line = [b' '; 128];
    let a = after(first, row);
    put_start(mem, a, &mut line, left);
    draw_ends(&mut line, arrows, row);
    draw_start(mem, a, &mut line, lane);
    draw_arrows(mem, first, &mut line, arrows, row);
    if lane == Lane::Told {
        print_line(host, &line, BYTES);
        print_target(host, mem, a);
    } else {
        print_line(host, &line, 0);
    }
    out(host, b"\n");
}

fn print_rows(host: &Host, picture: Picture, kinds: &[Kind]) {
    let n = kinds.len();
    for (i, kind) in kinds.iter().enumerate() {
        let row = (i % 65536) as u16;
        match kind {
            Kind::Start => print_row(host, picture, row, Lane::NoArrow, n - i),
            Kind::Jump => {
                let lane = arrow_at(picture.arrows, usize::from(row / 2)).lane;
                print_row(host, picture, row, lane, n - i);
            }
            _ => {}
        }
    }
}

// Of a window that is not too long for the screen; no line is longer than 100 columns if it may be wide, and else than 80.
pub fn arrows(host: &Host, mem: &[u8], window: Window, wide: bool) {
    let mut kinds = [Kind::NotReached; LONGEST_WINDOW];
    let n = window.length().min(LONGEST_WINDOW);
    let kinds = &mut kinds[..n];
    let none = Arrow {
        rows: Rows { from: 0, to: 0 },
        lane: Lane::NoArrow,
    };
    let mut arrows = [none; SLOTS];
    draw(mem, Addr(window.first), Ok(()), kinds);
    note_rows(mem, window, kinds, &mut arrows);
    find_all_lanes(&mut arrows, n, if wide { 36 } else { 26 });
    let picture = Picture {
        mem,
        first: window.first,
        arrows: &arrows,
    };
    print_rows(host, picture, kinds);
}

// What the signs mean.
pub const LEGEND: &[u8] =
    b"<- lands here  <! inside it  -+ jumps if  =+ jumps  @ to itself  -> => no arrow\n";
