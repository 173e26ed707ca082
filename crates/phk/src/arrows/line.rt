// A line of the picture: an instruction with its bytes, and the arrows that start in its row, end in it or come through it.
ghost use Rattle.std.specs.Prelude.{◌≡◌, ◌+◌, ◌*◌};

use crate::page::say;
use crate::said::{Host, Stream};
use crate::sentences::{after, byte};
use map::lanes::{Arrow, Lane, Rows};
use map::opcode::length_of;
use map::target::{jumps_always, target_at};
use sm83::Addr;
use text::lines::line_of;
use text::page::Page;

// Columns: where an address and three bytes end, the arrow's head, and the first lane; each lane takes two.
pub const BYTES: usize = 14;

const HEAD: usize = 16;

const LANES: usize = 19;

fn put(line: &mut [u8], k: usize, b: u8) {
    if let Some(place) = line.get_mut(k) {
        *place = b;
    }
}

fn column_of(lane: u8) -> usize
    ensures { result ≡ 19 + 2 * lane }
{
    LANES + 2 * usize::from(lane)
}

// From the head to a lane.
fn rule(line: &mut [u8], lane: u8, b: u8) {
    for column in HEAD..column_of(lane) {
        put(line, column, b);
    }
}

// The arrows that end in a row.
pub fn draw_ends(line: &mut [u8], arrows: &[Arrow], row: u16) {
    for arrow in arrows {
        if let Lane::In(lane) = arrow.lane
            && arrow.rows.to == row
        {
            rule(line, lane, b'-');
        }
    }
}

// The arrow that starts with the instruction at an address.
pub fn draw_start(mem: &[u8], a: u16, line: &mut [u8], lane: Lane) {
    if let Lane::In(lane) = lane {
        if jumps_always(byte(mem, a)) {
            rule(line, lane, b'=');
        } else {
            rule(line, lane, b'-');
        }
    }
}

// What an arrow leaves in its lane.
fn draw_lane(line: &mut [u8], rows: Rows, lane: u8, row: u16) {
    let Rows { from, to } = rows;
    let column = column_of(lane);
    if from == to {
        put(line, column, b'@');
    } else if row == from {
        put(line, column, b'+');
    } else if row != to {
        put(line, column, b'|');
    } else if from < to {
        put(line, column, b'\'');
    } else {
        put(line, column, b'.');
    }
}

// The head of an arrow from one row to another.
fn draw_head(mem: &[u8], first: u16, line: &mut [u8], rows: Rows) {
    put(line, HEAD, b'<');
    if let Some(target) = target_at(mem, Addr(after(first, rows.from)))
        && target.0 != after(first, rows.to)
    {
        put(line, HEAD + 1, b'!');
    }
}

fn draw_arrow(mem: &[u8], first: u16, line: &mut [u8], arrow: Arrow, row: u16) {
    let rows = arrow.rows;
    if let Lane::In(lane) = arrow.lane
        && rows.crosses(Rows { from: row, to: row })
    {
        draw_lane(line, rows, lane, row);
        if rows.to == row {
            draw_head(mem, first, line, rows);
        }
    }
}

// The arrows that come through a row, start in it or end in it.
pub fn draw_arrows(mem: &[u8], first: u16, line: &mut [u8], arrows: &[Arrow], row: u16) {
    for arrow in arrows {
        draw_arrow(mem, first, line, *arrow, row);
    }
}

// An instruction's address and its bytes, of which so many are in the window.
pub fn put_start(mem: &[u8], a: u16, line: &mut [u8], left: usize) {
    let b = byte(mem, a);
    let shown = usize::from(length_of(b)).min(left);
    let values = [
        u64::from(a),
        u64::from(b),
        u64::from(byte(mem, after(a, 1))),
        u64::from(byte(mem, after(a, 2))),
    ];
    let form = line_of(b"\n#  $\n#  $ $\n#  $ $ $", shown);
    Page { bytes: line, at: 0 }.fill(form, &values, b"");
}

// Without the blanks at its end, but so many columns at least.
pub fn print_line(host: &Host, line: &[u8], least: usize) {
    let end = match line.iter().rposition(|b| *b != b' ') {
        Some(last) => least.max(last + 1),
        None => least,
    };
    say(host, Stream::Output, line, end);
}
