// The jumps of a window, each in a slot: the row that it comes from, the row that it goes to, and its lane in the picture.
use crate::sentences::after;
use crate::window::Window;
use map::kinds::Kind;
use map::lanes::{Arrow, Lane, Rows, free_lane};
use map::place::{Place, place_of};
use map::target::target_at;
use screen::LONGEST_WINDOW;
use sm83::Addr;

// A row is the number of its first byte in the window. An instruction that jumps has two bytes at least, so that each has a slot of its
// own, at half its row.
pub const SLOTS: usize = LONGEST_WINDOW / 2;

// A jump, in its slot.
fn note(from: u16, to: u16, lane: Lane, arrows: &mut [Arrow]) {
    if let Some(arrow) = arrows.get_mut(usize::from(from / 2)) {
        *arrow = Arrow {
            rows: Rows { from, to },
            lane,
        };
    }
}

// A jump to the inside of an instruction goes to that instruction's row.
fn note_target(mem: &[u8], window: Window, from: u16, target: Addr, arrows: &mut [Arrow]) {
    match place_of(mem, Addr(window.first), Addr(window.last), target) {
        Place::Outside => note(from, 0, Lane::Told, arrows),
        Place::Start => {
            let to = target.0.wrapping_sub(window.first);
            note(from, to, Lane::Wanted, arrows);
        }
        Place::Inside(start) => {
            let to = start.0.wrapping_sub(window.first);
            note(from, to, Lane::Wanted, arrows);
        }
    }
}

pub fn note_rows(mem: &[u8], window: Window, kinds: &[Kind], arrows: &mut [Arrow]) {
    for (i, kind) in kinds.iter().enumerate() {
        let row = (i % 65536) as u16;
        if *kind == Kind::Jump
            && let Some(target) = target_at(mem, Addr(after(window.first, row)))
        {
            note_target(mem, window, row, target, arrows);
        }
    }
}

fn find_lane(arrows: &mut [Arrow], k: usize, rows: Rows, count: u8) {
    let lane = match free_lane(arrows, rows, count) {
        Some(lane) => Lane::In(lane),
        None => Lane::Told,
    };
    if let Some(arrow) = arrows.get_mut(k) {
        *arrow = Arrow { rows, lane };
    }
}

fn find_lanes(arrows: &mut [Arrow], span: usize, count: u8) {
    for k in 0..arrows.len() {
        let Arrow { rows, lane } = arrows[k];
        if lane == Lane::Wanted && usize::from(rows.span()) == span {
            find_lane(arrows, k, rows, count);
        }
    }
}

// The short arrows first, so that they lie inside the long ones.
pub fn find_all_lanes(arrows: &mut [Arrow], rows: usize, count: u8) {
    for span in 0..rows {
        find_lanes(arrows, span, count);
    }
}
