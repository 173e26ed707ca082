// phk screen: the verdict, the marks and the map.
ghost use Rattle.std.specs.Prelude.{◌≡◌};
ghost use Rattle.routine.specs.Screen.{screen};
ghost use Rattle.phk.specs.Status.{status_number};
ghost use Rattle.phk.specs.Window.{verdict_on, status_of_verdict, is_mark};

use crate::page::{out, within};
use crate::said::{Env, Host, Status, status_if};
use crate::sentences::after;
use crate::view::Held;
use crate::window::Window;
use crate::{arrows, hints, sentences};
use commandline::grammar::Part;
use commandline::line::Line;
use map::kinds::{Kind, draw};
use map::tally::count;
use routine::Finding;
use screen::{LONGEST_WINDOW, screen};
use sm83::Addr;

fn mark(marks: &[u8], i: usize) -> bool
    ensures { result ≡ is_mark marks.now i }
{
    marks.get(i).copied() == Some(1)
}

// The starts that are marked: a mark for each byte from the first address on.
fn print_starts(host: &Host, mem: &[u8], marks: &[u8], first: u16) {
    let mut a = first;
    for i in 0..marks.len() {
        if mark(marks, i) {
            sentences::start(host, mem, a);
        }
        a = after(a, 1);
    }
}

// A cell for each byte, 32 to a row.
fn print_cells(host: &Host, kinds: &[Kind], first: u16, colour: bool) {
    let mut a = first;
    for row in kinds.chunks(32) {
        sentences::row(host, a);
        for kind in row {
            sentences::cell(host, *kind, colour);
        }
        out(host, b"\n");
        a = after(a, 32);
    }
}

// Of a window that is not too long for the screen.
fn print_map(host: &Host, mem: &[u8], window: Window, verdict: Result<(), Finding>, env: Env) {
    let mut kinds = [Kind::NotReached; LONGEST_WINDOW];
    let n = window.length().min(LONGEST_WINDOW);
    let kinds = &mut kinds[..n];
    draw(mem, Addr(window.first), verdict, kinds);
    print_cells(host, kinds, window.first, env.colour);
    out(host, sentences::LEGEND);
    arrows::arrows(host, mem, window, env.wide);
    out(host, arrows::LEGEND);
}

fn print_passes(host: &Host, line: Line, mem: &[u8], marks: &[u8], window: Window) {
    let first = window.first;
    sentences::passes(host, window, count(mem, Addr(first), marks));
    if line.has(Part::Marks) {
        print_starts(host, mem, marks, first);
    }
}

fn print_verdict(
    host: &Host,
    line: Line,
    mem: &[u8],
    marks: &[u8],
    window: Window,
    verdict: Result<(), Finding>,
    held: Held,
) {
    match verdict {
        Ok(()) => print_passes(host, line, mem, marks, window),
        Err(Finding::BeforeWalk(refusal)) => sentences::refused(host, refusal.number()),
        Err(Finding::At(refusal, at)) => {
            sentences::refused_at(host, mem, refusal.number(), at.0);
            hints::hint(host, mem, refusal, window, at.0, held);
        }
    }
}

// A window of which no address is refused, since it was not walked, has no map.
fn print_map_if(
    host: &Host,
    line: Line,
    mem: &[u8],
    window: Window,
    verdict: Result<(), Finding>,
    env: Env,
) {
    if line.has(Part::Map) && !matches!(verdict, Err(Finding::BeforeWalk(_))) {
        print_map(host, mem, window, verdict, env);
    }
}

// The verdict of a window, told.
pub fn verdict_told(
    host: &Host,
    line: Line,
    mem: &[u8],
    marks: &mut [u8],
    window: Window,
    held: Held,
    env: Env,
) -> Result<(), Finding>
    ensures { result ≡ (screen mem.now window.first window.last marks.old).verdict }
{
    let verdict = screen(mem, Addr(window.first), Addr(window.last), marks);
    print_verdict(host, line, mem, marks, window, verdict, held);
    print_map_if(host, line, mem, window, verdict, env);
    verdict
}

// The screen decides which windows it takes: it is lent a mark for each byte of any window.
pub fn screening(host: &Host, line: Line, mem: &[u8], held: Held, env: Env) -> Status
    ensures { status_number result ≡ status_of_verdict (verdict_on line mem.now) }
{
    let window = Window::asked(line);
    let mut marks = [0u8; 65536];
    let n = within(&marks, window.length());
    let verdict = verdict_told(host, line, mem, &mut marks[..n], window, held, env);
    status_if(verdict.is_ok())
}
