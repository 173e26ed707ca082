// phk run --within: the routine is screened, and run step by step under the watch until it loses its place.
ghost use Rattle.std.specs.Prelude.{◌≡◌, ◌-◌, true};
ghost use Rattle.sm83.specs.State.{pc};
ghost use Rattle.definition.specs.Bus.{plain};
ghost use Rattle.definition.specs.Run.{run_for};
ghost use Rattle.routine.specs.Screen.{is_marked};
ghost use Rattle.routine.specs.Trace.{takes_return};
ghost use Rattle.watch.specs.Reasons.{watch_on};
ghost use Rattle.phk.specs.Start.{started, budget};
ghost use Rattle.phk.specs.SoFar.{so_far, farther_by};
ghost use Rattle.phk.specs.Status.{status_number};
ghost use Rattle.phk.specs.Watching.{ends_watch, is_stray, settled, seen_at, Went, Leaves, status_of_watch, unless_refused};

use crate::ends::{end_status, print_end, saved, show_after, show_before, show_head};
use crate::far::{Far, NOTED, begun, farther, over};
use crate::machine::{looked, note, piece, pieces};
use crate::page::{out, within};
use crate::said::{Env, Host, Status};
use crate::screening::verdict_told;
use crate::sentences;
use crate::start::{budget, started};
use crate::view::{Held, View, unseen};
use crate::window::Window;
use commandline::grammar::Part;
use commandline::line::Line;
use sm83::{Addr, Cpu};
use text::page::Page;
use watch::demanded::{quiet, returns};
use watch::reasons::Why;
use watch::starts::{mark_starts, strays};
use watch::watch;
use watch::written::next_writes;

// How far a watched run has come, why the watch ended, and whether the last step took a return.
#[derive(Clone, Copy)]
pub struct Seen {
    pub far: Far,
    pub why: Option<Why>,
    pub home: bool,
}

fn ends_watch(why: Option<Why>) -> bool
    ensures { result ≡ ends_watch why }
{
    why.is_some()
}

// One step at a marked start.
fn watched_step(
    host: &Host,
    far: Far,
    mem: &mut [u8],
    first: Addr,
    marks: &[u8],
    trace: bool,
) -> Seen
    requires { is_marked marks.now first.0 (pc far.cpu) ≡ true }
    ensures mem_after { so_far result.far mem.new ≡ farther_by (so_far far mem.old) (run_for plain 1 far.cpu mem.old) }
    ensures why_value { result.why ≡ (watch_on far.cpu mem.old first.0 marks.now).why }
    ensures home_value { result.home ≡ takes_return plain far.cpu mem.old }
{
    let cpu = far.cpu;
    let before = cpu.registers;
    let home = returns(cpu, mem);
    let writes = next_writes(cpu, mem);
    show_before(host, trace, mem, before);
    let w = watch(cpu, mem, first, marks);
    show_after(host, trace, before, w.ran, writes, mem);
    Seen {
        far: farther(far, w.ran),
        why: w.why,
        home,
    }
}

// The reason, unless the run ended by itself: after the last step, too, PC has to be a start.
fn settled(why: Option<Why>, over: bool, astray: bool) -> Option<Why>
    ensures { result ≡ settled why over astray }
{
    if astray & !over & !ends_watch(why) {
        return Some(Why::Strays);
    }
    why
}

fn seen_at(far: Far, why: Option<Why>, home: bool, first: Addr, marks: &[u8]) -> Seen
    ensures { result ≡ seen_at far why home first.0 marks.now }
{
    let astray = strays(first, marks, far.cpu);
    Seen {
        far,
        why: settled(why, over(far), astray),
        home,
    }
}

// So many steps, or until the watch ends, or the run does. The loop counts down, as that of `pieces` does, since what is left says which
// place is noted, and a range turned round would say it no plainer. The first address and the marks are two parameters, as `watch` takes them.
fn watched(
    host: &Host,
    cpu: Cpu,
    mem: &mut [u8],
    steps: u64,
    first: Addr,
    marks: &[u8],
    view: View,
    pcs: &mut [u16],
) -> Seen
    ensures { Went steps cpu mem.old result.far mem.new }
{
    let mut f = piece(host, begun(cpu), mem, 0, false);
    let mut why = None;
    let mut home = false;
    let mut left = steps;
    while 0 < left {
        let astray = strays(first, marks, f.cpu);
        if over(f) | ends_watch(why) | astray {
            return seen_at(f, why, home, first, marks);
        }
        f = looked(host, f, mem, view);
        if over(f) {
            return seen_at(f, why, home, first, marks);
        }
        note(f, left, pcs);
        let s = watched_step(host, f, mem, first, marks, view.trace);
        f = s.far;
        why = s.why;
        home = s.home;
        left -= 1;
    }
    seen_at(f, why, home, first, marks)
}

// What is proved of a run from here, and therefore cannot happen.
fn print_proved(host: &Host, passes: bool, cpu: Cpu, first: Addr, marks: &[u8]) {
    if !passes {
        out(host, sentences::NOT_PROVED_OF_REFUSED);
    } else if strays(first, marks, cpu) {
        sentences::not_proved_of_start(host, cpu.registers.pc.0);
    } else if quiet(cpu) {
        out(host, sentences::PROVED);
    } else {
        out(host, sentences::NOT_PROVED_OF_STATE);
    }
}

fn print_stray(host: &Host, home: bool, at: u16) {
    if home {
        sentences::returned(host, at);
    } else {
        sentences::strayed(host, at);
    }
}

fn print_why(host: &Host, why: Why, home: bool, at: u16) {
    match why {
        Why::Strays => print_stray(host, home, at),
        Why::Refused => out(host, sentences::WAS_REFUSED),
        Why::Stops => out(host, sentences::WAS_STOPPED),
        Why::Halts => out(host, sentences::WAS_HALTED),
        Why::Interrupted => out(host, sentences::WAS_INTERRUPTED),
        Why::Writes(a) => sentences::wrote_inside(host, a.0),
    }
}

fn is_stray(why: Why) -> bool
    ensures { result ≡ is_stray why }
{
    matches!(why, Why::Strays)
}

// A step at no start of the routine is not run.
fn print_not_run(host: &Host, mem: &[u8], cpu: Cpu) {
    let registers = cpu.registers;
    sentences::tracing(host, mem, registers.pc.0, registers);
    sentences::not_run(host, registers.f);
}

// How many steps come before the last ones.
fn left_out(steps: u64, last: u64) -> u64
    ensures { result ≡ steps - last }
{
    steps.saturating_sub(last)
}

// The step at which the watch ended, and up to sixteen before it: run once more, from the memory as it was.
fn print_last_steps(host: &Host, cpu: Cpu, old: &mut [u8], steps: u64, astray: bool) {
    let shown = if astray { 16 } else { 17 };
    let unshown = left_out(steps, shown);
    let held = Held {
        from: 0,
        length: 65536,
    };
    let view = View {
        trace: true,
        progress: false,
        stops: false,
        held,
    };
    let mut pcs = [0u16; NOTED];
    out(host, sentences::LAST_STEPS);
    show_head(host, true);
    let far = pieces(host, cpu, old, unshown, unseen(held), &mut pcs);
    let end = pieces(host, far.cpu, old, steps - unshown, view, &mut pcs);
    if astray {
        print_not_run(host, old, end.cpu);
    }
}

fn print_unless_traced(
    host: &Host,
    trace: bool,
    cpu: Cpu,
    old: &mut [u8],
    steps: u64,
    astray: bool,
) {
    if !trace {
        print_last_steps(host, cpu, old, steps, astray);
    }
}

// A trace has shown all steps but the one that was not run.
fn print_rest(host: &Host, traced: bool, mem: &[u8], cpu: Cpu) {
    if traced {
        print_not_run(host, mem, cpu);
    }
}

// How the watch ended, or else the run.
fn print_seen(
    host: &Host,
    seen: Seen,
    cpu: Cpu,
    mem: &[u8],
    old: &mut [u8],
    steps: u64,
    trace: bool,
    pcs: &[u16],
) {
    let far = seen.far;
    let end = far.cpu;
    let registers = end.registers;
    let Some(why) = seen.why else {
        print_end(host, far, mem, steps, pcs);
        return;
    };
    print_why(host, why, seen.home, registers.pc.0);
    print_unless_traced(host, trace, cpu, old, far.steps, is_stray(why));
    print_rest(host, trace & is_stray(why), mem, end);
    sentences::report(host, far.steps, far.cycles, registers);
    sentences::interrupts(host, end.ime, end.latch);
}

fn status_of_watch(why: Option<Why>, home: bool, status: Status) -> Status
    ensures { status_number result ≡ status_of_watch why home (status_number status) }
{
    match why {
        None => status,
        Some(Why::Strays) => if home { Status::Done } else { Status::Refused },
        Some(_) => Status::Refused,
    }
}

// A routine that the screen refuses is not done, however it ran.
fn unless_refused(passes: bool, status: Status) -> Status
    ensures { status_number result ≡ unless_refused passes (status_number status) }
{
    match status {
        Status::Done if !passes => Status::Refused,
        _ => status,
    }
}

// Its marks are all starts that are met from the first address on, also in a window that the screen refuses.
fn watching_in(
    host: &Host,
    line: Line,
    mem: &mut [u8],
    old: &mut [u8],
    marks: &mut [u8],
    view: View,
    env: Env,
) -> Status
    ensures { Leaves (budget line) (started line) mem.old mem.new }
{
    let window = Window::asked(line);
    let first = Addr(window.first);
    out(host, sentences::SCREENED);
    let verdict = verdict_told(host, line, mem, marks, window, view.held, env);
    mark_starts(mem, first, marks);
    let cpu = started(line);
    let passes = verdict.is_ok();
    print_proved(host, passes, cpu, first, marks);
    show_head(host, view.trace);
    let mut pcs = [0u16; NOTED];
    let seen = watched(host, cpu, mem, budget(line), first, marks, view, &mut pcs);
    print_seen(host, seen, cpu, mem, old, budget(line), view.trace, &pcs);
    let far = seen.far;
    let status = status_of_watch(seen.why, seen.home, end_status(far.cut, far.last));
    saved(host, line, mem, far.cut, unless_refused(passes, status))
}

pub fn watching(host: &Host, line: Line, mem: &mut [u8], held: Held, env: Env) -> Status
    ensures { Leaves (budget line) (started line) mem.old mem.new }
{
    let view = View {
        trace: line.has(Part::Trace),
        progress: false,
        stops: env.tells,
        held,
    };
    let mut old = [0u8; 65536];
    Page {
        bytes: &mut old,
        at: 0,
    }
    .put(mem);
    let mut marks = [0u8; 65536];
    let n = within(&marks, Window::asked(line).length());
    watching_in(host, line, mem, &mut old, &mut marks[..n], view, env)
}
