// phk run and phk step.
ghost use Rattle.std.specs.Prelude.{◌≡◌, ◌-◌, ◌<◌};
ghost use Rattle.definition.specs.Bus.{plain};
ghost use Rattle.definition.specs.Run.{run_for};
ghost use Rattle.phk.specs.Start.{started, budget};
ghost use Rattle.phk.specs.SoFar.{so_far, cut_as, farther_by, Came};
ghost use Rattle.phk.specs.Noted.{noted};
ghost use Rattle.phk.specs.Status.{status_number, Ends};

use crate::ends::{
    clear_progress, end_status, print_all_changes, print_end, saved, show_after, show_before,
    show_head, show_progress,
};
use crate::far::{Cut, Far, NOTED, begun, cut_as, cut_unless, farther, over, piece_size};
use crate::said::{Env, Host, Status, is_read};
use crate::sentences::{accesses, byte};
use crate::start::{budget, started};
use crate::view::{Held, View, asked, is_outside, is_single, unseen};
use commandline::grammar::Part;
use commandline::line::Line;
use run::run;
use sm83::Cpu;
use text::page::Page;
use watch::written::next_writes;

// One piece of a run; a traced one has its line: what stands before it, then what it did.
pub fn piece(host: &Host, far: Far, mem: &mut [u8], budget: u16, trace: bool) -> Far
    ensures { so_far result mem.new ≡ farther_by (so_far far mem.old) (run_for plain budget far.cpu mem.old) }
{
    let cpu = far.cpu;
    let before = cpu.registers;
    let begun = show_before(host, trace, mem, before);
    let writes = next_writes(cpu, mem);
    let x = run(cpu, mem, budget);
    let ended = show_after(host, trace, before, x, writes, mem);
    cut_unless(begun & ended, farther(far, x))
}

// A run that has not stopped by itself is cut where nobody reads what it says or a person asks for it, and before an instruction that is not in the image.
pub fn looked(host: &Host, far: Far, mem: &[u8], view: View) -> Far
    ensures { result ≡ cut_as far result.cut }
{
    if over(far) {
        return far;
    }
    if !is_read(host) {
        return cut_as(far, Cut::Lost);
    }
    if asked(host, view.stops) {
        return cut_as(far, Cut::ByHand);
    }
    let pc = far.cpu.registers.pc.0;
    if is_outside(view.held, pc, byte(mem, pc)) {
        return cut_as(far, Cut::Outside);
    }
    far
}

// Where a step was, by how many steps may follow it, if these are few.
pub fn note(far: Far, left: u64, pcs: &mut [u16])
    requires { 0 < left }
    ensures { pcs.new ≡ noted far (left - 1) pcs.old }
{
    let follow = left - 1;
    if follow < pcs.len() as u64 {
        pcs[follow as usize] = far.cpu.registers.pc.0;
    }
}

// The run of so many steps. The first piece has none: a state that is refused is refused also with 0 steps.
pub fn pieces(host: &Host, cpu: Cpu, mem: &mut [u8], steps: u64, view: View, pcs: &mut [u16]) -> Far
    ensures { Came steps cpu mem.old result mem.new }
{
    let mut f = piece(host, begun(cpu), mem, 0, false);
    let mut left = steps;
    // a piece is as long as `piece_size` says, so that no range goes over them
    while 0 < left {
        f = looked(host, f, mem, view);
        if over(f) {
            return f;
        }
        note(f, left, pcs);
        let size = piece_size(left, is_single(view));
        f = piece(host, f, mem, size, view.trace);
        show_progress(host, f, steps, view.progress & (size == 65535));
        left -= size as u64;
    }
    f
}

// The run that the line asks for.
fn run_all(host: &Host, line: Line, mem: &mut [u8], view: View, pcs: &mut [u16]) -> Far
    ensures { Came (budget line) (started line) mem.old result mem.new }
{
    show_head(host, view.trace);
    let end = pieces(host, started(line), mem, budget(line), view, pcs);
    clear_progress(host, view.progress);
    end
}

pub fn stepping(host: &Host, line: Line, mem: &mut [u8], held: Held) -> Status
    ensures { Ends 1 (started line) mem.old (status_number result) mem.new }
{
    let mut old = [0u8; 65536];
    Page {
        bytes: &mut old,
        at: 0,
    }
    .put(mem);
    let mut pcs = [0u16; NOTED];
    let end = pieces(host, started(line), mem, 1, unseen(held), &mut pcs);
    print_end(host, end, mem, 1, &pcs);
    accesses(host, end.cycles);
    print_all_changes(host, &old, mem);
    saved(host, line, mem, end.cut, end_status(end.cut, end.last))
}

pub fn running(host: &Host, line: Line, mem: &mut [u8], held: Held, env: Env) -> Status
    ensures { Ends (budget line) (started line) mem.old (status_number result) mem.new }
{
    let trace = line.has(Part::Trace);
    let view = View {
        trace,
        progress: env.progress & !trace,
        stops: env.tells,
        held,
    };
    let mut pcs = [0u16; NOTED];
    let end = run_all(host, line, mem, view, &mut pcs);
    print_end(host, end, mem, budget(line), &pcs);
    saved(host, line, mem, end.cut, end_status(end.cut, end.last))
}
