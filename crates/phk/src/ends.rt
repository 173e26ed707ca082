// How far a run is, while it goes on, and how it ended: its last outcome, the registers, what changed in memory, the image that is saved.
ghost use Rattle.std.specs.Prelude.{◌≡◌, ◌≢◌, is_ok};
ghost use Rattle.phk.specs.Status.{bad_file, refusal_in, refusal_of, status_for, status_number, keeps_file, unless_lost};

use crate::far::{Cut, Far};
use crate::page::out;
use crate::said::{GivenUp, Host, Status, is_read, status_if};
use crate::sentences::byte;
use crate::{saving, sentences};
use commandline::grammar::Part;
use commandline::line::Line;
use outcome::{Outcome, Refusal, last_number};
use run::Ran;
use sm83::CpuRegisters;
use watch::written::Written;

// The refusal that an outcome is.
fn refusal_in(outcome: Outcome) -> Option<Refusal>
    ensures { result ≡ refusal_in outcome }
{
    match outcome {
        Outcome::Refused(refusal) => Some(refusal),
        _ => None,
    }
}

fn refusal_of(last: Option<Outcome>) -> Option<Refusal>
    ensures { result ≡ refusal_of last }
{
    refusal_in(last?)
}

pub fn end_status(cut: Option<Cut>, last: Option<Outcome>) -> Status
    ensures { status_number result ≡ status_for cut last }
{
    match cut {
        None => status_if(refusal_of(last).is_none()),
        Some(Cut::Lost) => Status::LostOutput,
        Some(Cut::ByHand) => Status::StoppedByHand,
        Some(Cut::Outside) => Status::BadFile,
    }
}

// How a run ended that was not cut: by a refusal, by itself, or because no more steps were asked for.
fn print_last(host: &Host, last: Option<Outcome>, at: u16, mem: &[u8], budget: u64, pcs: &[u16]) {
    match last {
        Some(Outcome::Refused(refusal)) => {
            sentences::refused_at(host, mem, refusal.number(), at);
        }
        Some(Outcome::Normal) if 1 < budget => {
            sentences::limit(host, budget);
            crate::round::going_round(host, budget, pcs);
        }
        _ => sentences::ended(host, last_number(last)),
    }
}

pub fn print_end(host: &Host, far: Far, mem: &[u8], budget: u64, pcs: &[u16]) {
    let cpu = far.cpu;
    let registers = cpu.registers;
    match far.cut {
        None => print_last(host, far.last, registers.pc.0, mem, budget, pcs),
        Some(Cut::Lost) => {}
        Some(Cut::ByHand) => out(host, sentences::STOPPED_BY_HAND),
        Some(Cut::Outside) => sentences::left_the_image(host, registers.pc.0),
    }
    sentences::report(host, far.steps, far.cycles, registers);
    sentences::interrupts(host, cpu.ime, cpu.latch);
}

fn print_change(host: &Host, old: &[u8], mem: &[u8], a: u16) {
    let before = byte(old, a);
    let now = byte(mem, a);
    if before != now {
        sentences::change(host, a, before, now);
    }
}

fn print_changes(host: &Host, old: &[u8], mem: &[u8]) {
    for a in 0..=u16::MAX {
        print_change(host, old, mem, a);
    }
}

pub fn print_all_changes(host: &Host, old: &[u8], mem: &[u8]) {
    print_changes(host, old, mem);
    if old == mem {
        out(host, sentences::NO_CHANGE);
    }
}

// An image that could not be saved.
fn unless_lost(saved: Result<(), GivenUp>, status: Status) -> Status
    ensures { status_number result ≡ unless_lost (is_ok saved) (status_number status) }
{
    match saved {
        Ok(()) => status,
        Err(GivenUp) => Status::BadFile,
    }
}

// A run that a person stopped, or whose trace was lost, leaves no file.
fn keeps_file(cut: Option<Cut>) -> bool
    ensures { result ≡ keeps_file cut }
{
    !matches!(cut, Some(Cut::Lost | Cut::ByHand))
}

// The memory as it stands at the end, if --out was given and what the run came to could be said.
pub fn saved(host: &Host, line: Line, mem: &[u8], cut: Option<Cut>, status: Status) -> Status
    ensures { (status_number result ≢ bad_file) → status_number result ≡ status_number status }
{
    if line.has(Part::Out) & keeps_file(cut) & is_read(host) {
        return unless_lost(saving::save(host, line, mem), status);
    }
    status
}

// The head of a trace.
pub fn show_head(host: &Host, trace: bool) {
    if trace {
        out(host, sentences::TRACE_HEAD);
    }
}

// What stands before a traced step, and whether it could be written.
pub fn show_before(host: &Host, trace: bool, mem: &[u8], before: CpuRegisters) -> bool {
    if trace {
        return sentences::tracing(host, mem, before.pc.0, before);
    }
    true
}

// What a traced step did, and whether it could be written.
pub fn show_after(
    host: &Host,
    trace: bool,
    before: CpuRegisters,
    piece: Ran,
    writes: Written,
    mem: &[u8],
) -> bool {
    if trace {
        let did = sentences::traced(
            host,
            before.f,
            u64::from(piece.cycles.0),
            last_number(piece.last),
        );
        let wrote = show_writes(host, writes, mem);
        return did & wrote;
    }
    true
}

// The bytes that a step wrote, as they stand after it.
fn show_writes(host: &Host, writes: Written, mem: &[u8]) -> bool {
    match writes {
        Written::Nothing => sentences::wrote_nothing(host),
        Written::One(a) => sentences::wrote_one(host, mem, a.0),
        Written::Two(a, b) => sentences::wrote_two(host, mem, a.0, b.0),
    }
}

// `total` is the number of steps that were asked for.
pub fn show_progress(host: &Host, far: Far, total: u64, on: bool) {
    if on {
        sentences::progress(host, far.steps, total);
    }
}

pub fn clear_progress(host: &Host, on: bool) {
    if on {
        sentences::clear_progress(host);
    }
}
