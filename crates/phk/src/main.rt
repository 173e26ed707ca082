// The field tool: phk screen, run, step, show, version and help. What it says is in `sentences`, `hints`, `arrows`, `round`, `mistakes` and
// `help`; the image is read in `files`, memory written in `saving`, which asks `look` what stands there. The screen is in `screening`, a run
// in `machine`, one within a window in `within`, from where it starts in `start`, how far it has come in `far`, what it is looked at for in
// `view`; bytes and the stack in `showing`. What the command line means is in `commandline`; here the line is read and obeyed. The host, the
// line, the memory, what of it the image holds and the launcher's word are parameters of their own: memory is lent to be read here and written
// there, and each contract speaks of the line and of memory before and after, which would be plainer by no struct.
#![tactic(auto)]

ghost use Rattle.std.specs.Prelude.{◌≡◌};
ghost use Rattle.std.specs.Result.{result_unwrap_or};
ghost use Rattle.commandline.specs.Finish.{finished};
ghost use Rattle.phk.specs.Status.{done, bad_usage, status_number, Obeyed, Answered};

mod arrows;
mod ends;
mod far;
mod files;
mod help;
mod hints;
mod look;
mod machine;
mod mistakes;
mod page;
mod round;
mod said;
mod saving;
mod screening;
mod sentences;
mod showing;
mod start;
mod view;
mod window;
mod within;

use crate::said::{Env, GivenUp, Host, Status, arg_count, word};
use crate::sentences::byte;
use crate::start::started;
use crate::view::{Held, holds, is_outside};
use crate::window::Window;
use commandline::finish::{Asked, finish};
use commandline::grammar::{Command, Part};
use commandline::line::{Line, Mistake};
use commandline::take::{overlong, take};
use std::env::FillError;
use std::process::ExitCode;

// The words of the command line, from one on.
fn read_words(host: &Host, first: usize) -> Line {
    let mut line = Line::new();
    for i in first..arg_count(host) {
        line = read_word(host, line, i);
    }
    line
}

// A word that is longer than any path is none that could be meant.
fn read_word(host: &Host, line: Line, i: usize) -> Line {
    match word(host, i) {
        Ok(word) => take(line, word.as_slice(), i),
        Err(FillError::TooLong) => overlong(line, i),
        Err(FillError::NotPresent) => take(line, b"", i),
    }
}

// The window that is asked for has to be in the image: what is not was never in the dump.
fn has_window(host: &Host, line: Line, held: Held) -> Result<(), GivenUp> {
    if !line.has(Part::First) {
        return Ok(());
    }
    let window = Window::asked(line);
    if holds(held, window.first, window.length() as u32) {
        return Ok(());
    }
    mistakes::window_outside(host, window, held);
    Err(GivenUp)
}

// So has the first instruction of a run.
fn has_start(host: &Host, line: Line, mem: &[u8], held: Held) -> Result<(), GivenUp> {
    let pc = started(line).registers.pc.0;
    if is_outside(held, pc, byte(mem, pc)) {
        mistakes::start_outside(host, pc, held);
        return Err(GivenUp);
    }
    Ok(())
}

// The image, for a run: what keeps one from beginning is told, the first such thing.
fn load_ready(host: &Host, line: Line, mem: &mut [u8]) -> Result<Held, GivenUp> {
    let held = files::load(host, line, mem)?;
    has_window(host, line, held)?;
    has_start(host, line, mem, held)?;
    saving::may_save(host, line)?;
    files::tell_part(host, line, held);
    Ok(held)
}

fn screen(host: &Host, line: Line, env: Env) -> Result<Status, GivenUp> {
    let mut mem = [0u8; 65536];
    let held = files::load(host, line, &mut mem)?;
    has_window(host, line, held)?;
    files::tell_part(host, line, held);
    Ok(screening::screening(host, line, &mem, held, env))
}

// By itself, or within a window.
fn run(host: &Host, line: Line, env: Env) -> Result<Status, GivenUp> {
    let mut mem = [0u8; 65536];
    let held = load_ready(host, line, &mut mem)?;
    if line.has(Part::First) {
        return Ok(within::watching(host, line, &mut mem, held, env));
    }
    Ok(machine::running(host, line, &mut mem, held, env))
}

fn step(host: &Host, line: Line) -> Result<Status, GivenUp> {
    let mut mem = [0u8; 65536];
    let held = load_ready(host, line, &mut mem)?;
    Ok(machine::stepping(host, line, &mut mem, held))
}

fn show(host: &Host, line: Line) -> Result<Status, GivenUp> {
    let mut mem = [0u8; 65536];
    let held = files::load(host, line, &mut mem)?;
    files::tell_part(host, line, held);
    showing::showing(host, line, &mem, held);
    Ok(Status::Done)
}

// What keeps a command from being carried out is a file.
fn or_bad_file(carried: Result<Status, GivenUp>) -> Status
    ensures { result ≡ result_unwrap_or carried Status.BadFile }
{
    match carried {
        Ok(status) => status,
        Err(GivenUp) => Status::BadFile,
    }
}

// The launcher shows the demo before it starts the program.
fn demo(host: &Host) -> Status
    ensures { status_number result ≡ bad_usage }
{
    mistakes::no_demo(host);
    Status::BadUsage
}

fn show_help(host: &Host, command: Command) -> Status
    ensures { status_number result ≡ done }
{
    help::help(host, command);
    Status::Done
}

fn version(host: &Host) -> Status
    ensures { status_number result ≡ done }
{
    help::version(host);
    Status::Done
}

fn mistaken(host: &Host, mistake: Mistake) -> Status
    ensures { status_number result ≡ bad_usage }
{
    mistakes::mistake(host, mistake);
    Status::BadUsage
}

fn obey(host: &Host, command: Command, line: Line, env: Env) -> Status
    ensures { Obeyed command (status_number result) }
{
    match command {
        Command::Screen => or_bad_file(screen(host, line, env)),
        Command::Run => or_bad_file(run(host, line, env)),
        Command::Step => or_bad_file(step(host, line)),
        Command::Show => or_bad_file(show(host, line)),
        Command::Demo => demo(host),
        Command::Version => version(host),
        Command::Help => show_help(host, command),
    }
}

fn carried_out(host: &Host, line: Line, env: Env) -> Status
    ensures { Answered (finished line) (status_number result) }
{
    match finish(line) {
        Ok(Asked::Help(command)) => show_help(host, command),
        Ok(Asked::Obey(command)) => obey(host, command, line, env),
        Err(mistake) => mistaken(host, mistake),
    }
}

fn main(rt: HostRuntime) -> ExitCode {
    let host = said::hosted(rt);
    let env = said::told(&host);
    let status = carried_out(&host, read_words(&host, env.first), env);
    ExitCode::from(u8::from(said::last_word(&host, status)))
}
