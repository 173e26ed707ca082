// What the tool says: each sentence and the form of each line, once. In a form # $ % & stand for the next value, as four hexadecimal
// digits, two, a decimal number or flags, and @ for the word; a sentence that has a number is a line of a text: the number is the one that the
// document gives it, and that the tool prints. What answers whether a line was written answers `true` or `false`, since both halves of a line
// are written whatever came of the first.
ghost use Rattle.std.specs.Prelude.{◌≡◌, ◌+◌, ◌%◌};
ghost use Rattle.definition.specs.Bus.{byte_at};
ghost use Rattle.phk.specs.Values.{values_of};

use crate::page::{note, out, print_short};
use crate::said::{Host, Stream};
use crate::window::Window;
use map::kinds::Kind;
use map::opcode::length_of;
use map::tally::Counts;
use sm83::{Addr, CpuRegisters};
use text::lines::line_of;

fn print(host: &Host, form: &[u8], values: &[u64]) {
    crate::page::print(host, Stream::Output, form, values, b"");
}

pub fn byte(mem: &[u8], a: u16) -> u8
    ensures { result ≡ byte_at mem.now a }
{
    screen::memory::byte(mem, Addr(a))
}

// Addresses wrap.
pub fn after(a: u16, by: u16) -> u16
    ensures { result ≡ (a + by) % 65536 }
{
    Addr(a).wrapping_add(by).0
}

fn end_line(host: &Host) {
    out(host, b"\n");
}

// The registers as values: AF, BC, DE, HL, SP, PC, and F for the flags.
fn values_of(r: CpuRegisters) -> [u64; 7]
    ensures { result ≡ values_of r }
{
    [
        u64::from(r.reg_af_read()),
        u64::from(r.reg_bc_read()),
        u64::from(r.reg_de_read()),
        u64::from(r.reg_hl_read()),
        u64::from(r.sp.0),
        u64::from(r.pc.0),
        u64::from(r.f),
    ]
}

// An instruction start and its bytes, by a form for each length.
fn print_start(host: &Host, forms: &[u8], mem: &[u8], a: u16) -> bool {
    let b = byte(mem, a);
    let values = [
        u64::from(a),
        u64::from(b),
        u64::from(byte(mem, after(a, 1))),
        u64::from(byte(mem, after(a, 2))),
    ];
    print_short(
        host,
        Stream::Output,
        line_of(forms, usize::from(length_of(b))),
        &values,
        b"",
    )
}

pub fn start(host: &Host, mem: &[u8], a: u16) {
    print_start(host, b"\n#  $\n#  $ $\n#  $ $ $", mem, a);
    end_line(host);
}

pub fn passes(host: &Host, window: Window, count: Counts) {
    let values = [
        u64::from(window.first),
        u64::from(window.last),
        count.instructions,
        count.jumps,
    ];
    print(host, b"passes: # to #, instructions %, jumps %\n", &values);
}

// The rule that a refusal means was broken, and what to do. A step's refusals and the screen's are two types of one table: the number is what
// both print.
fn rule(host: &Host, number: u8) {
    let text = line_of(
        b"
the memory is not 65,536 bytes long; give a whole image, or say with --at where a part of one lies
the low four bits of F are not 0; give --af a value whose last digit is 0
the byte at PC is no instruction of this processor; find out how PC came here, with --trace or from the return addresses at SP
the first address of the window is above its last; give the lower one first
the window is longer than 4,096 bytes; screen one routine at a time
the list of marks is not as long as the window; this is a fault of phk, please report it
a routine must not hold this instruction (STOP, HALT, EI, RETI, JP HL, any CALL or RST, or no instruction at all); remove it, or end the window before it
this instruction is longer than what is left of the window; move LAST so that it lies inside, or remove it
the last instruction may run on past LAST; let the routine end with a JP, JR or RET that has no condition
this jump goes where no instruction of the window starts; aim it at a start inside the window, or widen the window",
        usize::from(number),
    );
    out(host, text);
    end_line(host);
}

pub fn refused(host: &Host, number: u8) {
    print(host, b"refused %\n", &[u64::from(number)]);
    rule(host, number);
}

// What the screen says, before a run within a window.
pub const SCREENED: &[u8] = b"screen: ";

// What demand 3 says of a routine that passes, started as it wants.
pub const PROVED: &[u8] =
    b"proved: until it returns or writes into itself, PC stays at its instruction starts, and no step is refused, halts, stops or is interrupted\n";

pub const NOT_PROVED_OF_REFUSED: &[u8] =
    b"nothing is proved of a routine that does not pass; its instruction starts are those met from its first address on\n";

pub const NOT_PROVED_OF_STATE: &[u8] =
    b"nothing is proved of this start: the routine passes, but interrupts are on, or about to be, or F is no F\n";

pub fn not_proved_of_start(host: &Host, a: u16) {
    print(
        host,
        b"nothing is proved of this start: the routine passes, but # is no instruction start of it\n",
        &[u64::from(a)],
    );
}

// Why the watch ended.

pub fn returned(host: &Host, a: u16) {
    print(host, b"it has returned, to #\n", &[u64::from(a)]);
}

pub fn strayed(host: &Host, a: u16) {
    print(
        host,
        b"it has lost its place: # is no instruction start of the routine, and no return led there\n",
        &[u64::from(a)],
    );
}

pub const WAS_REFUSED: &[u8] = b"a step is refused\n";

pub const WAS_STOPPED: &[u8] = b"a step stops the processor\n";

pub const WAS_HALTED: &[u8] = b"a step halts the processor\n";

pub const WAS_INTERRUPTED: &[u8] = b"a step takes an interrupt\n";

pub fn wrote_inside(host: &Host, a: u16) {
    print(
        host,
        b"a step writes into the routine, at #; from there on it is another routine\n",
        &[u64::from(a)],
    );
}

pub const LAST_STEPS: &[u8] = b"that step, and up to sixteen before it:\n";

pub fn not_run(host: &Host, f: u8) -> bool {
    print_short(
        host,
        Stream::Output,
        b" &  0  not run\n",
        &[u64::from(f)],
        b"",
    )
}

// A refusal that names an address, and the bytes there.
pub fn refused_at(host: &Host, mem: &[u8], number: u8, a: u16) {
    print(host, b"refused % at ", &[u64::from(number)]);
    start(host, mem, a);
    rule(host, number);
}

// How a run ended.
pub fn ended(host: &Host, outcome: u16) {
    let text = line_of(
        b"an instruction ran, and the processor goes on
it loops for ever: the jump at PC jumps to itself
it is halted and waits for an interrupt; none is pending
it waits for the host: HDMA is running
it is stopped: STOP ran, and only the host can start it again
it met a breakpoint: LD B,B ran
nothing was run: the number of steps was 0

it took interrupt 0, at vector 0040
it took interrupt 1, at vector 0048
it took interrupt 2, at vector 0050
it took interrupt 3, at vector 0058
it took interrupt 4, at vector 0060",
        usize::from(outcome),
    );
    out(host, text);
    end_line(host);
}

// A run that would go on.
pub fn limit(host: &Host, budget: u64) {
    print(
        host,
        b"the limit of % steps was reached, and the processor goes on; --steps N sets another limit\n",
        &[budget],
    );
}

pub const STOPPED_BY_HAND: &[u8] =
    b"it was stopped from the keyboard, and would go on; no file was written\n";

pub fn left_the_image(host: &Host, a: u16) {
    print(
        host,
        b"it has left the image: the instruction at # is not all in it\n",
        &[u64::from(a)],
    );
}

// What a run came to.
pub fn report(host: &Host, steps: u64, cycles: u64, registers: CpuRegisters) {
    print(host, b"steps %, M-cycles %\n", &[steps, cycles]);
    let values = values_of(registers);
    print(
        host,
        b"AF #  BC #  DE #  HL #  SP #  PC #  flags &\n",
        &values,
    );
}

pub fn interrupts(host: &Host, on: bool, soon: bool) {
    if on {
        out(host, b"interrupts on\n");
        return;
    }
    out(host, b"interrupts off");
    if soon {
        out(host, b", on after the next instruction");
    }
    end_line(host);
}

pub fn accesses(host: &Host, cycles: u64) {
    print(host, b"accesses to memory %\n", &[cycles]);
}

pub fn change(host: &Host, a: u16, before: u8, now: u8) {
    let values = [u64::from(a), u64::from(before), u64::from(now)];
    print(host, b"#  was $, is $\n", &values);
}

pub const NO_CHANGE: &[u8] = b"no byte of memory changed\n";

pub const TRACE_HEAD: &[u8] =
    b"PC    bytes     AF   BC   DE   HL   SP   ZNHC  M-cycles, outcome, writes\n";

// Where a traced step begins: PC, the bytes there and the registers.
pub fn tracing(host: &Host, mem: &[u8], a: u16, before: CpuRegisters) -> bool {
    let begun = print_start(host, b"\n#  $       \n#  $ $    \n#  $ $ $ ", mem, a);
    let ended = print_short(host, Stream::Output, b" # # # # #", &values_of(before), b"");
    begun & ended
}

// What it did: the flags before it, its M-cycles and how it ended.
pub fn traced(host: &Host, f: u8, cycles: u64, outcome: u16) -> bool {
    let brief = line_of(
        b"ran
loops for ever
halted
HDMA
stopped
breakpoint


interrupt 0
interrupt 1
interrupt 2
interrupt 3
interrupt 4




refused 1
refused 2
refused 3",
        usize::from(outcome),
    );
    print_short(
        host,
        Stream::Output,
        b" &  %  @",
        &[u64::from(f), cycles],
        brief,
    )
}

pub fn wrote_nothing(host: &Host) -> bool {
    print_short(host, Stream::Output, b"\n", &[], b"")
}

pub fn wrote_one(host: &Host, mem: &[u8], a: u16) -> bool {
    let values = [u64::from(a), u64::from(byte(mem, a))];
    print_short(host, Stream::Output, b"  #=$\n", &values, b"")
}

pub fn wrote_two(host: &Host, mem: &[u8], a: u16, b: u16) -> bool {
    let values = [
        u64::from(a),
        u64::from(byte(mem, a)),
        u64::from(b),
        u64::from(byte(mem, b)),
    ];
    print_short(host, Stream::Output, b"  #=$ #=$\n", &values, b"")
}

// How far a long run has come, on one line that is written over.
pub fn progress(host: &Host, steps: u64, total: u64) {
    crate::page::print(
        host,
        Stream::Errors,
        b"\r% of % steps",
        &[steps, total],
        b"",
    );
}

pub fn clear_progress(host: &Host) {
    note(host, b"\r                                \r");
}

pub fn row(host: &Host, a: u16) {
    print(host, b"#  ", &[u64::from(a)]);
}

// One byte of the map: the letter of its kind, in its kind's colour if colours are wanted.
pub fn cell(host: &Host, kind: Kind, colour: bool) {
    let (plain, coloured): (&[u8], &[u8]) = match kind {
        Kind::NotReached => (b"-", b"-\x1b[0m"),
        Kind::Start => (b"I", b"\x1b[32mI\x1b[0m"),
        Kind::Operand => (b".", b"\x1b[2m.\x1b[0m"),
        Kind::Jump => (b"J", b"\x1b[36mJ\x1b[0m"),
        Kind::Refused => (b"X", b"\x1b[31;7mX\x1b[0m"),
    };
    out(host, if colour { coloured } else { plain });
}

pub const LEGEND: &[u8] =
    b"I instruction start   . operand byte   J jump   X refused here   - not reached\n";
