// What `--help` and `version` print: a page each.
use crate::page::out;
use crate::said::Host;
use commandline::grammar::Command;

const GENERAL: &[u8] = b"phk: the proved SM83 processor, for a memory dump and a crash address
  phk screen IMAGE FIRST LAST        does the routine from FIRST to LAST keep its place?
  phk run IMAGE                      run instructions from PC on
  phk run IMAGE --within FIRST LAST  the whole question: screen the routine, run it, and stop where it loses its place
  phk step IMAGE                     run one, and show what it changed
  phk show IMAGE ADDRESS [COUNT]     bytes of the image, or the stack
  phk demo                           a label printer's memory: what the above say of it
  phk version                        what this is
  phk help COMMAND                   all words of a command
IMAGE is a file of 65,536 bytes, the whole memory; a shorter one needs --at ADDRESS.
";

// One rule for every address, and every address that the tool prints can be given back to it.
const ADDRESSES: &[u8] =
    b"Addresses: four hexadecimal digits, as in 0150 or C000; or 0x150, '$150'; decimal ones end in a dot, as in 336.
";

const STATUSES: &[u8] =
    b"Status: 0 done; 1 refused, or --within found that the routine loses its place; 2 bad usage; 3 the tool cannot be
built or run; 4 a file cannot be read or written, or does not hold what is asked for; 5 output was lost; 130 Ctrl-C.
";

const SCREEN: &[u8] = b"phk screen IMAGE FIRST LAST [--at A] [--marks] [--map]
Says whether the routine from FIRST to LAST, both inside, passes the screen: a routine that passes keeps PC at
its own instruction starts until it returns or writes into itself. At most 4,096 bytes.
  --marks   list the instruction starts of a routine that passes, with their bytes
  --map     a picture, 32 bytes a row: I instruction start, . operand byte, J jump, X refused here, - not reached;
            then a row for each instruction, with the jumps as arrows
  --at A    IMAGE is a part of memory that begins at address A; the window has to lie in it
";

const MACHINE: &[u8] =
    b"  --state S   registers at power-on: dmg (as if left out), cgb, cgb-dmg, or zero for all 0
  --pc A      start at address A instead
  --sp A, --af W, --bc W, --de W, --hl W
              start with the stack, or this pair of registers, at this value instead, as the crash log has it
  --ime       start with interrupts on
  --ei        start with interrupts on after the next instruction: an EI stands directly before PC
  --at A      IMAGE is a part of memory that begins at address A: every other byte is 0, and a run that leaves it stops
  --out FILE  write the 65,536 bytes of memory as they stand at the end; a new file, or one that you may write
";

const RUN: &[u8] =
    b"phk run IMAGE [--within FIRST LAST] [--state S] [--pc A] [--sp A] [--af W] [--bc W] [--de W] [--hl W] [--ime] [--ei]
              [--steps N] [--trace] [--at A] [--out FILE]
Runs up to N instructions (65535 if left out) and prints how it ended, the steps, the M-cycles (the processor's
unit of time, one for each access to memory) and all registers. It ends early at a jump to itself, a breakpoint
(LD B,B), STOP, or a byte that is no instruction.
  --within FIRST LAST
              screen the routine from FIRST to LAST first, start at FIRST unless --pc says otherwise, and stop at the
              first step whose PC is no instruction start of the routine, or that writes into it, takes an interrupt,
              halts, stops or is refused; that step and the sixteen before it are shown
  --steps N   at most 4294967295
  --trace     a line for each step: PC, bytes, AF BC DE HL SP before it, flags, M-cycles, how it ended, what it wrote
";

const STEP: &[u8] =
    b"phk step IMAGE [--state S] [--pc A] [--sp A] [--af W] [--bc W] [--de W] [--hl W] [--ime] [--ei] [--at A] [--out FILE]
Runs one instruction, and prints what phk run prints, the number of accesses to memory and each byte that changed.
";

const SHOW: &[u8] = b"phk show IMAGE ADDRESS [COUNT] [--stack] [--at A]
Shows COUNT bytes (128 if left out, at most 65,536) from ADDRESS on, 16 a row; a byte that is not in IMAGE as --.
  --stack   ADDRESS is SP: COUNT words (8 if left out) from there on, low byte first, and the call that each may return to
  --at A    IMAGE is a part of memory that begins at address A
";

const DEMO: &[u8] = b"phk demo
Shows what the other commands say of demo/label.bin, the memory of a label printer; demo/README.md says what it is.
";

const VERSION: &[u8] =
    b"phk, of Phkarotuk: an SM83 processor whose every function is proved, from mizu-core 1.3.0 (MIT)
rules: docs/01-scope.md, An SM83 processor on plain memory; it has no version number, its SHA-256 begins 031bd0daa6e4
proved with: rattle-kit-13f logic dac8208d650f15bf
";

fn machine(host: &Host, page: &[u8]) {
    out(host, page);
    out(host, MACHINE);
    out(host, ADDRESSES);
}

fn memory(host: &Host, page: &[u8]) {
    out(host, page);
    out(host, ADDRESSES);
}

fn general(host: &Host) {
    out(host, GENERAL);
    out(host, ADDRESSES);
    out(host, STATUSES);
}

pub fn help(host: &Host, command: Command) {
    match command {
        Command::Screen => memory(host, SCREEN),
        Command::Run => machine(host, RUN),
        Command::Step => machine(host, STEP),
        Command::Show => memory(host, SHOW),
        Command::Demo => out(host, DEMO),
        Command::Version | Command::Help => general(host),
    }
}

pub fn version(host: &Host) {
    out(host, VERSION);
}
