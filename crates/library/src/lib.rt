// The core for Rattle to call, and for C and Rust to link by `library_c`, which exports each function that is named phk_: power-on, a step,
// a run and the screen on blocks of bytes (include/phkarotuk.h has the offsets).
// Each answers the document's number, or 255 if a block is malformed; then nothing is changed.
#![tactic(auto)]

ghost use Rattle.std.specs.Prelude.{◌≡◌};
ghost use Rattle.library.specs.Left.{left, run_blocks};
ghost use Rattle.library.specs.Screened.{left_by_screen, screen_blocks};
ghost use Rattle.library.specs.PoweredOn.{left_by_power_on, powered_on};
ghost use Rattle.library.specs.Version.{version};

use crate::calls::run_blocks;
use crate::powercall::power_on_block;
use crate::screencall::screen_blocks;

pub mod calls;
pub mod powercall;
pub mod screencall;

// What C is answered for a malformed block or an unknown model; no outcome and no refusal has this number.
const MALFORMED: u8 = 255;

// 1.0.0, a byte each.
const LIBRARY: u64 = 0x010000;

// The first eight digits of the SHA-256 of docs/01-scope.md (lib/version).
const DOCUMENT: u64 = 0x031bd0da;

// The library's number in the upper 32 bits, the document's in the lower.
pub fn phk_version() -> u64
    ensures { result ≡ version }
{
    LIBRARY * 4294967296 + DOCUMENT
}

// The whole state block at power-on.
pub fn phk_power_on(state: &mut [u8], model: u16) -> u16
    ensures { left_by_power_on result state.new ≡ powered_on model state.old }
{
    power_on_block(state, model)
}

pub fn phk_run(state: &mut [u8], mem: &mut [u8], budget: u16, answer: &mut [u8]) -> u16
    ensures { left result state.new mem.new answer.new ≡ run_blocks budget state.old mem.old answer.old }
{
    run_blocks(state, mem, budget, answer)
}

// A run of one step.
pub fn phk_step(state: &mut [u8], mem: &mut [u8], answer: &mut [u8]) -> u16
    ensures { left result state.new mem.new answer.new ≡ run_blocks 1 state.old mem.old answer.old }
{
    run_blocks(state, mem, 1, answer)
}

// Memory is never changed; the marks are as the screen leaves them.
pub fn phk_screen(mem: &[u8], first: u16, last: u16, marks: &mut [u8], answer: &mut [u8]) -> u8
    ensures { left_by_screen result marks.new answer.new ≡ screen_blocks mem.now first last marks.old answer.old }
{
    screen_blocks(mem, first, last, marks, answer)
}
