// What C and Rust link: the functions of `library` under the names that include/phkarotuk.h declares, each with the clauses that it has there.
// No crate can stand on a static library, so each of them is a function here for C and one there for Rattle.
#![tactic(auto)]

ghost use Rattle.std.specs.Prelude.{◌≡◌};
ghost use Rattle.library.specs.Left.{left, run_blocks};
ghost use Rattle.library.specs.Screened.{left_by_screen, screen_blocks};
ghost use Rattle.library.specs.PoweredOn.{left_by_power_on, powered_on};
ghost use Rattle.library.specs.Version.{version};

// The library's number in the upper 32 bits, the document's in the lower.
#[unsafe(no_mangle)]
pub extern "C" fn phk_version() -> u64
    ensures { result ≡ version }
{
    library::phk_version()
}

// The whole state block at power-on.
#[unsafe(no_mangle)]
pub extern "C" fn phk_power_on(state: &mut [u8], model: u16) -> u16
    ensures { left_by_power_on result state.new ≡ powered_on model state.old }
{
    library::phk_power_on(state, model)
}

#[unsafe(no_mangle)]
pub extern "C" fn phk_run(state: &mut [u8], mem: &mut [u8], budget: u16, answer: &mut [u8]) -> u16
    ensures { left result state.new mem.new answer.new ≡ run_blocks budget state.old mem.old answer.old }
{
    library::phk_run(state, mem, budget, answer)
}

// A run of one step.
#[unsafe(no_mangle)]
pub extern "C" fn phk_step(state: &mut [u8], mem: &mut [u8], answer: &mut [u8]) -> u16
    ensures { left result state.new mem.new answer.new ≡ run_blocks 1 state.old mem.old answer.old }
{
    library::phk_step(state, mem, answer)
}

// Memory is never changed; the marks are as the screen leaves them.
#[unsafe(no_mangle)]
pub extern "C" fn phk_screen(
    mem: &[u8],
    first: u16,
    last: u16,
    marks: &mut [u8],
    answer: &mut [u8],
) -> u8
    ensures { left_by_screen result marks.new answer.new ≡ screen_blocks mem.now first last marks.old answer.old }
{
    library::phk_screen(mem, first, last, marks, answer)
}
