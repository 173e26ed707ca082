// The routine screen: the tests before the walk, the walk, and the tests after it.
#![tactic(auto)]

ghost use Rattle.std.specs.Prelude.{◌+◌, ◌≤◌, length};
ghost use Rattle.routine.specs.Screen.{verdict, screen};
ghost use Rattle.screen.specs.Parts.{Finds, Screens};

use crate::marks::UNMARKED;
use crate::walk::walk;
use crate::window::Window;
use routine::{Finding, ScreenRefusal};
use sm83::Addr;

pub mod class;
pub mod marks;
pub mod memory;
mod walk;
mod window;

pub const LONGEST_WINDOW: usize = 4096;

// 7 and 8, then the tests after them; "marks all 0", unless it passes.
fn judge(mem: &[u8], first: Addr, marks: &mut [u8]) -> Result<(), Finding>
    requires { first.0 + length marks.old ≤ 65536 }
    ensures { Finds verdict mem.now first.0 (length marks.old) result marks.new }
{
    walk(mem, first, marks)?;
    let window = Window { mem, first, marks };
    let found = window.tested();
    let refused = found.is_err();
    if refused {
        marks.fill(UNMARKED);
    }
    found
}

// "The screen tests 1, 4, 5, 6 in this order; it never changes memory."
pub fn screen(mem: &[u8], first: Addr, last: Addr, marks: &mut [u8]) -> Result<(), Finding>
    ensures { Screens (screen mem.now first.0 last.0 marks.old) result marks.new }
{
    if mem.len() != 65536 {
        return Err(Finding::BeforeWalk(ScreenRefusal::MemoryLength));
    }
    let Some(further) = last.0.checked_sub(first.0) else {
        return Err(Finding::BeforeWalk(ScreenRefusal::WindowReversed));
    };
    let n = further as usize + 1;
    if n > LONGEST_WINDOW {
        return Err(Finding::BeforeWalk(ScreenRefusal::WindowTooLong));
    }
    if marks.len() != n {
        return Err(Finding::BeforeWalk(ScreenRefusal::MarksLength));
    }
    judge(mem, first, marks)
}
