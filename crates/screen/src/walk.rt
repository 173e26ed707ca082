// The walk from the first address by instruction length, with the tests 7 and 8 at each start.
ghost use Rattle.std.specs.Prelude.{◌≡◌, ◌+◌, ◌≤◌, length};
ghost use Rattle.screen.specs.Parts.{walked, Finds};

use crate::class::{Shape, is_forbidden};
use crate::marks::UNMARKED;
use crate::memory::shape_at;
use crate::window::address;
use routine::{Finding, ScreenRefusal};
use sm83::Addr;

// "It walks from the first address by instruction length; each start is marked 1, each other byte 0."
// "At each start 7 is tested before 8, and the first finding by address wins." A finding leaves the marks all 0.
pub fn walk(mem: &[u8], first: Addr, marks: &mut [u8]) -> Result<(), Finding>
    requires { first.0 + length marks.old ≤ 65536 }
    ensures { Finds walked mem.now first.0 (length marks.old) result marks.new }
{
    marks.fill(UNMARKED);
    let n = marks.len();
    let mut at = 0;
    // no range steps by the instruction's length, so the loop moves `at` itself
    while at < n {
        let here = address(first, at);
        let Shape(length, class) = shape_at(mem, here);
        let length = length as usize;
        let forbidden = is_forbidden(class);
        let too_long = n - at < length;
        if forbidden {
            marks.fill(UNMARKED);
            return Err(Finding::At(ScreenRefusal::ForbiddenOpcode, here));
        }
        if too_long {
            marks.fill(UNMARKED);
            return Err(Finding::At(ScreenRefusal::PastTheEnd, here));
        }
        marks[at] = 1;
        at += length;
    }
    Ok(())
}
