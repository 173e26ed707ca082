// A window whose starts are marked: the screen's tests of one start, and the one loop that looks for the lowest start that fails a test.
ghost use Rattle.std.specs.Prelude.{◌≡◌, ℕ, Bool, ◌+◌, ◌<◌, ◌≤◌, map, length};
ghost use Rattle.sm83.specs.State.{addr};
ghost use Rattle.routine.specs.Screen.{Ends, Lands};
ghost use Rattle.routine.specs.Screen.{is_marked, passes, scan, scan_for, first_of, tests};

use crate::class::{Shape, ends_routine};
use crate::marks::is_marked;
use crate::memory::{absolute, relative, shape_at};
use routine::{Class, Finding, ScreenRefusal};
use sm83::Addr;

// The address of the byte at an index of the window.
pub(crate) fn address(first: Addr, index: usize) -> Addr
    requires { first.0 + index < 65536 }
    ensures { result ≡ addr (first.0 + index) }
{
    first.wrapping_add(index as u16)
}

#[derive(Clone, Copy)]
pub(crate) struct Window<'a> {
    pub(crate) mem: &'a [u8],
    pub(crate) first: Addr,
    pub(crate) marks: &'a [u8],
    ghost inside: { first.0 + length marks.now ≤ 65536 },
}

impl Window<'_> {
    // 9: "the last instruction must be an unconditional JP, JR or RET"
    fn ends(&self, at: Addr) -> bool
        ensures { let w = self.now in result ≡ passes Ends w.mem.now (is_marked w.marks.now w.first.0) (w.first.0 + length w.marks.now) at.0 }
    {
        let Shape(length, class) = shape_at(self.mem, at);
        let end = self.first.0 as usize + self.marks.len();
        let past = at.0 as usize + length as usize;
        past != end || ends_routine(class)
    }

    // 10: the instruction at an address, if it is a JP or JR, goes to a marked address.
    #[tactic(auto, unfolding(routine::specs::Flow::flow_at))]
    fn lands(&self, at: Addr) -> bool
        ensures { let w = self.now in result ≡ passes Lands w.mem.now (is_marked w.marks.now w.first.0) (w.first.0 + length w.marks.now) at.0 }
    {
        let Shape(_, class) = shape_at(self.mem, at);
        let target = match class {
            Class::Absolute | Class::AbsoluteIf => absolute(self.mem, at),
            Class::Relative | Class::RelativeIf => relative(self.mem, at),
            _ => return true,
        };
        is_marked(self.first, self.marks, target)
    }

    // The lowest start that fails a test is refused.
    fn scan<P: Fn(Addr) -> bool>(&self, refusal: ScreenRefusal, passes: P) -> Result<(), Finding>
        requires { P.IsAlwaysCallable passes }
        ensures { (test : ℕ → Bool) → ((at : Addr) (b : Bool) → P.post passes at b → b ≡ test at.0) → let w = self.now in result ≡ scan refusal (is_marked w.marks.now w.first.0) test w.first.0 (length w.marks.now) }
    {
        for (index, mark) in self.marks.iter().enumerate() {
            let start = *mark == 1;
            if start {
                let at = address(self.first, index);
                if !passes(at) {
                    return Err(Finding::At(refusal, at));
                }
            }
        }
        Ok(())
    }

    // "After the walk comes 9", "Then 10": the tests in their order.
    pub(crate) fn tested(&self) -> Result<(), Finding>
        ensures { let w = self.now in result ≡ first_of (map (scan_for w.mem.now (is_marked w.marks.now w.first.0) w.first.0 (length w.marks.now)) tests) }
    {
        self.scan(ScreenRefusal::FallsThrough, |at| self.ends(at))?;
        self.scan(ScreenRefusal::JumpUnmarked, |at| self.lands(at))
    }
}
