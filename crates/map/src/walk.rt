// A walk by instruction length, a byte at a time.
ghost use Rattle.std.specs.Prelude.{◌≡◌, ◌==◌};
ghost use Rattle.map.specs.Walk.{left_after};

use crate::opcode::length_of;

// How many bytes of the instruction that it is in are still to come.
#[derive(Clone, Copy)]
pub struct Walk {
    pub left: u8,
}

impl Walk {
    // Whether the next byte starts an instruction. The walk goes on behind it.
    pub fn starts(&mut self, b: u8) -> bool
        ensures start { result ≡ (self.old.left == 0) }
        ensures left { self.new.left ≡ left_after self.old.left b }
    {
        let start = self.left == 0;
        let left = if start { length_of(b) } else { self.left };
        self.left = left - 1;
        start
    }
}
