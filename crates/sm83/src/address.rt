// What addresses do: they wrap.
ghost use Rattle.std.specs.Prelude.{◌≡◌, ◌+◌, ◌-◌, ◌%◌};

use crate::Addr;

impl Addr {
    // SP, PC and HL wrap at 65,536, both ways.
    pub fn wrapping_add(self, by: u16) -> Self
        ensures { result.0 ≡ (self.0 + by) % 65536 }
    {
        Addr(std::num::wrapping_add_u16(self.0, by))
    }

    pub fn wrapping_sub(self, by: u16) -> Self
        ensures { result.0 ≡ (self.0 + (65536 - by)) % 65536 }
    {
        Addr(std::num::wrapping_sub_u16(self.0, by))
    }
}
