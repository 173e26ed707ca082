// What stands at an address of a memory of any length: a byte, an instruction, and where a JP or a JR there goes.
ghost use Rattle.std.specs.Prelude.{◌≡◌, ◌+◌};
ghost use Rattle.sm83.specs.Basics.{word, offset, next};
ghost use Rattle.definition.specs.Bus.{byte_at};
ghost use Rattle.routine.specs.Flow.{instruction_at};
ghost use Rattle.screen.specs.Shapes.{shape_of};

use crate::class::{Shape, shape_of};
use arithmetic::words::sign_extended;
use sm83::Addr;
use sm83::registers::pair;

// 0 past the end of the memory.
pub fn byte(mem: &[u8], at: Addr) -> u8
    ensures { result ≡ byte_at mem.now at.0 }
{
    mem.get(at.0 as usize).copied().unwrap_or(0)
}

// Length and class of the instruction at an address.
pub(crate) fn shape_at(mem: &[u8], at: Addr) -> Shape
    ensures { result ≡ shape_of (instruction_at mem.now at.0) }
{
    shape_of(byte(mem, at))
}

// Where a JP at an address goes.
pub fn absolute(mem: &[u8], at: Addr) -> Addr
    ensures { result.0 ≡ word (byte_at mem.now (next (next at.0))) (byte_at mem.now (next at.0)) }
{
    let low = byte(mem, at.wrapping_add(1));
    let high = byte(mem, at.wrapping_add(2));
    Addr(pair(high, low))
}

// Where a JR at an address goes: "A JR target counts from the byte after the JR, modulo 65,536."
pub fn relative(mem: &[u8], at: Addr) -> Addr
    ensures { result.0 ≡ offset (at.0 + 2) (byte_at mem.now (next at.0)) }
{
    let by = sign_extended(byte(mem, at.wrapping_add(1)));
    let after = at.wrapping_add(2);
    after.wrapping_add(by)
}
