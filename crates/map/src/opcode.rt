// Length of the instruction that a byte starts, and whether it is a jump.
ghost use Rattle.std.specs.Prelude.{◌≡◌};
ghost use Rattle.opcodes.specs.Instruction.{decode, length_of};
ghost use Rattle.routine.specs.Flow.{flow_of};
ghost use Rattle.map.specs.Opcode.{goes_somewhere, is_jump};

use routine::Class;
use screen::class::{Shape, shape_of};

fn jumps(class: Class) -> bool
    ensures { result ≡ goes_somewhere (flow_of class 0 0 0) }
{
    matches!(
        class,
        Class::Absolute | Class::AbsoluteIf | Class::Relative | Class::RelativeIf
    )
}

pub fn length_of(opcode: u8) -> u8
    ensures { result ≡ length_of (decode opcode) }
{
    let Shape(length, _) = shape_of(opcode);
    length
}

// JP or JR, conditional or not.
#[tactic(auto, unfolding(crate::specs::Opcode::is_jump))]
pub(crate) fn is_jump(b: u8) -> bool
    ensures { result ≡ is_jump b }
{
    let Shape(_, class) = shape_of(b);
    jumps(class)
}
