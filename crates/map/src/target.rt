// Where the JP or JR at an address goes, and whether it is taken whatever the flags are.
ghost use Rattle.std.specs.Prelude.{◌≡◌};
ghost use Rattle.routine.specs.Flow.{flow_of, flow_at};
ghost use Rattle.map.specs.Target.{target_of, goes_only_there, jumps_always};

use routine::Class;
use screen::class::{Shape, shape_of};
use screen::memory::{absolute, byte, relative};
use sm83::Addr;

// With a condition or without one; nothing else goes anywhere.
#[tactic(auto, unfolding(routine::specs::Flow::flow_at))]
pub fn target_at(mem: &[u8], at: Addr) -> Option<Addr>
    ensures { result ≡ target_of (flow_at mem.now at.0) }
{
    let Shape(_, class) = shape_of(byte(mem, at));
    match class {
        Class::Absolute | Class::AbsoluteIf => Some(absolute(mem, at)),
        Class::Relative | Class::RelativeIf => Some(relative(mem, at)),
        _ => None,
    }
}

fn always(class: Class) -> bool
    ensures { result ≡ goes_only_there (flow_of class 0 0 0) }
{
    matches!(class, Class::Absolute | Class::Relative)
}

// JP or JR without a condition.
#[tactic(auto, unfolding(crate::specs::Target::jumps_always))]
pub fn jumps_always(opcode: u8) -> bool
    ensures { result ≡ jumps_always opcode }
{
    let Shape(_, class) = shape_of(opcode);
    always(class)
}
