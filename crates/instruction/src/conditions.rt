// When a jump is taken.
ghost use Rattle.std.specs.Prelude.{◌≡◌};
ghost use Rattle.instruction.specs.Holding.{check_cond, is_unconditional};

use crate::Condition;
use sm83::flags::{flag_c, flag_z};

pub fn check_cond(cond: Condition, f: u8) -> bool
    ensures { result ≡ check_cond cond f }
{
    let c = flag_c(f);
    let z = flag_z(f);
    match cond {
        Condition::NC => !c,
        Condition::C => c,
        Condition::NZ => !z,
        Condition::Z => z,
        Condition::Unconditional => true,
    }
}

#[tactic(auto, unfolding(crate::specs::Holding::is_unconditional))]
pub fn is_unconditional(cond: Condition) -> bool
    ensures { result ≡ is_unconditional cond }
{
    matches!(cond, Condition::Unconditional)
}
