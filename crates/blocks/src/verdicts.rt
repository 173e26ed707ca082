// The screen's answer block: 4 bytes.
ghost use Rattle.std.specs.Prelude.{◌≡◌, is_some, unwrap_or};
ghost use Rattle.sm83.specs.State.{addr};
ghost use Rattle.routine.specs.Numbers.{verdict_says};
ghost use Rattle.blocks.specs.ScreenBlock.{named, address, verdict_bytes};

use crate::bytes::write_front;
use routine::{Finding, verdict_number};
use sm83::Addr;

pub const VERDICT_LENGTH: usize = 4;

// The address that a finding names.
fn address(verdict: Result<(), Finding>) -> Option<Addr>
    ensures named { is_some result ≡ named (verdict_says verdict).values }
    ensures address { unwrap_or result (addr 0) ≡ address (verdict_says verdict).values }
{
    match verdict {
        Ok(()) => None,
        Err(Finding::BeforeWalk(_)) => None,
        Err(Finding::At(_, at)) => Some(at),
    }
}

// A block of any other length is left alone.
pub fn write_verdict(block: &mut [u8], verdict: Result<(), Finding>)
    ensures { block.new ≡ verdict_bytes verdict block.old }
{
    let at = address(verdict);
    let named = u8::from(at.is_some());
    let place = at.unwrap_or(Addr(0)).0.to_le_bytes();
    let fields = [verdict_number(verdict), named, place[0], place[1]];
    write_front(block, VERDICT_LENGTH, &fields);
}
