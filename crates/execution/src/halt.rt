// HALT.
ghost use Rattle.std.specs.Prelude.{◌≡◌};
ghost use Rattle.bus.specs.Leads.{Runs};
ghost use Rattle.execution.specs.Mirror.{halt_made};

use crate::Made;
use crate::results::normal;
use bus::interrupts::peek_next_interrupt;
use bus::{Left, Memory, Port};
use outcome::interrupt::is_pending;
use sm83::state::with_halt;
use sm83::{Cpu, HaltMode};

pub fn halt(cpu: Cpu, port: Port, mem: &mut Memory) -> Left<Made>
    ensures { Runs halt_made cpu port mem.old result.value result.cpu result.port mem.new }
{
    let ime = cpu.ime;
    if ime {
        normal(with_halt(cpu, HaltMode::HaltRunInterrupt), port, 0)
    } else {
        let next = peek_next_interrupt(mem);
        let some = is_pending(next);
        if some {
            normal(with_halt(cpu, HaltMode::HaltBug), port, 0)
        } else {
            normal(with_halt(cpu, HaltMode::HaltNoRunInterrupt), port, 0)
        }
    }
}
