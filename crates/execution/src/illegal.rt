// Refusal 3.
ghost use Rattle.std.specs.Prelude.{◌≡◌};
ghost use Rattle.outcome.specs.declared.Outcome.TheVariants.{Refused};
ghost use Rattle.outcome.specs.declared.Refusal.TheVariants.{IllegalOpcode};
ghost use Rattle.sm83.specs.State.{set_pc};
ghost use Rattle.execution.specs.Worked.{worked};

use crate::Made;
use bus::{Left, Port};
use outcome::{Outcome, Refusal};
use sm83::state::with_registers;
use sm83::{Addr, Cpu};

// PC as before the fetch. What points 3 and 5 did stays, and so does the end of HaltBug.
pub fn illegal(cpu: Cpu, port: Port, at: Addr) -> Left<Made>
    ensures { result ≡ worked (set_pc at.0 cpu) port 0 (Refused IllegalOpcode) }
{
    let mut regs = cpu.registers;
    regs.pc = at;
    let s = with_registers(cpu, regs);
    Left {
        cpu: s,
        port: port,
        value: Made {
            value: 0,
            outcome: Outcome::Refused(Refusal::IllegalOpcode),
        },
    }
}
