// Point 3: a halt that goes on, one that ends, or none.
ghost use Rattle.std.specs.Prelude.{◌≡◌, true};
ghost use Rattle.definition.specs.Step.{is_bug, is_asleep};
ghost use Rattle.step.specs.Stages.{Wakes};

use bus::interrupts::peek_next_interrupt;
use bus::{Left, Memory, Port};
use outcome::interrupt::is_pending;
use sm83::state::with_halt;
use sm83::{Cpu, HaltMode};

pub fn is_bug(halt: HaltMode) -> bool
    ensures { result ≡ is_bug halt }
{
    matches!(halt, HaltMode::HaltBug)
}

pub fn is_asleep(halt: HaltMode) -> bool
    ensures { result ≡ is_asleep halt }
{
    matches!(
        halt,
        HaltMode::HaltRunInterrupt | HaltMode::HaltNoRunInterrupt
    )
}

// 3. A halt goes on for one idle access, and ends with it if an interrupt is requested; a CGB takes one access more.
fn idle_asleep(cpu: Cpu, port: Port, mem: &mut Memory) -> Left<bool>
    requires { is_asleep cpu.halt ≡ true }
    ensures { Wakes cpu port mem.old result.value result.cpu result.port mem.new }
{
    let p = bus::idle(port, mem);
    let next = peek_next_interrupt(mem);
    let some = is_pending(next);
    if some {
        let s = with_halt(cpu, HaltMode::NotHalting);
        let dmg = cpu.dmg;
        if dmg {
            Left {
                cpu: s,
                port: p,
                value: false,
            }
        } else {
            let q = bus::idle(p, mem);
            Left {
                cpu: s,
                port: q,
                value: false,
            }
        }
    } else {
        Left {
            cpu: cpu,
            port: p,
            value: true,
        }
    }
}

// 3. A halt that goes on, one that ends, or none.
pub(crate) fn wake(cpu: Cpu, port: Port, mem: &mut Memory) -> Left<bool>
    ensures { Wakes cpu port mem.old result.value result.cpu result.port mem.new }
{
    let halt = cpu.halt;
    let asleep = is_asleep(halt);
    if asleep {
        idle_asleep(cpu, port, mem)
    } else {
        Left {
            cpu: cpu,
            port: port,
            value: false,
        }
    }
}
