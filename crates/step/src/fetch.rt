// Points 5 and 6: the EI latch, the fetch, and the end of HaltBug.
ghost use Rattle.std.specs.Prelude.{◌≡◌};
ghost use Rattle.definition.specs.Step.{enabled};
ghost use Rattle.step.specs.Stages.{unbugged, Fetches};

use crate::Fetched;
use crate::waking::is_bug;
use bus::fetch::fetch_next_pc;
use bus::{AccessKind, Left, Memory, Port};
use instruction::Instruction;
use sm83::state::with_halt;
use sm83::{Addr, Cpu, HaltMode};

// 5. The EI latch goes into IME.
pub fn enable(cpu: Cpu) -> Cpu
    ensures { result ≡ enabled cpu }
{
    let mut c = cpu;
    c.ime = cpu.ime | cpu.latch;
    c.latch = false;
    c
}

// 6. HaltBug ends after the fetch, and PC goes back.
pub fn unbug(cpu: Cpu, at: Addr) -> Cpu
    ensures { result ≡ unbugged cpu at.0 }
{
    let halt = cpu.halt;
    let bug = is_bug(halt);
    if bug {
        let mut regs = cpu.registers;
        regs.pc = at;
        let mut c = cpu;
        c.registers = regs;
        with_halt(c, HaltMode::NotHalting)
    } else {
        cpu
    }
}

// 5 and 6. After 0xCB another byte says what is to be done.
pub fn fetch_instruction(cpu: Cpu, port: Port, mem: &mut Memory) -> Left<Fetched>
    ensures { Fetches cpu port mem.old result.value.at.0 result.value.instruction result.cpu result.port mem.new }
{
    let c = enable(cpu);
    let regs = c.registers;
    let at = regs.pc;
    let x = fetch_next_pc(c, port, AccessKind::Fetch, mem);
    let d = x.cpu;
    let p = x.port;
    let s = unbug(d, at);
    if x.value == 0xcb {
        let y = fetch_next_pc(s, p, AccessKind::Fetch, mem);
        let e = y.cpu;
        let q = y.port;
        return Left {
            cpu: e,
            port: q,
            value: Fetched {
                instruction: Instruction::from_prefix(y.value),
                at: at,
            },
        };
    }
    Left {
        cpu: s,
        port: p,
        value: Fetched {
            instruction: Instruction::from_byte(x.value),
            at: at,
        },
    }
}
