// Which of its points a step goes through: it rests, it dispatches an interrupt, or it executes an instruction.
ghost use Rattle.std.specs.Prelude.{◌≡◌};
ghost use Rattle.outcome.specs.Interrupts.{is_pending};
ghost use Rattle.definition.specs.Bus.{pending};
ghost use Rattle.definition.specs.Step.{fetched};
ghost use Rattle.watch.specs.Written.{course_of};

use screen::memory::byte;
use sm83::{Addr, Cpu, CpuRegisters};
use step::waking::{is_asleep, is_bug};

#[derive(Clone, Copy)]
pub enum Course {
    Rests,
    Dispatches,
    Executes,
}

// Of any memory, which is only read; the bus peeks at a whole one that is lent to write.
// "Peeking sees byte 0xFF0F AND byte 0xFFFF AND 0x1F"
#[tactic(auto, using(crate::proofs::course::Points::some_bit))]
fn any_pending(mem: &[u8]) -> bool
    ensures { result ≡ is_pending (pending mem.now) }
{
    let requested = byte(mem, Addr(0xff0f));
    let enabled = byte(mem, Addr(0xffff));
    0 < requested & enabled & 0x1f
}

#[tactic(auto, unfolding(crate::specs::Written::course_of))]
pub fn course_of(cpu: Cpu, mem: &[u8]) -> Course
    ensures { result ≡ course_of cpu mem.now }
{
    let whole = mem.len() == 65536;
    let clear = cpu.registers.f % 16 == 0;
    let asleep = is_asleep(cpu.halt);
    let pending = any_pending(mem);
    let goes_on = whole & clear & !cpu.stopped & !cpu.hdma & (!asleep | pending);
    let interrupted = cpu.ime & pending;
    if !goes_on {
        Course::Rests
    } else if interrupted {
        Course::Dispatches
    } else {
        Course::Executes
    }
}

// "HaltBug ends here and PC goes back to its value before the fetch."
#[tactic(auto, using(crate::proofs::course::Points::kept_there, crate::proofs::course::Points::moved_on))]
pub fn after_fetch(cpu: Cpu) -> CpuRegisters
    ensures { result ≡ (fetched cpu).registers }
{
    let mut regs = cpu.registers;
    let bug = is_bug(cpu.halt);
    if bug {
        return regs;
    }
    regs.pc = regs.pc.wrapping_add(1);
    regs
}
