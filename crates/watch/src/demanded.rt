// What demand 3 asks of the state that a routine starts in, and the return that ends its run.
ghost use Rattle.std.specs.Prelude.{◌≡◌};
ghost use Rattle.opcodes.specs.Instruction.{decode};
ghost use Rattle.definition.specs.Bus.{plain};
ghost use Rattle.routine.specs.Flow.{returns};
ghost use Rattle.routine.specs.Trace.{takes_return};
ghost use Rattle.watch.specs.Demanded.{is_halted, is_quiet};

use instruction::Condition;
use instruction::conditions::check_cond;
use screen::memory::byte;
use sm83::{Cpu, HaltMode};

pub(crate) fn is_halted(halt: HaltMode) -> bool
    ensures { result ≡ is_halted halt }
{
    !matches!(halt, HaltMode::NotHalting)
}

// A state that a step accepts, awake, with interrupts off and none being enabled.
pub fn quiet(cpu: Cpu) -> bool
    ensures { result ≡ is_quiet cpu }
{
    let halted = is_halted(cpu.halt);
    let clear = cpu.registers.f % 16 == 0;
    !cpu.stopped & !cpu.hdma & !halted & !cpu.ime & !cpu.latch & clear
}

// RET, RETI, or RET cc whose condition holds. No arm has a range: the proof of the last one reads the single numbers off the others.
#[tactic(auto, unfolding(opcodes::specs::Instruction::decode, instruction::specs::Holding::check_cond))]
fn is_return(opcode: u8, f: u8) -> bool
    ensures { result ≡ returns (decode opcode) f }
{
    match opcode {
        0xc9 | 0xd9 => true,
        0xc0 => check_cond(Condition::NZ, f),
        0xc8 => check_cond(Condition::Z, f),
        0xd0 => check_cond(Condition::NC, f),
        0xd8 => check_cond(Condition::C, f),
        _ => false,
    }
}

// The next step of a quiet state takes a return.
pub fn returns(cpu: Cpu, mem: &[u8]) -> bool
    ensures { result ≡ takes_return plain cpu mem.now }
{
    let regs = cpu.registers;
    is_return(byte(mem, regs.pc), regs.f)
}
