// The answer block of a step or a run: 24 bytes.
ghost use Rattle.std.specs.Prelude.{◌≡◌};
ghost use Rattle.outcome.specs.Numbers.{last_says};
ghost use Rattle.blocks.specs.AnswerBlock.{shown, answer_fields, answer_bytes};

use crate::bytes::{register_bytes, write_front};
use outcome::{Outcome, last_number};
use sm83::{CpuRegisters, MCycles};

pub const ANSWER_LENGTH: usize = 24;

// The registers that a Breakpoint shows, and every register 0 otherwise.
fn shown(last: Option<Outcome>) -> CpuRegisters
    ensures { result ≡ shown (last_says last).values }
{
    match last {
        Some(Outcome::Breakpoint(registers)) => registers,
        _ => CpuRegisters::zero(),
    }
}

fn answer_fields(last: Option<Outcome>, steps: u16, cycles: MCycles) -> [u8; ANSWER_LENGTH]
    ensures { result ≡ answer_fields (last_says last) steps cycles }
{
    let mut fields = [0u8; ANSWER_LENGTH];
    fields[0..2].copy_from_slice(&last_number(last).to_le_bytes());
    fields[2..4].copy_from_slice(&steps.to_le_bytes());
    fields[4..8].copy_from_slice(&cycles.0.to_le_bytes());
    fields[8..20].copy_from_slice(&register_bytes(shown(last)));
    fields
}

// A block of any other length is left alone.
pub fn write_answer(block: &mut [u8], last: Option<Outcome>, steps: u16, cycles: MCycles)
    ensures { block.new ≡ answer_bytes last steps cycles block.old }
{
    write_front(block, ANSWER_LENGTH, &answer_fields(last, steps, cycles));
}
