// A run on blocks of bytes. It answers the document's number, or 255 if a block is malformed; then nothing is changed. A number, as C is answered.
ghost use Rattle.std.specs.Prelude.{◌≡◌};
ghost use Rattle.library.specs.Left.{left, run_blocks};

use crate::MALFORMED;
use blocks::answer::{ANSWER_LENGTH, write_answer};
use blocks::state::{read_state, write_state};
use outcome::last_number;
use run::run;

#[tactic(auto, unfolding(crate::specs::Left::run_blocks))]
pub fn run_blocks(state: &mut [u8], mem: &mut [u8], budget: u16, answer: &mut [u8]) -> u16
    ensures { left result state.new mem.new answer.new ≡ run_blocks budget state.old mem.old answer.old }
{
    if answer.len() != ANSWER_LENGTH {
        return u16::from(MALFORMED);
    }
    let Some(cpu) = read_state(state) else {
        return u16::from(MALFORMED);
    };
    let x = run(cpu, mem, budget);
    let last = x.last;
    write_state(state, x.cpu);
    write_answer(answer, last, x.steps, x.cycles);
    last_number(last)
}
