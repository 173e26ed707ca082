// The screen on blocks of bytes: the document's number, or 255 if the answer block is malformed; then nothing is changed.
ghost use Rattle.std.specs.Prelude.{◌≡◌};
ghost use Rattle.library.specs.Screened.{left_by_screen, screen_blocks};

use crate::MALFORMED;
use blocks::verdicts::{VERDICT_LENGTH, write_verdict};
use routine::verdict_number;
use screen::screen;
use sm83::Addr;

// Memory is never changed; the marks are as the screen leaves them.
#[tactic(auto, unfolding(crate::specs::Screened::screen_blocks))]
pub fn screen_blocks(mem: &[u8], first: u16, last: u16, marks: &mut [u8], answer: &mut [u8]) -> u8
    ensures { left_by_screen result marks.new answer.new ≡ screen_blocks mem.now first last marks.old answer.old }
{
    if answer.len() != VERDICT_LENGTH {
        return MALFORMED;
    }
    let verdict = screen(mem, Addr(first), Addr(last), marks);
    write_verdict(answer, verdict);
    verdict_number(verdict)
}
