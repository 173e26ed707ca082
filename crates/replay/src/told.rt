// Whether what a step or a run answered and left is what a record of the sample says.
ghost use Rattle.std.specs.Prelude.{◌≡◌, ◌≤◌, length};
ghost use Rattle.records.specs.Record.{bytes_at};
ghost use Rattle.replay.specs.AsTold.{left_as_told};

use blocks::bytes::word_at;
use records::layout::{AFTER, ANSWER, BYTES};

// `want` is memory as the record says that it is left.
pub fn as_told(
    item: &[u8],
    number: u16,
    state: &[u8],
    mem: &[u8],
    want: &[u8],
    answer: &[u8],
) -> bool
    requires { bytes_at ≤ length item.now }
    ensures { result ≡ left_as_told item.now number state.now mem.now want.now answer.now }
{
    let numbered = number == word_at(item, ANSWER);
    let stated = state == &item[AFTER..ANSWER];
    let kept = mem == want;
    let answered = answer == &item[ANSWER..BYTES];
    numbered & (stated & (kept & answered))
}
