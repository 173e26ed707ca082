// A window of the sample: the screen is asked, and every value is compared.
ghost use Rattle.std.specs.Prelude.{◌≡◌, ◌+◌, ◌*◌, ◌≤◌, length};
ghost use Rattle.records.specs.Record.{memory_length, listed, changed};
ghost use Rattle.replay.specs.Window.{marks_end, asked_screen, told_screen, same_screen, agrees_window};

use blocks::bytes::word_at;
use blocks::verdicts::VERDICT_LENGTH;
use library::screencall::screen_blocks;
use records::layout::{FIRST, LAST, MARKS, Record, VERDICT};

// On memory as long as `mem` is, and as many marks as `marks` has.
#[tactic(auto, unfolding(crate::specs::Window::asked_screen, crate::specs::Window::told_screen))]
fn compare(item: Record<'_>, mem: &mut [u8], marks: &mut [u8]) -> bool
    requires fits { marks_end item.bytes.now + 3 * listed item.bytes.now ≤ length item.bytes.now }
    requires many { length marks.old ≡ changed item.bytes.now }
    ensures { result ≡ same_screen (asked_screen item.entry.bytes.now (length mem.old)) (told_screen item.entry.bytes.now) }
{
    let n = usize::from(item.changed());
    let middle = MARKS + n;
    let end = MARKS + 2 * n;
    item.lay(end, mem);
    marks.copy_from_slice(&item.bytes[MARKS..middle]);
    let mut answer = [0u8; VERDICT_LENGTH];
    let first = word_at(item.bytes, FIRST);
    let last = word_at(item.bytes, LAST);
    let number = screen_blocks(mem, first, last, marks, &mut answer);
    let numbered = number == item.bytes[VERDICT];
    let marked = &*marks == &item.bytes[middle..end];
    let answered = &answer[..] == &item.bytes[VERDICT..MARKS];
    numbered & (marked & answered)
}

#[tactic(auto, unfolding(crate::specs::Window::agrees_window))]
pub fn window_agrees(item: Record<'_>, mem: &mut [u8], marks: &mut [u8]) -> bool
    requires roomy { memory_length item.bytes.now ≤ length mem.old }
    requires roomy_too { 65535 ≤ length marks.old }
    ensures { result ≡ agrees_window item.entry.bytes.now }
{
    let listed = usize::from(item.listed());
    let changed = usize::from(item.changed());
    let named = usize::from(item.name_length());
    if item.bytes.len() != MARKS + 2 * changed + 3 * listed + named {
        return false;
    }
    let n = item.memory_length();
    compare(item, &mut mem[..n], &mut marks[..changed])
}
