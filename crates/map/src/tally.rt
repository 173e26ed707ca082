// How many instructions the marks of a window show, and how many of these are jumps.
ghost use Rattle.std.specs.Prelude.{◌≡◌};
ghost use Rattle.map.specs.Counts.{byte_in, counts_of};

use crate::opcode::is_jump;
use screen::memory::byte;
use sm83::Addr;

#[derive(Clone, Copy)]
pub struct Counts {
    pub instructions: u64,
    pub jumps: u64,
}

// The byte that stands `index` bytes after the first; addresses wrap at 65,536.
fn byte_in(mem: &[u8], first: Addr, index: usize) -> u8
    ensures { result ≡ byte_in mem.now first.0 index }
{
    byte(mem, first.wrapping_add((index % 65536) as u16))
}

#[tactic(auto, using(crate::proofs::tally::Counting::none, crate::proofs::tally::Counting::one_more, crate::proofs::tally::Counting::bounded), unfolding(crate::specs::Counts::counts_of))]
pub fn count(mem: &[u8], first: Addr, marks: &[u8]) -> Counts
    ensures { result ≡ counts_of mem.now first.0 marks.now }
{
    let mut instructions = 0;
    let mut jumps = 0;
    for (i, mark) in marks.iter().enumerate() {
        let start = *mark == 1;
        let jump = is_jump(byte_in(mem, first, i));
        instructions += u64::from(start);
        jumps += u64::from(start & jump);
    }
    Counts {
        instructions,
        jumps,
    }
}
