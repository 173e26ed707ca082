// The starts of a window, whatever stands there: a window that the screen refuses has its starts, too.
ghost use Rattle.std.specs.Prelude.{◌≡◌, not, length};
ghost use Rattle.sm83.specs.State.{pc};
ghost use Rattle.definition.specs.Bus.{byte_at};
ghost use Rattle.routine.specs.Screen.{marks_of, is_marked};

use map::walk::Walk;
use screen::marks::is_marked;
use sm83::{Addr, Cpu};

// No address wraps: past the end of the memory there is 0.
fn byte_at(mem: &[u8], at: usize) -> u8
    ensures { result ≡ byte_at mem.now at }
{
    mem.get(at).copied().unwrap_or(0)
}

// "It walks from the first address by instruction length; each start is marked 1, each other byte 0."
pub fn mark_starts(mem: &[u8], first: Addr, marks: &mut [u8])
    ensures { marks.new ≡ marks_of mem.now first.0 (length marks.old) }
{
    let mut walk = Walk { left: 0 };
    for (i, mark) in marks.iter_mut().enumerate() {
        let start = walk.starts(byte_at(mem, first.0 as usize + i));
        *mark = u8::from(start);
    }
}

// PC is no marked start of the window.
pub fn strays(first: Addr, marks: &[u8], cpu: Cpu) -> bool
    ensures { result ≡ not (is_marked marks.now first.0 (pc cpu)) }
{
    let at = cpu.registers.pc;
    !is_marked(first, marks, at)
}
