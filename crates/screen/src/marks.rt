// The marks of a window: 1 at a start, 0 at each other byte.
ghost use Rattle.std.specs.Prelude.{◌≡◌};
ghost use Rattle.routine.specs.Screen.{is_marked};

use sm83::Addr;

// The mark of a byte that is no start.
pub(crate) const UNMARKED: u8 = 0;

// No address outside the window is marked.
pub fn is_marked(first: Addr, marks: &[u8], target: Addr) -> bool
    ensures { result ≡ is_marked marks.now first.0 target.0 }
{
    match target.0.checked_sub(first.0) {
        Some(index) => marks.get(index as usize).copied() == Some(1),
        None => false,
    }
}
