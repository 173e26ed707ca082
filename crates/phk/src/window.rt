// The window of memory that a command line asks of, by its two ends.
ghost use Rattle.std.specs.Prelude.{◌≡◌, ◌+◌};
ghost use Rattle.phk.specs.Window.{behind, window_on};

use commandline::grammar::Part;
use commandline::line::Line;

// From its first address to its last, both inside.
#[derive(Clone, Copy)]
pub struct Window {
    pub first: u16,
    pub last: u16,
}

// How far an address is behind another. Addresses wrap.
pub fn behind(a: u16, first: u16) -> usize
    ensures { result ≡ behind a first }
{
    usize::from(a.wrapping_sub(first))
}

impl Window {
    pub fn asked(line: Line) -> Self
        ensures { result ≡ window_on line }
    {
        Window {
            first: line.address(Part::First, 0),
            last: line.address(Part::Last, 0),
        }
    }

    // How many bytes it has.
    pub fn length(self) -> usize
        ensures { result ≡ behind self.last self.first + 1 }
    {
        behind(self.last, self.first) + 1
    }
}
