// A word as it can be shown on a terminal. A word comes from a command line, which may hold any byte: those that a terminal would obey
// are written as \x1B is.
ghost use Rattle.std.specs.Prelude.{◌≡◌};
ghost use Rattle.text.specs.Put.{Put};
ghost use Rattle.text.specs.Shown.{obeyed, coded, shown_byte, shown};

use crate::page::Page;

// Control characters: below 32, 127, and in UTF-8 the bytes 80 to 9F behind C2.
#[tactic(auto, unfolding(crate::specs::Shown::obeyed))]
fn obeyed(before: u8, b: u8) -> bool
    ensures { result ≡ obeyed before b }
{
    b < 32 || b == 127 || before == 0xC2 && 127 < b && b < 160
}

impl Page<'_> {
    // \x and the byte in hexadecimal.
    fn put_coded(&mut self, b: u8)
        ensures { Put self.old self.new (coded b) }
    {
        self.put_byte(b'\\');
        self.put_byte(b'x');
        self.put_hex2(b);
    }

    #[tactic(auto, unfolding(crate::specs::Shown::shown_byte))]
    fn put_shown_byte(&mut self, before: u8, b: u8)
        ensures { Put self.old self.new (shown_byte before b) }
    {
        if obeyed(before, b) {
            self.put_coded(b);
        } else {
            self.put_byte(b);
        }
    }

    pub(crate) fn put_shown(&mut self, word: &[u8])
        ensures { Put self.old self.new (shown word.now) }
    {
        let mut before = 0;
        for b in word {
            self.put_shown_byte(before, *b);
            before = *b;
        }
    }
}
