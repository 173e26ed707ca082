// Bytes and words as text: hexadecimal in upper case, digit by digit as in `digits`.
ghost use Rattle.std.specs.Prelude.{◌≡◌, ◌<◌};
ghost use Rattle.text.specs.Put.{Put};
ghost use Rattle.text.specs.Hex.{glyph, hex2, hex4};

use crate::page::Page;

pub(crate) fn glyph(d: u8) -> u8
    requires { d < 16 }
    ensures { result ≡ glyph d }
{
    if d < 10 { b'0' + d } else { b'A' - 10 + d }
}

impl Page<'_> {
    // A byte: two hexadecimal digits.
    pub(crate) fn put_hex2(&mut self, b: u8)
        ensures { Put self.old self.new (hex2 b) }
    {
        self.put_byte(glyph(b / 16));
        self.put_byte(glyph(b % 16));
    }

    // An address or a word: four hexadecimal digits.
    pub(crate) fn put_hex4(&mut self, w: u16)
        ensures { Put self.old self.new (hex4 w) }
    {
        self.put_hex2((w / 256) as u8);
        self.put_hex2((w % 256) as u8);
    }
}
