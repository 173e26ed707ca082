// A form is a text in which some bytes are marks: # $ % & stand for the next value, as four hexadecimal digits, two, a decimal number or
// flags, and @ for the word, as it can be shown.
ghost use Rattle.std.specs.Prelude.{◌≡◌, ◌&&◌, ltb};
ghost use Rattle.text.specs.Put.{Put};
ghost use Rattle.text.specs.Form.{flag, flags, meant, filled};

use crate::page::Page;

// A mark that takes a value.
fn takes(b: u8) -> bool
    ensures { result ≡ (ltb 34 b && ltb b 39) }
{
    matches!(b, b'#'..=b'&')
}

impl Page<'_> {
    // A flag's letter, or -.
    fn put_flag(&mut self, bit: u64, letter: u8)
        ensures { Put self.old self.new (flag bit letter) }
    {
        if bit % 2 == 1 {
            self.put_byte(letter);
        } else {
            self.put_byte(b'-');
        }
    }

    // ZNHC, with - for each flag that is clear.
    fn put_flags(&mut self, f: u64)
        ensures { Put self.old self.new (flags f) }
    {
        self.put_flag(f / 128, b'Z');
        self.put_flag(f / 64, b'N');
        self.put_flag(f / 32, b'H');
        self.put_flag(f / 16, b'C');
    }

    // What a byte of a form stands for.
    #[tactic(auto, unfolding(crate::specs::Form::meant))]
    fn put_meant(&mut self, b: u8, value: u64, word: &[u8])
        ensures { Put self.old self.new (meant b value word.now) }
    {
        match b {
            b'#' => self.put_hex4((value % 65536) as u16),
            b'$' => self.put_hex2((value % 256) as u8),
            b'%' => self.put_decimal(value),
            b'&' => self.put_flags(value),
            b'@' => self.put_shown(word),
            _ => self.put_byte(b),
        }
    }

    // A value that is missing counts as 0. It writes by a page of its own, whose place need not be stored again at each byte.
    pub fn fill(&mut self, form: &[u8], values: &[u64], word: &[u8])
        ensures { Put self.old self.new (filled form.now values.now word.now) }
    {
        let mut page = Page {
            bytes: &mut *self.bytes,
            at: self.at,
        };
        let mut k = 0;
        for &b in form {
            page.put_meant(b, values.get(k).copied().unwrap_or(0), word);
            k += usize::from(takes(b));
        }
        self.at = page.at;
    }
}
