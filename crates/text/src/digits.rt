// Numbers as text: decimal with no zero in front. Digits are put one by one, not by `write!`, which promises what is written on Ok alone;
// `Put` holds of every page, also of one that is full.
ghost use Rattle.std.specs.Prelude.{◌<◌};
ghost use Rattle.text.specs.Put.{Put};
ghost use Rattle.text.specs.Digits.{digit_at, decimal};

use crate::hex::glyph;
use crate::page::Page;

impl Page<'_> {
    // One decimal digit, unless it is a zero in front.
    #[tactic(auto, using(crate::proofs::page::Written::nothing), unfolding(crate::specs::Digits::digit_at))]
    fn put_digit(&mut self, n: u64, scale: u64)
        requires { 0 < scale }
        ensures { Put self.old self.new (digit_at n scale) }
    {
        if scale == 1 {
            self.put_byte(glyph((n % 10) as u8));
        } else if scale <= n {
            self.put_byte(glyph((n / scale % 10) as u8));
        }
    }

    pub(crate) fn put_decimal(&mut self, n: u64)
        ensures { Put self.old self.new (decimal n) }
    {
        let mut scale: u64 = 10000000000000000000;
        for _ in 0..20u8 {
            self.put_digit(n, scale);
            scale /= 10;
        }
    }
}
