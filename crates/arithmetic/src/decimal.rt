// DAA: A after a sum or a difference of packed decimals, made decimal again.
ghost use Rattle.std.specs.Prelude.{◌≡◌, ◌%◌, false};
ghost use Rattle.opcodes.specs.Arithmetic.{is_zero, daa};
ghost use Rattle.arithmetic.specs.Computed.{computed, byte_with};

use crate::{Computed, flagged};
use sm83::flags::{flag_c, flag_h, flag_n, weight};

pub fn daa(a: u8, f: u8) -> Computed<u8>
    ensures { result ≡ computed (daa a f) }
{
    let n = flag_n(f);
    let h = flag_h(f);
    let c = flag_c(f);
    let low = h | (!n & (a % 16 >= 0x0a));
    let high = c | (!n & (a >= 0x9a));
    let correction = (weight(low, 0x06) as u16) + (weight(high, 0x60) as u16);
    if n {
        adjusted(256 + (a as u16) - correction, n, high)
    } else {
        adjusted((a as u16) + correction, n, high)
    }
}

fn adjusted(x: u16, n: bool, c: bool) -> Computed<u8>
    ensures { result ≡ byte_with (x % 256) (is_zero (x % 256)) n false c }
{
    let v = (x % 256) as u8;
    flagged(v, v == 0, n, false, c)
}
