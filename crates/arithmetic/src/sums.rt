// Sums and differences of bytes. H is the carry out of bit 3 or the borrow into bit 4, C that of bit 7 or 8.
ghost use Rattle.std.specs.Prelude.{◌≡◌};
ghost use Rattle.sm83.specs.Basics.{bit};
ghost use Rattle.opcodes.specs.Arithmetic.{carry, sum, difference, increment, decrement};
ghost use Rattle.arithmetic.specs.Computed.{computed};

use crate::{Computed, flagged};
use sm83::flags::{bit_of, flag_c};

pub fn inc(x: u8, f: u8) -> Computed<u8>
    ensures { result ≡ computed (increment x f) }
{
    let v = (((x as u16) + 1) % 256) as u8;
    flagged(v, v == 0, false, x % 16 == 15, flag_c(f))
}

pub fn dec(x: u8, f: u8) -> Computed<u8>
    ensures { result ≡ computed (decrement x f) }
{
    let v = (((x as u16) + 255) % 256) as u8;
    flagged(v, v == 0, true, x % 16 == 0, flag_c(f))
}

fn sum(a: u8, x: u8, carry: bool) -> Computed<u8>
    ensures { result ≡ computed (sum a x (bit carry)) }
{
    let i = bit_of(carry);
    let s = (a as u16) + (x as u16) + (i as u16);
    let v = (s % 256) as u8;
    flagged(v, v == 0, false, a % 16 + x % 16 + i >= 16, s >= 256)
}

fn difference(a: u8, x: u8, borrow: bool) -> Computed<u8>
    ensures { result ≡ computed (difference a x (bit borrow)) }
{
    let i = bit_of(borrow);
    let d = (x as u16) + (i as u16);
    let v = ((256 + (a as u16) - d) % 256) as u8;
    flagged(v, v == 0, true, a % 16 < x % 16 + i, (a as u16) < d)
}

pub fn add(a: u8, x: u8) -> Computed<u8>
    ensures { result ≡ computed (sum a x 0) }
{
    sum(a, x, false)
}

pub fn adc(a: u8, x: u8, f: u8) -> Computed<u8>
    ensures { result ≡ computed (sum a x (carry f)) }
{
    sum(a, x, flag_c(f))
}

// The flags of a difference that is not kept.
pub fn cp(a: u8, x: u8) -> u8
    ensures { result ≡ (difference a x 0).flags }
{
    difference(a, x, false).flags
}

pub fn sub(a: u8, x: u8) -> Computed<u8>
    ensures { result ≡ computed (difference a x 0) }
{
    difference(a, x, false)
}

pub fn sbc(a: u8, x: u8, f: u8) -> Computed<u8>
    ensures { result ≡ computed (difference a x (carry f)) }
{
    difference(a, x, flag_c(f))
}
