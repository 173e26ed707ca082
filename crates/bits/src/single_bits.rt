// BIT, RES and SET. Only the low three bits of the number count, as in the opcode.
ghost use Rattle.std.specs.Prelude.{◌≡◌, ◌%◌};
ghost use Rattle.sm83.specs.Basics.{cleared, raised};
ghost use Rattle.opcodes.specs.Arithmetic.{bit_test};

use sm83::flags::{flag_byte, flag_c};

// The flags that BIT leaves.
pub fn bit(n: u8, x: u8, f: u8) -> u8
    ensures { result ≡ bit_test (n % 8) x f }
{
    let z = (x >> (n % 8)) % 2 == 0;
    let c = flag_c(f);
    flag_byte(z, false, true, c)
}

pub fn res(n: u8, x: u8) -> u8
    ensures { result ≡ cleared (n % 8) x }
{
    x & !(1 << (n % 8))
}

pub fn set(n: u8, x: u8) -> u8
    ensures { result ≡ raised (n % 8) x }
{
    x | (1 << (n % 8))
}
