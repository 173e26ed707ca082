// AND, XOR, OR, and the operations on A and F that only turn bits over or set them.
ghost use Rattle.std.specs.Prelude.{◌≡◌, true, false};
ghost use Rattle.std.specs.Int.Bits.{bit_and, bit_or, bit_xor};
ghost use Rattle.opcodes.specs.Instruction.{CPL, SCF, CCF};
ghost use Rattle.opcodes.specs.Arithmetic.{logical, acc_op};
ghost use Rattle.arithmetic.specs.Computed.{computed};

use arithmetic::{Computed, flagged};
use sm83::flags::{flag_c, flag_z};

pub fn and(a: u8, x: u8) -> Computed<u8>
    ensures { result ≡ computed (logical (bit_and a x) true) }
{
    let v = a & x;
    flagged(v, v == 0, false, true, false)
}

pub fn xor(a: u8, x: u8) -> Computed<u8>
    ensures { result ≡ computed (logical (bit_xor a x) false) }
{
    let v = a ^ x;
    flagged(v, v == 0, false, false, false)
}

pub fn or(a: u8, x: u8) -> Computed<u8>
    ensures { result ≡ computed (logical (bit_or a x) false) }
{
    let v = a | x;
    flagged(v, v == 0, false, false, false)
}

pub fn ccf(a: u8, f: u8) -> Computed<u8>
    ensures { result ≡ computed (acc_op CCF a f) }
{
    let c = flag_c(f);
    flagged(a, flag_z(f), false, false, !c)
}

pub fn scf(a: u8, f: u8) -> Computed<u8>
    ensures { result ≡ computed (acc_op SCF a f) }
{
    flagged(a, flag_z(f), false, false, true)
}

pub fn cpl(a: u8, f: u8) -> Computed<u8>
    ensures { result ≡ computed (acc_op CPL a f) }
{
    let z = flag_z(f);
    let c = flag_c(f);
    flagged(255 - a, z, true, true, c)
}
