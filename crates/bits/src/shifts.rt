// The rotations and shifts of a byte, and those of A, which clear Z.
ghost use Rattle.std.specs.Prelude.{◌≡◌};
ghost use Rattle.opcodes.specs.Instruction.{RLC, RRC, RL, RR, SLA, SRA, SWAP, SRL, RLCA, RRCA, RLA, RRA};
ghost use Rattle.opcodes.specs.Arithmetic.{shifted, shift_op, without_z, acc_op};
ghost use Rattle.arithmetic.specs.Computed.{computed, result_of};

use arithmetic::{Computed, flagged};
use sm83::flags::{bit_of, flag_c};

// What a rotation or shift makes, and the bit that left.
fn with_carry_out(v: u8, out: u8) -> Computed<u8>
    ensures { result ≡ computed (shifted v out) }
{
    flagged(v, v == 0, false, false, out == 1)
}

pub fn rlc(x: u8) -> Computed<u8>
    ensures { result ≡ computed (shift_op RLC x 0) }
{
    let left = ((x as u16) * 2 % 256) as u8;
    with_carry_out(left + x / 128, x / 128)
}

pub fn rrc(x: u8) -> Computed<u8>
    ensures { result ≡ computed (shift_op RRC x 0) }
{
    with_carry_out(x / 2 + x % 2 * 128, x % 2)
}

pub fn rl(x: u8, f: u8) -> Computed<u8>
    ensures { result ≡ computed (shift_op RL x f) }
{
    let left = ((x as u16) * 2 % 256) as u8;
    with_carry_out(left + bit_of(flag_c(f)), x / 128)
}

pub fn rr(x: u8, f: u8) -> Computed<u8>
    ensures { result ≡ computed (shift_op RR x f) }
{
    with_carry_out(x / 2 + bit_of(flag_c(f)) * 128, x % 2)
}

pub fn sla(x: u8) -> Computed<u8>
    ensures { result ≡ computed (shift_op SLA x 0) }
{
    let left = ((x as u16) * 2 % 256) as u8;
    with_carry_out(left, x / 128)
}

pub fn sra(x: u8) -> Computed<u8>
    ensures { result ≡ computed (shift_op SRA x 0) }
{
    with_carry_out(x / 2 + x / 128 * 128, x % 2)
}

pub fn swap(x: u8) -> Computed<u8>
    ensures { result ≡ computed (shift_op SWAP x 0) }
{
    with_carry_out(x / 16 + x % 16 * 16, 0)
}

pub fn srl(x: u8) -> Computed<u8>
    ensures { result ≡ computed (shift_op SRL x 0) }
{
    with_carry_out(x / 2, x % 2)
}

fn without_z(r: Computed<u8>) -> Computed<u8>
    ensures { result ≡ computed (without_z (result_of r)) }
{
    let c = flag_c(r.flags);
    flagged(r.value, false, false, false, c)
}

pub fn rlca(a: u8) -> Computed<u8>
    ensures { result ≡ computed (acc_op RLCA a 0) }
{
    without_z(rlc(a))
}

pub fn rla(a: u8, f: u8) -> Computed<u8>
    ensures { result ≡ computed (acc_op RLA a f) }
{
    without_z(rl(a, f))
}

pub fn rrca(a: u8) -> Computed<u8>
    ensures { result ≡ computed (acc_op RRCA a 0) }
{
    without_z(rrc(a))
}

pub fn rra(a: u8, f: u8) -> Computed<u8>
    ensures { result ≡ computed (acc_op RRA a f) }
{
    without_z(rr(a, f))
}
