// F as a byte: Z N H C and four bits 0.
ghost use Rattle.std.specs.Prelude.{◌≡◌};
ghost use Rattle.sm83.specs.Flags.{flag_byte, flag_z, flag_n, flag_h, flag_c, Weighs, IsBit};

use crate::CpuRegisters;

// Each flag by itself: `flag_get` of the Rust.
pub fn flag_z(f: u8) -> bool
    ensures { result ≡ flag_z f }
{
    f / CpuRegisters::Z % 2 == 1
}

pub fn flag_n(f: u8) -> bool
    ensures { result ≡ flag_n f }
{
    f / CpuRegisters::N % 2 == 1
}

pub fn flag_h(f: u8) -> bool
    ensures { result ≡ flag_h f }
{
    f / CpuRegisters::H % 2 == 1
}

pub fn flag_c(f: u8) -> bool
    ensures { result ≡ flag_c f }
{
    f / CpuRegisters::C % 2 == 1
}

// A truth value as 0 or 1, and as what it weighs.
pub fn bit_of(on: bool) -> u8
    ensures { IsBit on result }
{
    u8::from(on)
}

pub fn weight(on: bool, place: u8) -> u8
    ensures { Weighs on place result }
{
    if on { place } else { 0 }
}

pub fn flag_byte(z: bool, n: bool, h: bool, c: bool) -> u8
    ensures { result ≡ flag_byte z n h c }
{
    weight(z, CpuRegisters::Z)
        + weight(n, CpuRegisters::N)
        + weight(h, CpuRegisters::H)
        + weight(c, CpuRegisters::C)
}
