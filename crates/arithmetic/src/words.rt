// Sums of words: ADD HL, and a signed byte added to SP.
ghost use Rattle.std.specs.Prelude.{◌≡◌, ◌+◌, ◌%◌};
ghost use Rattle.sm83.specs.Basics.{signed, low_byte};
ghost use Rattle.opcodes.specs.Arithmetic.{word_sum_flags, offset_flags};
ghost use Rattle.arithmetic.specs.Words.{word_with};

use crate::Computed;
use sm83::flags::{flag_byte, flag_z};

// A byte as a signed one: 80 to FF stand for -128 to -1.
pub fn sign_extended(e: u8) -> u16
    ensures { result ≡ signed e }
{
    if e < 128 {
        e as u16
    } else {
        (e as u16) + 0xff00
    }
}

// ADD HL: H is the carry out of bit 11, C out of bit 15, Z is kept.
pub fn add16(dest: u16, src: u16, f: u8) -> Computed<u16>
    ensures { result ≡ word_with ((dest + src) % 65536) (word_sum_flags dest src f) }
{
    let h = dest % 4096 + src % 4096 >= 4096;
    let c = (dest as u32) + (src as u32) >= 65536;
    Computed {
        value: std::num::wrapping_add_u16(dest, src),
        flags: flag_byte(flag_z(f), false, h, c),
    }
}

// ADD SP and LD HL,SP: H and C from the unsigned low nibble and low byte, Z and N cleared. `src` is the byte, sign-extended.
pub fn add_signed8(sp: u16, src: u16) -> Computed<u16>
    ensures { result ≡ word_with ((sp + src) % 65536) (offset_flags sp (low_byte src)) }
{
    let e = src % 256;
    Computed {
        value: std::num::wrapping_add_u16(sp, src),
        flags: flag_byte(false, false, sp % 16 + e % 16 >= 16, sp % 256 + e >= 256),
    }
}
