// Arithmetic: no memory, no state. Each function is equal to the definition's (opcodes, specs/Arithmetic). Logic, single bits and shifts: the crate `bits`.
#![tactic(auto)]

ghost use Rattle.std.specs.Prelude.{◌≡◌};
ghost use Rattle.arithmetic.specs.Computed.{byte_with};

use sm83::flags::flag_byte;

pub mod decimal;
pub mod sums;
pub mod words;

// A byte or a word with the flags that it comes with.
#[derive(Clone, Copy)]
pub struct Computed<T> {
    pub value: T,
    pub flags: u8,
}

pub fn flagged(value: u8, z: bool, n: bool, h: bool, c: bool) -> Computed<u8>
    ensures { result ≡ byte_with value z n h c }
{
    Computed {
        value: value,
        flags: flag_byte(z, n, h, c),
    }
}
