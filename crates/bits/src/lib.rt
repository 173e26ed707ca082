// Logic, single bits and shifts of bytes: no memory, no state. Each function is equal to the definition's (opcodes, specs/Arithmetic).
#![tactic(auto)]

pub mod logic;
pub mod shifts;
pub mod single_bits;
