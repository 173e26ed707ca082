// Where an operand comes from and where a result goes: `read_operand`, `write_operand`, `stack_push` and `stack_pop` of the Rust.
#![tactic(auto)]

pub mod destinations;
mod places;
pub mod sources;
pub mod stack;
