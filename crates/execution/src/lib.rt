// What an instruction does: `exec_instruction` of the Rust. Its match is `compute`, an arm a line; what an arm does stands in `results`, `jumps`, `words` and `halt`.
#![tactic(auto)]

use outcome::Outcome;

mod compute;
pub mod exec;
mod halt;
mod illegal;
mod jumps;
mod results;
mod words;

// What the middle of an instruction makes: the value that is to be written, and the outcome.
#[derive(Clone, Copy)]
pub struct Made {
    pub value: u16,
    pub outcome: Outcome,
}
