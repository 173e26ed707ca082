// Words, registers, the state and the answers as blocks of bytes with fixed offsets, on lent slices, low byte first. Layouts: specs/.
#![tactic(auto)]

pub mod answer;
pub mod bytes;
pub mod state;
pub mod verdicts;
