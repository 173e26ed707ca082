// The command line, taken word by word: `Line::new`, `take` for each word, `finish`. What a line means is the fold of its words; which
// words there are, and which command takes which, stands in `grammar`.
#![tactic(auto)]

pub mod finish;
pub mod given;
pub mod grammar;
pub mod line;
pub mod take;
