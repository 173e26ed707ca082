// The picture of a window: its bytes read, its instructions and jumps counted, and of each byte the kind that is drawn; and of a window that is
// refused, what is wrong where, and which last address would do.
// A window's memory and addresses are parameters of their own, as in `screen`, whose are those of the C call.
#![tactic(auto)]

pub mod barred;
pub mod kinds;
pub mod lanes;
pub mod opcode;
pub mod passing;
pub mod place;
pub mod tally;
pub mod target;
pub mod walk;
