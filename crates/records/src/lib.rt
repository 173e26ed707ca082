// A record of the stored sample: where it ends, its layout, the memory that it tells, and what of it is counted.
#![tactic(auto)]

pub mod front;
pub mod layout;
pub mod notes;
pub mod slices;
