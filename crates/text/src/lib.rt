// Text on lent slices: bytes and numbers written one after the other, forms filled in; numbers and addresses read; lines of a text found.
#![tactic(auto)]

pub mod address;
mod digits;
mod form;
mod hex;
pub mod lines;
pub mod number;
pub mod page;
mod shown;
