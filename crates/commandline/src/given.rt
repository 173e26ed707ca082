// What was said of a part.
use crate::grammar::{Command, Power};

// An option that stands alone, or the value in it; a path is kept by its word's index.
#[derive(Clone, Copy)]
pub enum Given {
    Alone,
    Word(usize),
    Address(u16),
    Number(u64),
    Power(Power),
    Command(Command),
}
