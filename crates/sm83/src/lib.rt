// The kinds of the processor: addresses, registers, the state. What they mean stands in specs/; what the processor does with them is defined in
// the crates `opcodes` and `definition`.
#![tactic(auto)]

mod address;
pub mod flags;
pub mod registers;
pub mod state;

// An address and a count of M-cycles: two kinds, so that they are never mixed up.
#[derive(Clone, Copy)]
pub struct Addr(pub u16);

#[derive(Clone, Copy)]
pub struct MCycles(pub u32);

// The order of the fields is the faster of those that were timed (docs/SPEED.md); nothing else depends on it.
#[derive(Clone, Copy)]
pub struct CpuRegisters {
    pub a: u8,
    pub b: u8,
    pub c: u8,
    pub sp: Addr,
    pub f: u8,
    pub d: u8,
    pub e: u8,
    pub h: u8,
    pub l: u8,
    pub pc: Addr,
}

#[derive(Clone, Copy)]
pub enum HaltMode {
    NotHalting,
    HaltRunInterrupt,
    HaltNoRunInterrupt,
    HaltBug,
}

#[derive(Clone, Copy)]
pub struct Cpu {
    pub registers: CpuRegisters,
    pub ime: bool,
    // the EI latch, `enable_interrupt_next` in the Rust: IME is set before the next instruction
    pub latch: bool,
    // `halt_mode` in the Rust
    pub halt: HaltMode,
    // STOP sets it, the host clears it
    pub stopped: bool,
    // the host sets and clears it: HDMA is running
    pub hdma: bool,
    // `config.is_dmg` in the Rust
    pub dmg: bool,
}
