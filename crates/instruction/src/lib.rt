// Instructions as 000 and 001 shape them: an opcode, where its operand comes from, where its result goes; and the two tables that give one for each byte.
#![tactic(auto)]

pub mod conditions;
mod decoding;
pub mod instructions_table;
pub mod prefixed_table;

#[derive(Clone, Copy)]
pub enum Condition {
    NC,
    C,
    NZ,
    Z,
    Unconditional,
}

#[derive(Clone, Copy)]
pub enum OperandType {
    RegA,
    RegB,
    RegC,
    RegD,
    RegE,
    RegH,
    RegL,
    AddrHL,
    AddrHLDec,
    AddrHLInc,
    AddrBC,
    AddrDE,
    RegAF,
    RegBC,
    RegDE,
    RegHL,
    RegSP,
    Imm8,
    Imm8Signed,
    Imm16,
    HighAddr8,
    HighAddrC,
    Addr16,
    Addr16Val16,
    // none: a kind that the execution does not need
    Implied,
}

#[derive(Clone, Copy)]
pub enum Opcode {
    Nop,
    Stop,
    Ld,
    LdSPHL,
    LdHLSPSigned8,
    // LD B,B is a breakpoint
    LdBB,
    Push,
    Pop,
    Inc,
    Inc16,
    Dec,
    Dec16,
    Add,
    Add16,
    AddSPSigned8,
    Adc,
    Cp,
    Sub,
    Sbc,
    And,
    Xor,
    Or,
    Jp(Condition),
    JpHL,
    Jr(Condition),
    Call(Condition),
    Ret(Condition),
    Reti,
    Rst(u8),
    Di,
    Ei,
    Ccf,
    Scf,
    Daa,
    Cpl,
    Rlca,
    Rla,
    Rrca,
    Rra,
    Prefix,
    Rlc,
    Rrc,
    Rl,
    Rr,
    Sla,
    Sra,
    Swap,
    Srl,
    Bit(u8),
    Res(u8),
    Set(u8),
    Illegal,
    Halt,
}

#[derive(Clone, Copy)]
pub struct Instruction {
    pub opcode: Opcode,
    pub src: OperandType,
    pub dest: OperandType,
}

// An entry of a table: an opcode, where its result goes, where its operand comes from.
pub type Entry = (Opcode, (OperandType, OperandType));
