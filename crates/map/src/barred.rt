// Which of the instructions that a routine must not hold a byte is: refusal 7, by name.
ghost use Rattle.std.specs.Prelude.{◌≡◌};
ghost use Rattle.opcodes.specs.Instruction.{decode};
ghost use Rattle.map.specs.Barred.{barred_of};

// "the eleven of refusal 3, STOP, HALT, EI, RETI, JP HL, every CALL and RST"
#[derive(Clone, Copy)]
pub enum Barred {
    Illegal,
    Stop,
    Halt,
    Ei,
    Reti,
    JpHl,
    Call,
    Rst,
}

// None of what is allowed. No arm has a range: the proof of the last one reads the single numbers off the others.
#[tactic(auto, unfolding(opcodes::specs::Instruction::decode))]
pub fn barred_as(opcode: u8) -> Option<Barred>
    ensures { result ≡ barred_of (decode opcode) }
{
    match opcode {
        0x10 => Some(Barred::Stop),
        0x76 => Some(Barred::Halt),
        0xfb => Some(Barred::Ei),
        0xd9 => Some(Barred::Reti),
        0xe9 => Some(Barred::JpHl),
        // without a condition, and with one
        0xcd => Some(Barred::Call),
        0xc4 | 0xcc | 0xd4 | 0xdc => Some(Barred::Call),
        0xc7 | 0xcf | 0xd7 | 0xdf | 0xe7 | 0xef | 0xf7 | 0xff => Some(Barred::Rst),
        // the eleven, in columns 3 and B, 4 and C, D
        0xd3 | 0xdb | 0xe3 | 0xeb => Some(Barred::Illegal),
        0xe4 | 0xec | 0xf4 | 0xfc => Some(Barred::Illegal),
        0xdd | 0xed | 0xfd => Some(Barred::Illegal),
        _ => None,
    }
}
