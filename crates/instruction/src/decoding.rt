// An instruction of 001, from its byte. Its address, which the Rust keeps in it, stands beside it here.
ghost use Rattle.std.specs.Prelude.{◌≡◌};
ghost use Rattle.opcodes.specs.Instruction.{decode, decode_cb};
ghost use Rattle.instruction.specs.Entry.{row_at};
ghost use Rattle.instruction.specs.Row.{row_of, prefixed_row};

use crate::instructions_table::instructions;
use crate::prefixed_table::prefixed_instructions;
use crate::{Entry, Instruction};

impl Instruction {
    pub fn from_byte(byte: u8) -> Self
        ensures { result ≡ row_of (decode byte) }
    {
        from_entry(instructions()[byte as usize])
    }

    // The byte after CB.
    pub fn from_prefix(byte: u8) -> Self
        ensures { result ≡ prefixed_row (decode_cb byte) }
    {
        from_entry(prefixed_instructions()[byte as usize])
    }
}

fn from_entry(entry: Entry) -> Instruction
    ensures { result ≡ row_at entry }
{
    let (opcode, (dest, src)) = entry;
    Instruction { opcode, src, dest }
}
