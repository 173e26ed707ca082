// The state block: 24 bytes, of which the last six are reserved, not looked at and not changed.
ghost use Rattle.std.specs.Prelude.{◌≡◌, leb, if◌then◌else◌};
ghost use Rattle.blocks.specs.WellFormed.{is_flag};
ghost use Rattle.blocks.specs.StateBlock.{halt_at, is_set, state_of, state_fields, state_bytes};

use crate::bytes::{front_registers, register_bytes, write_front};
use sm83::{Cpu, HaltMode};

pub const STATE_LENGTH: usize = 24;

fn flag_of(byte: u8) -> Option<bool>
    ensures { result ≡ (if is_flag byte then Some (is_set byte) else None) }
{
    match byte {
        0 => Some(false),
        1 => Some(true),
        _ => None,
    }
}

// A function and no `TryFrom`, which would stand in `sm83`, where no block is known.
fn halt_of(byte: u8) -> Option<HaltMode>
    ensures { result ≡ (if leb byte 3 then Some (halt_at byte) else None) }
{
    match byte {
        0 => Some(HaltMode::NotHalting),
        1 => Some(HaltMode::HaltRunInterrupt),
        2 => Some(HaltMode::HaltNoRunInterrupt),
        3 => Some(HaltMode::HaltBug),
        _ => None,
    }
}

// None if the length is not 24, a flag is not 0 or 1, or the halt mode is above 3. The low bits of F are the step's to refuse.
pub fn read_state(block: &[u8]) -> Option<Cpu>
    ensures { result ≡ state_of block.now }
{
    let block: &[u8; STATE_LENGTH] = block.as_array()?;
    Some(Cpu {
        registers: front_registers(block),
        ime: flag_of(block[12])?,
        latch: flag_of(block[13])?,
        halt: halt_of(block[14])?,
        stopped: flag_of(block[15])?,
        hdma: flag_of(block[16])?,
        dmg: flag_of(block[17])?,
    })
}

fn state_fields(cpu: Cpu) -> [u8; 18]
    ensures { result ≡ state_fields cpu }
{
    let mut fields = [0u8; 18];
    fields[..12].copy_from_slice(&register_bytes(cpu.registers));
    fields[12] = u8::from(cpu.ime);
    fields[13] = u8::from(cpu.latch);
    fields[14] = cpu.halt as u8;
    fields[15] = u8::from(cpu.stopped);
    fields[16] = u8::from(cpu.hdma);
    fields[17] = u8::from(cpu.dmg);
    fields
}

// Bytes 0 to 17. A block of any other length is left alone.
pub fn write_state(block: &mut [u8], cpu: Cpu)
    ensures { block.new ≡ state_bytes cpu block.old }
{
    write_front(block, STATE_LENGTH, &state_fields(cpu));
}
