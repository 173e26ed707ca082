// Words and registers in a block, low byte first, and a block that is written from its front on.
ghost use Rattle.std.specs.Prelude.{◌≡◌, ◌+◌, ◌<◌, ◌≤◌, length};
ghost use Rattle.blocks.specs.Bytes.{word_at, filled};
ghost use Rattle.blocks.specs.Registers.{register_bytes, registers_at};

use sm83::{Addr, CpuRegisters};

pub fn word_at(block: &[u8], at: usize) -> u16
    requires { at + 1 < length block.now }
    ensures { result ≡ word_at block.now at }
{
    u16::from_le_bytes([block[at], block[at + 1]])
}

// The registers at the front of a state block.
pub(crate) fn front_registers(block: &[u8; 24]) -> CpuRegisters
    ensures { result ≡ registers_at block.now 0 }
{
    CpuRegisters {
        a: block[0],
        b: block[2],
        c: block[3],
        sp: Addr(word_at(block, 8)),
        f: block[1],
        d: block[4],
        e: block[5],
        h: block[6],
        l: block[7],
        pc: Addr(word_at(block, 10)),
    }
}

pub(crate) fn register_bytes(registers: CpuRegisters) -> [u8; 12]
    ensures { result ≡ register_bytes registers }
{
    let r = registers;
    let sp = r.sp.0.to_le_bytes();
    let pc = r.pc.0.to_le_bytes();
    [
        r.a, r.f, r.b, r.c, r.d, r.e, r.h, r.l, sp[0], sp[1], pc[0], pc[1],
    ]
}

// A block of `size` bytes begins with these; one of any other length is left alone.
pub(crate) fn write_front(block: &mut [u8], size: usize, bytes: &[u8])
    requires { length bytes.now ≤ size }
    ensures { block.new ≡ filled size bytes.now block.old }
{
    if block.len() == size {
        block[..bytes.len()].copy_from_slice(bytes);
    }
}
