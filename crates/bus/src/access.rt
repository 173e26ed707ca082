// A byte at an address, read or written.
ghost use Rattle.std.specs.Prelude.{◌≡◌};
ghost use Rattle.definition.specs.Bus.{Operand};
ghost use Rattle.definition.specs.Execution.{load, store, high};
ghost use Rattle.bus.specs.Leads.{Runs};

use crate::{AccessKind, Left, Memory, Port};
use sm83::{Addr, Cpu};

// The byte at an address, as a word.
pub fn load(cpu: Cpu, port: Port, a: Addr, mem: &mut Memory) -> Left<u16>
    ensures { Runs (load Operand a.0) cpu port mem.old result.value result.cpu result.port mem.new }
{
    let got = crate::read(port, mem, AccessKind::Operand, a);
    let p = got.port;
    Left {
        cpu: cpu,
        port: p,
        value: got.value as u16,
    }
}

// An address of the page FF.
pub fn high(n: u8) -> Addr
    ensures { result.0 ≡ high n }
{
    Addr(0xff00 + (n as u16))
}

// A byte to an address.
pub fn store(cpu: Cpu, port: Port, a: Addr, v: u8, mem: &mut Memory) -> Left<()>
    ensures { Runs (store Operand a.0 v) cpu port mem.old tt result.cpu result.port mem.new }
{
    let p = crate::write(port, mem, AccessKind::Operand, a, v);
    Left {
        cpu: cpu,
        port: p,
        value: (),
    }
}
