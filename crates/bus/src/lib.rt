// The bus: plain memory, the 65,536 bytes that the caller lends, and a port that counts the M-cycles. It is shut: a read,
// a write, an idle access, a peek and the push that takes an interrupt each say where the definition's node leads, and
// nothing else of port or bytes.
#![tactic(auto)]

ghost use Rattle.std.specs.Prelude.{◌≡◌};
ghost use Rattle.bus.specs.World.{kind_of, counted, Reads, Writes, Idles};

use sm83::{Addr, Cpu, MCycles};

pub mod access;
pub mod fetch;
pub mod interrupts;

// Plain memory: the type holds that it has 65,536 bytes, whatever is done to them.
pub type Memory = [u8; 65536];

// What an access is for, as its caller says. Plain memory does the same for each.
#[derive(Clone, Copy)]
pub enum AccessKind {
    Fetch,
    Operand,
    Stack,
}

#[derive(Clone, Copy)]
pub struct Port {
    pub cycles: MCycles,
}

// What an access answers: the port as it leaves it, and a value.
#[derive(Clone, Copy)]
pub struct Got<T> {
    pub port: Port,
    pub value: T,
}

fn tick(port: Port) -> Port
    ensures { result ≡ counted port }
{
    let n = port.cycles;
    let c = std::num::wrapping_add_u32(n.0, 1);
    let m = MCycles(c);
    Port { cycles: m }
}

pub fn read(port: Port, mem: &mut Memory, kind: AccessKind, a: Addr) -> Got<u8>
    ensures { Reads (kind_of kind) a.0 port mem.old result.value result.port mem.new }
{
    let at = a.0 as usize;
    let v = mem[at];
    Got {
        port: tick(port),
        value: v,
    }
}

pub fn write(port: Port, mem: &mut Memory, kind: AccessKind, a: Addr, v: u8) -> Port
    ensures { Writes (kind_of kind) a.0 v port mem.old result mem.new }
{
    let at = a.0 as usize;
    mem[at] = v;
    tick(port)
}

// `advance_bus` of the Rust, whose `read(0)` changes nothing on plain memory.
pub fn idle(port: Port, mem: &mut Memory) -> Port
    ensures { Idles port mem.old result mem.new }
{
    tick(port)
}

// What a part of an instruction answers: the state and the port as it leaves them, and a value.
#[derive(Clone, Copy)]
pub struct Left<T> {
    pub cpu: Cpu,
    pub port: Port,
    pub value: T,
}
