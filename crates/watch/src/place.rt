// Where an instruction writes, by its opcode byte, and the addresses that it comes to.
ghost use Rattle.std.specs.Prelude.{◌≡◌};
ghost use Rattle.sm83.specs.Basics.{word, next};
ghost use Rattle.opcodes.specs.Instruction.{decode, decode_cb};
ghost use Rattle.definition.specs.Bus.{byte_at};
ghost use Rattle.watch.specs.Places.{place_of, writes_hl, pushed_from, addresses_at};
ghost use Rattle.watch.specs.Written.{addresses_of};

use crate::written::Written;
use bus::access::high;
use instruction::Condition;
use instruction::conditions::check_cond;
use screen::memory::byte;
use sm83::registers::pair;
use sm83::{Addr, CpuRegisters};

#[derive(Clone, Copy)]
pub enum Place {
    AtBC,
    AtDE,
    AtHL,
    // n16: one byte, or two
    AtWord,
    AtTwo,
    // FF00 on: n8, or C
    AtHigh,
    AtHighC,
    // two bytes below SP, if the condition holds
    Pushed(Condition),
    // as the byte after CB says
    AfterCB,
}

// No arm has a range: the proof of the last one reads the single numbers off the others.
#[tactic(auto, unfolding(opcodes::specs::Instruction::decode))]
pub fn place_of(opcode: u8) -> Option<Place>
    ensures { result ≡ place_of (decode opcode) }
{
    match opcode {
        // LD [r16],A
        0x02 => Some(Place::AtBC),
        0x12 => Some(Place::AtDE),
        // LD [HL+],A, LD [HL-],A; INC [HL], LD [HL],n8; DEC [HL]
        0x22 | 0x32 => Some(Place::AtHL),
        0x34 | 0x36 => Some(Place::AtHL),
        0x35 => Some(Place::AtHL),
        // LD [HL],r8: B, D, H, and C, E, L, A
        0x70 | 0x72 | 0x74 => Some(Place::AtHL),
        0x71 | 0x73 | 0x75 | 0x77 => Some(Place::AtHL),
        0xea => Some(Place::AtWord),
        0x08 => Some(Place::AtTwo),
        0xe0 => Some(Place::AtHigh),
        0xe2 => Some(Place::AtHighC),
        // PUSH; RST; CALL
        0xc5 | 0xd5 | 0xe5 | 0xf5 => Some(Place::Pushed(Condition::Unconditional)),
        0xc7 | 0xd7 | 0xe7 | 0xf7 => Some(Place::Pushed(Condition::Unconditional)),
        0xcf | 0xdf | 0xef | 0xff => Some(Place::Pushed(Condition::Unconditional)),
        0xcd => Some(Place::Pushed(Condition::Unconditional)),
        0xc4 => Some(Place::Pushed(Condition::NZ)),
        0xcc => Some(Place::Pushed(Condition::Z)),
        0xd4 => Some(Place::Pushed(Condition::NC)),
        0xdc => Some(Place::Pushed(Condition::C)),
        0xcb => Some(Place::AfterCB),
        _ => None,
    }
}

// After CB: each on [HL] but BIT, which is 40 to 7F.
#[tactic(auto, using(crate::proofs::place::Addresses::on_hl))]
fn writes_hl(b: u8) -> bool
    ensures { result ≡ writes_hl (decode_cb b) }
{
    (b % 8 == 6) & ((b < 0x40) | (0x7f < b))
}

pub fn pushed(sp: Addr) -> Written
    ensures { addresses_of result ≡ pushed_from sp.0 }
{
    let upper = sp.wrapping_sub(1);
    let lower = upper.wrapping_sub(1);
    Written::Two(upper, lower)
}

// n16, low byte first. A JP's is read behind its opcode; here PC may stand at the opcode, with HaltBug.
fn word_at(mem: &[u8], at: Addr) -> Addr
    ensures { result.0 ≡ word (byte_at mem.now (next at.0)) (byte_at mem.now at.0) }
{
    let low = byte(mem, at);
    let high = byte(mem, at.wrapping_add(1));
    Addr(pair(high, low))
}

// From the registers after the fetch.
#[tactic(auto, unfolding(crate::specs::Places::addresses_at))]
pub fn writes_at(place: Option<Place>, regs: CpuRegisters, mem: &[u8]) -> Written
    ensures { addresses_of result ≡ addresses_at place regs mem.now }
{
    let low = byte(mem, regs.pc);
    let word = word_at(mem, regs.pc);
    let hl = Addr(regs.reg_hl_read());
    match place {
        Some(Place::AtBC) => Written::One(Addr(regs.reg_bc_read())),
        Some(Place::AtDE) => Written::One(Addr(regs.reg_de_read())),
        Some(Place::AtHL) => Written::One(hl),
        Some(Place::AtWord) => Written::One(word),
        Some(Place::AtTwo) => Written::Two(word, word.wrapping_add(1)),
        Some(Place::AtHigh) => Written::One(high(low)),
        Some(Place::AtHighC) => Written::One(high(regs.c)),
        Some(Place::Pushed(condition)) if check_cond(condition, regs.f) => pushed(regs.sp),
        Some(Place::AfterCB) if writes_hl(low) => Written::One(hl),
        _ => Written::Nothing,
    }
}
