// Where a run starts and how many steps it may take, by what the command line says.
ghost use Rattle.std.specs.Prelude.{◌≡◌};
ghost use Rattle.phk.specs.Start.{at_power_on, of_words, started_with, started, budget};

use commandline::grammar::{Part, Power};
use commandline::line::Line;
use sm83::{Addr, Cpu, CpuRegisters, HaltMode};

#[tactic(auto, unfolding(crate::specs::Start::at_power_on))]
fn at_power_on(power: Power) -> Cpu
    ensures { result ≡ at_power_on power }
{
    match power {
        Power::Dmg => Cpu::dmg(),
        Power::Cgb => Cpu::cgb(),
        Power::CgbDmg => Cpu::cgb_dmg(),
        Power::Zero => Cpu::new(true),
    }
}

// The registers by their six words.
fn of_words(af: u16, bc: u16, de: u16, hl: u16, sp: u16, pc: u16) -> CpuRegisters
    ensures { result ≡ of_words af bc de hl sp pc }
{
    CpuRegisters {
        a: (af / 256) as u8,
        b: (bc / 256) as u8,
        c: (bc % 256) as u8,
        sp: Addr(sp),
        f: (af % 256) as u8,
        d: (de / 256) as u8,
        e: (de % 256) as u8,
        h: (hl / 256) as u8,
        l: (hl % 256) as u8,
        pc: Addr(pc),
    }
}

// The words that the line gives, in place of the state's own. A run within a window starts at its first address.
fn started_with(line: Line, r: CpuRegisters) -> CpuRegisters
    ensures { result ≡ started_with line r }
{
    of_words(
        line.address(Part::Af, r.reg_af_read()),
        line.address(Part::Bc, r.reg_bc_read()),
        line.address(Part::De, r.reg_de_read()),
        line.address(Part::Hl, r.reg_hl_read()),
        line.address(Part::Sp, r.sp.0),
        line.address(Part::Pc, line.address(Part::First, r.pc.0)),
    )
}

pub fn started(line: Line) -> Cpu
    ensures { result ≡ started line }
{
    let c = at_power_on(line.power(Part::State, Power::Dmg));
    Cpu {
        registers: started_with(line, c.registers),
        ime: line.has(Part::Ime),
        latch: line.has(Part::Ei),
        halt: HaltMode::NotHalting,
        stopped: false,
        hdma: false,
        dmg: c.dmg,
    }
}

// How many steps were asked for.
pub fn budget(line: Line) -> u64
    ensures { result ≡ budget line }
{
    line.number(Part::Steps, 65535)
}
