// The processor's state: the four states at power-on, and a state with one part changed.
ghost use Rattle.std.specs.Prelude.{◌≡◌};
ghost use Rattle.sm83.specs.State.{on_registers, set_halt};
ghost use Rattle.sm83.specs.PowerOn.{cpu_zero, cpu_dmg, cpu_cgb, cpu_cgb_dmg, awake_with};

use crate::{Cpu, CpuRegisters, HaltMode};

impl Cpu {
    // Without a boot skip.
    pub fn new(dmg: bool) -> Self
        ensures { result ≡ cpu_zero dmg }
    {
        Cpu::awake_with(CpuRegisters::zero(), dmg)
    }

    // As the boot ROM of a DMG leaves it.
    pub fn dmg() -> Self
        ensures { result ≡ cpu_dmg }
    {
        Cpu::awake_with(CpuRegisters::dmg(), true)
    }

    // As the boot ROM of a CGB leaves it for a CGB cartridge.
    pub fn cgb() -> Self
        ensures { result ≡ cpu_cgb }
    {
        Cpu::awake_with(CpuRegisters::cgb(), false)
    }

    // As the boot ROM of a CGB leaves it for a DMG cartridge.
    pub fn cgb_dmg() -> Self
        ensures { result ≡ cpu_cgb_dmg }
    {
        Cpu::awake_with(CpuRegisters::cgb_dmg(), false)
    }

    // Awake, with IME, the EI latch and the host's two flags clear.
    pub fn awake_with(registers: CpuRegisters, dmg: bool) -> Self
        ensures { result ≡ awake_with registers dmg }
    {
        Cpu {
            registers: registers,
            ime: false,
            latch: false,
            halt: HaltMode::NotHalting,
            stopped: false,
            hdma: false,
            dmg: dmg,
        }
    }
}

// The state with other registers. Each field stands by itself, so that the compiler keeps each register by itself, too: a
// state that is copied whole goes through memory, stored as bytes and read back as words (docs/SPEED.md).
pub fn with_registers(cpu: Cpu, registers: CpuRegisters) -> Cpu
    ensures { result ≡ on_registers (λ _. registers) cpu }
{
    let sp = registers.sp;
    let pc = registers.pc;
    let halt = cpu.halt;
    let regs = CpuRegisters {
        a: registers.a,
        b: registers.b,
        c: registers.c,
        sp: sp,
        f: registers.f,
        d: registers.d,
        e: registers.e,
        h: registers.h,
        l: registers.l,
        pc: pc,
    };
    Cpu {
        registers: regs,
        ime: cpu.ime,
        latch: cpu.latch,
        halt: halt,
        stopped: cpu.stopped,
        hdma: cpu.hdma,
        dmg: cpu.dmg,
    }
}

// The same state, each field by itself: what comes out of a large function is taken apart once more (docs/SPEED.md).
pub fn fresh(cpu: Cpu) -> Cpu
    ensures { result ≡ cpu }
{
    let own = cpu.registers;
    with_registers(cpu, own)
}

// The state in another halt mode.
pub fn with_halt(cpu: Cpu, halt: HaltMode) -> Cpu
    ensures { result ≡ set_halt halt cpu }
{
    let regs = cpu.registers;
    Cpu {
        registers: regs,
        ime: cpu.ime,
        latch: cpu.latch,
        halt: halt,
        stopped: cpu.stopped,
        hdma: cpu.hdma,
        dmg: cpu.dmg,
    }
}
