// The registers. The low four bits of F are always 0 in a state that a step accepts: writing AF drops them.
ghost use Rattle.std.specs.Prelude.{◌≡◌, ◌+◌, ◌*◌};
ghost use Rattle.sm83.specs.State.{pair_af, pair_bc, pair_de, pair_hl, write_af, write_bc, write_de, write_hl};
ghost use Rattle.sm83.specs.PowerOn.{registers_zero, registers_dmg, registers_cgb, registers_cgb_dmg};

use crate::Addr;

impl CpuRegisters {
    // The four flags' places in F.
    pub const Z: u8 = 0x80;

    pub const N: u8 = 0x40;

    pub const H: u8 = 0x20;

    pub const C: u8 = 0x10;

    // Without a boot skip: every register 0.
    pub fn zero() -> Self
        ensures { result ≡ registers_zero }
    {
        CpuRegisters {
            a: 0,
            b: 0,
            c: 0,
            sp: Addr(0),
            f: 0,
            d: 0,
            e: 0,
            h: 0,
            l: 0,
            pc: Addr(0),
        }
    }

    // After the boot ROM of a DMG: AF 01B0, BC 0013, DE 00D8, HL 014D.
    pub fn dmg() -> Self
        ensures { result ≡ registers_dmg }
    {
        let f = CpuRegisters::Z + CpuRegisters::H + CpuRegisters::C;
        CpuRegisters {
            a: 0x01,
            b: 0x00,
            c: 0x13,
            sp: Addr(0xfffe),
            f: f,
            d: 0x00,
            e: 0xd8,
            h: 0x01,
            l: 0x4d,
            pc: Addr(0x0100),
        }
    }

    // After the boot ROM of a CGB with a CGB cartridge: AF 1180, BC 0000, DE FF56, HL 000D.
    pub fn cgb() -> Self
        ensures { result ≡ registers_cgb }
    {
        let f = CpuRegisters::Z;
        CpuRegisters {
            a: 0x11,
            b: 0x00,
            c: 0x00,
            sp: Addr(0xfffe),
            f: f,
            d: 0xff,
            e: 0x56,
            h: 0x00,
            l: 0x0d,
            pc: Addr(0x0100),
        }
    }

    // After the boot ROM of a CGB with a DMG cartridge: AF 1180, BC 0000, DE 0008, HL 007C.
    pub fn cgb_dmg() -> Self
        ensures { result ≡ registers_cgb_dmg }
    {
        let f = CpuRegisters::Z;
        CpuRegisters {
            a: 0x11,
            b: 0x00,
            c: 0x00,
            sp: Addr(0xfffe),
            f: f,
            d: 0x00,
            e: 0x08,
            h: 0x00,
            l: 0x7c,
            pc: Addr(0x0100),
        }
    }

    pub fn reg_af_read(self) -> u16
        ensures { result ≡ pair_af self }
    {
        pair(self.a, self.f)
    }

    pub fn reg_bc_read(self) -> u16
        ensures { result ≡ pair_bc self }
    {
        pair(self.b, self.c)
    }

    pub fn reg_de_read(self) -> u16
        ensures { result ≡ pair_de self }
    {
        pair(self.d, self.e)
    }

    pub fn reg_hl_read(self) -> u16
        ensures { result ≡ pair_hl self }
    {
        pair(self.h, self.l)
    }

    // The low four bits of the data are dropped.
    pub fn reg_af_write(self, value: u16) -> Self
        ensures { result ≡ write_af value self }
    {
        let mut r = self;
        r.a = (value / 256) as u8;
        r.f = (value % 256 / 16 * 16) as u8;
        r
    }

    pub fn reg_bc_write(self, value: u16) -> Self
        ensures { result ≡ write_bc value self }
    {
        let mut r = self;
        r.b = (value / 256) as u8;
        r.c = (value % 256) as u8;
        r
    }

    pub fn reg_de_write(self, value: u16) -> Self
        ensures { result ≡ write_de value self }
    {
        let mut r = self;
        r.d = (value / 256) as u8;
        r.e = (value % 256) as u8;
        r
    }

    pub fn reg_hl_write(self, value: u16) -> Self
        ensures { result ≡ write_hl value self }
    {
        let mut r = self;
        r.h = (value / 256) as u8;
        r.l = (value % 256) as u8;
        r
    }
}

// Two bytes as one number, the high byte first.
use crate::CpuRegisters;

pub fn pair(high: u8, low: u8) -> u16
    ensures { result ≡ high * 256 + low }
{
    (high as u16) * 256 + (low as u16)
}
