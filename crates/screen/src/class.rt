// Length and class of an opcode byte.
ghost use Rattle.std.specs.Prelude.{◌≡◌};
ghost use Rattle.opcodes.specs.Instruction.{decode};
ghost use Rattle.routine.specs.Flow.{is_forbidden, ends_routine};
ghost use Rattle.screen.specs.Shapes.{shape_of};

use routine::Class;

// "Forbidden: the eleven of refusal 3, STOP, HALT, EI, RETI, JP HL, every CALL and RST."
pub(crate) fn is_forbidden(class: Class) -> bool
    ensures { result ≡ is_forbidden class }
{
    matches!(class, Class::Barred | Class::Call | Class::CallIf)
}

// "an unconditional JP, JR or RET"
pub(crate) fn ends_routine(class: Class) -> bool
    ensures { result ≡ ends_routine class }
{
    matches!(class, Class::Return | Class::Absolute | Class::Relative)
}

// Its length in bytes, and its class; without names, so that an arm of `shape_of` is one line.
#[derive(Clone, Copy)]
pub struct Shape(pub u8, pub Class);

// "Length and class are decided by ranges of the opcode byte, CB opcodes being two bytes long."
#[tactic(auto, unfolding(opcodes::specs::Instruction::decode))]
pub fn shape_of(opcode: u8) -> Shape
    ensures { result ≡ shape_of (decode opcode) }
{
    match opcode {
        // 40 to 7F: LD r8,r8, less HALT; 80 to BF: arithmetic with r8
        0x40..=0x75 | 0x77..=0x7f => Shape(1, Class::Basic),
        0x80..=0xbf => Shape(1, Class::Basic),
        // 00 to 3F, columns 2 to 5: LD [r16],A, INC r16, INC r8, DEC r8; 9 to D: ADD HL,r16, LD A,[r16], DEC r16, INC r8, DEC r8
        0x02..=0x05 | 0x12..=0x15 | 0x22..=0x25 | 0x32..=0x35 => Shape(1, Class::Basic),
        0x09..=0x0d | 0x19..=0x1d | 0x29..=0x2d | 0x39..=0x3d => Shape(1, Class::Basic),
        // columns 7 and F: A rotated, DAA, CPL, SCF, CCF; NOP, DI
        0x07 | 0x0f | 0x17 | 0x1f | 0x27 | 0x2f | 0x37 | 0x3f => Shape(1, Class::Basic),
        0x00 | 0xf3 => Shape(1, Class::Basic),
        // C0 to FF, columns 1 and 5: POP, PUSH; LDH with C, LD SP,HL
        0xc1 | 0xc5 | 0xd1 | 0xd5 | 0xe1 | 0xe5 | 0xf1 | 0xf5 => Shape(1, Class::Basic),
        0xe2 | 0xf2 | 0xf9 => Shape(1, Class::Basic),
        // columns 6 and E: LD r8,n8, arithmetic with n8; CB; LDH with n8, ADD SP,e8, LD HL,SP+e8
        0x06 | 0x0e | 0x16 | 0x1e | 0x26 | 0x2e | 0x36 | 0x3e => Shape(2, Class::Basic),
        0xc6 | 0xce | 0xd6 | 0xde | 0xe6 | 0xee | 0xf6 | 0xfe => Shape(2, Class::Basic),
        0xcb | 0xe0 | 0xe8 | 0xf0 | 0xf8 => Shape(2, Class::Basic),
        // LD r16,n16; LD [n16],SP, LD [n16],A, LD A,[n16]
        0x01 | 0x08 | 0x11 | 0x21 | 0x31 | 0xea | 0xfa => Shape(3, Class::Basic),
        // JP, JR, RET and CALL, each without a condition and with one
        0xc3 => Shape(3, Class::Absolute),
        0xc2 | 0xca | 0xd2 | 0xda => Shape(3, Class::AbsoluteIf),
        0x18 => Shape(2, Class::Relative),
        0x20 | 0x28 | 0x30 | 0x38 => Shape(2, Class::RelativeIf),
        0xc9 => Shape(1, Class::Return),
        0xc0 | 0xc8 | 0xd0 | 0xd8 => Shape(1, Class::ReturnIf),
        0xcd => Shape(3, Class::Call),
        0xc4 | 0xcc | 0xd4 | 0xdc => Shape(3, Class::CallIf),
        // STOP, HALT, RETI, JP HL, EI; RST; the eleven of refusal 3, in columns 3 and B, 4 and C, D
        0x10 | 0x76 | 0xd9 | 0xe9 | 0xfb => Shape(1, Class::Barred),
        0xc7 | 0xcf | 0xd7 | 0xdf | 0xe7 | 0xef | 0xf7 | 0xff => Shape(1, Class::Barred),
        0xd3 | 0xdb | 0xe3 | 0xeb => Shape(1, Class::Barred),
        0xe4 | 0xec | 0xf4 | 0xfc => Shape(1, Class::Barred),
        0xdd | 0xed | 0xfd => Shape(1, Class::Barred),
    }
}
