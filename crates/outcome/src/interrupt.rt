// Interrupts: "0 to 4", by the Rust's names.
ghost use Rattle.std.specs.Prelude.{◌≡◌};
ghost use Rattle.outcome.specs.Interrupts.{interrupt_number, is_pending};

#[derive(Clone, Copy)]
pub enum InterruptType {
    Vblank,
    LcdStat,
    Timer,
    Serial,
    Joypad,
}

impl InterruptType {
    // `int_type as usize` of the Rust. It stays a match: docs/01-scope.md, "What must change shape", names it.
    pub fn number(self) -> u8
        ensures { result ≡ interrupt_number self }
    {
        match self {
            InterruptType::Vblank => 0,
            InterruptType::LcdStat => 1,
            InterruptType::Timer => 2,
            InterruptType::Serial => 3,
            InterruptType::Joypad => 4,
        }
    }
}

// Of what peeking and taking answer: `is_some` of the Rust.
pub fn is_pending(next: Option<InterruptType>) -> bool
    ensures { result ≡ is_pending next }
{
    next.is_some()
}
