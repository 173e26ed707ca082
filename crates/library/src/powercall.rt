// A state block at power-on: 0, or 255 if its length is not 24 or the model is unknown; then nothing is changed.
ghost use Rattle.std.specs.Prelude.{◌≡◌, if◌then◌else◌};
ghost use Rattle.library.specs.PoweredOn.{left_by_power_on, powered_on, known, state_of_model};

use crate::MALFORMED;
use blocks::state::{STATE_LENGTH, write_state};
use sm83::Cpu;

// The document's four states at power-on.
fn state_of_model(model: u16) -> Option<Cpu>
    ensures { result ≡ (if known model then Some (state_of_model model) else None) }
{
    match model {
        0 => Some(Cpu::dmg()),
        1 => Some(Cpu::cgb()),
        2 => Some(Cpu::cgb_dmg()),
        3 => Some(Cpu::new(true)),
        _ => None,
    }
}

// All 24 bytes, the reserved ones too.
#[tactic(auto, unfolding(crate::specs::PoweredOn::powered_on))]
pub fn power_on_block(state: &mut [u8], model: u16) -> u16
    ensures { left_by_power_on result state.new ≡ powered_on model state.old }
{
    let Some(cpu) = state_of_model(model) else {
        return u16::from(MALFORMED);
    };
    if state.len() != STATE_LENGTH {
        return u16::from(MALFORMED);
    }
    let mut whole = [0u8; STATE_LENGTH];
    write_state(&mut whole, cpu);
    state.copy_from_slice(&whole);
    0
}
