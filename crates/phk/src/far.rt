// How far a run has come, and how it goes on.
ghost use Rattle.std.specs.Prelude.{◌≡◌, ◌<◌, Some};
ghost use Rattle.phk.specs.SoFar.{is_over, begun, later, farther, cut_as, cut_unless, Piece};

use outcome::Outcome;
use run::Ran;
use run::ending::stops_last;
use sm83::Cpu;

// Why a run was ended before its last step: a line of its trace could not be written; a person asked for it; the next instruction is not in
// the image.
#[derive(Clone, Copy)]
pub enum Cut {
    Lost,
    ByHand,
    Outside,
}

// How far a run has come.
#[derive(Clone, Copy)]
pub struct Far {
    pub cpu: Cpu,
    pub last: Option<Outcome>,
    pub steps: u64,
    pub cycles: u64,
    pub cut: Option<Cut>,
}

// Nothing has been run.
pub fn begun(cpu: Cpu) -> Far
    ensures { result ≡ begun cpu }
{
    Far {
        cpu,
        last: None,
        steps: 0,
        cycles: 0,
        cut: None,
    }
}

// A run that has come so far goes no further: it has stopped by itself, or was cut.
pub fn over(far: Far) -> bool
    ensures { result ≡ is_over far }
{
    stops_last(far.last) | far.cut.is_some()
}

// The same run, cut for a reason.
pub fn cut_as(far: Far, cut: Cut) -> Far
    ensures { result ≡ cut_as far (Some cut) }
{
    Far {
        cut: Some(cut),
        ..far
    }
}

// A run whose trace is lost is not gone on with.
pub fn cut_unless(written: bool, far: Far) -> Far
    ensures { result ≡ cut_unless written far }
{
    if written { far } else { cut_as(far, Cut::Lost) }
}

// The last outcome of two pieces.
fn later(before: Option<Outcome>, last: Option<Outcome>) -> Option<Outcome>
    ensures { result ≡ later before last }
{
    last.or(before)
}

// So far, and then one piece more.
pub fn farther(far: Far, piece: Ran) -> Far
    ensures { result ≡ farther far piece }
{
    Far {
        cpu: piece.cpu,
        last: later(far.last, piece.last),
        steps: far.steps.wrapping_add(u64::from(piece.steps)),
        cycles: far.cycles.wrapping_add(u64::from(piece.cycles.0)),
        cut: far.cut,
    }
}

// The steps at the end of a run that are noted, one by one.
pub const NOTED: usize = 64;

// How many of the steps that are left the next piece has. The last ones are run singly, so that they can be noted.
pub fn piece_size(left: u64, single: bool) -> u16
    requires { 0 < left }
    ensures { Piece single left result }
{
    if single | (left <= 64) {
        return 1;
    }
    (left - 64).min(65535) as u16
}
