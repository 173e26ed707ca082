// The picture of a window: what each of its bytes is.
ghost use Rattle.std.specs.Prelude.{◌≡◌, length};
ghost use Rattle.map.specs.Kinds.{stop_of, start_kind, cell_of, cell_at, kinds_of};

use crate::opcode::is_jump;
use crate::walk::Walk;
use routine::Finding;
use screen::memory::byte;
use sm83::Addr;

#[derive(Clone, Copy, PartialEq, Eq)]
pub enum Kind {
    // after the end of the walk
    NotReached,
    // an instruction's first byte, of no jump
    Start,
    Operand,
    // a jump's first byte
    Jump,
    // the byte at which the screen refuses the window
    Refused,
}

// The refused byte, and whether the walk ends there.
#[derive(Clone, Copy)]
pub struct Stop {
    pub at: Addr,
    pub ends: bool,
}

// A byte's kind, the walk behind it, and whether it has ended.
#[derive(Clone, Copy)]
pub struct Cell {
    pub kind: Kind,
    pub walk: Walk,
    pub ended: bool,
}

// The walk ends at refusals 7 and 8; the others are found after it.
fn stop_of(verdict: Result<(), Finding>) -> Option<Stop>
    ensures { result ≡ stop_of verdict }
{
    match verdict {
        Err(Finding::At(refusal, at)) => Some(Stop {
            at,
            ends: refusal.number() < 9,
        }),
        _ => None,
    }
}

fn start_kind(b: u8) -> Kind
    ensures { result ≡ start_kind b }
{
    if is_jump(b) { Kind::Jump } else { Kind::Start }
}

// The next byte of a walk by instruction length.
#[tactic(auto, unfolding(crate::specs::Kinds::cell_of))]
fn cell_of(mut walk: Walk, b: u8) -> Cell
    ensures { result ≡ cell_of walk b }
{
    let start = walk.starts(b);
    let kind = if start { start_kind(b) } else { Kind::Operand };
    Cell {
        kind,
        walk,
        ended: false,
    }
}

// The byte b at an address, after the byte before it.
#[tactic(auto, unfolding(crate::specs::Kinds::cell_at))]
fn cell_at(stop: Option<Stop>, before: Cell, at: Addr, b: u8) -> Cell
    ensures { result ≡ cell_at stop before at.0 b }
{
    if before.ended {
        return Cell {
            kind: Kind::NotReached,
            ..before
        };
    }
    let cell = cell_of(before.walk, b);
    match stop {
        Some(stop) if at.0 == stop.at.0 => Cell {
            kind: Kind::Refused,
            ended: stop.ends,
            ..cell
        },
        _ => cell,
    }
}

// What each byte of a window is, with what the screen says of it.
#[tactic(auto, using(crate::proofs::kinds::Drawing::ended), unfolding(crate::specs::Kinds::kinds_of))]
pub fn draw(mem: &[u8], first: Addr, verdict: Result<(), Finding>, kinds: &mut [Kind])
    ensures { kinds.new ≡ kinds_of mem.now first.0 verdict (length kinds.old) }
{
    let stop = stop_of(verdict);
    let mut cell = Cell {
        kind: Kind::NotReached,
        walk: Walk { left: 0 },
        ended: false,
    };
    let mut at = first;
    for kind in kinds.iter_mut() {
        cell = cell_at(stop, cell, at, byte(mem, at));
        *kind = cell.kind;
        at = at.wrapping_add(1);
    }
}
