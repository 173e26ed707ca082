// The lanes of a picture of a window's jumps. An arrow goes from a row to a row; two that share a row must not share a lane.
ghost use Rattle.std.specs.Prelude.{◌≡◌, ◌<◌, ◌||◌, ℕ, false, get_or};
ghost use Rattle.map.specs.Lanes.{span_of, above, crosses, arrow_or, holds_lane, is_taken, free_lane};

// The rows that an arrow comes from and goes to.
#[derive(Clone, Copy)]
pub struct Rows {
    pub from: u16,
    pub to: u16,
}

impl Rows {
    // How many rows lie between its ends.
    pub fn span(self) -> u16
        ensures { result ≡ span_of self }
    {
        self.from.abs_diff(self.to)
    }

    // All of it above the other.
    fn is_above(self, other: Rows) -> bool
        ensures { result ≡ above self other }
    {
        (self.from < other.from)
            & (self.from < other.to)
            & (self.to < other.from)
            & (self.to < other.to)
    }

    // Whether two arrows share a row.
    pub fn crosses(self, other: Rows) -> bool
        ensures { result ≡ crosses self other }
    {
        !(self.is_above(other) | other.is_above(self))
    }
}

// Where an arrow is drawn.
#[derive(Clone, Copy, PartialEq, Eq)]
pub enum Lane {
    // there is no arrow
    NoArrow,
    // no lane was looked for yet
    Wanted,
    // in none: its target is told in its place
    Told,
    In(u8),
}

#[derive(Clone, Copy)]
pub struct Arrow {
    pub rows: Rows,
    pub lane: Lane,
}

// Past the end each number is 0.
pub fn arrow_at(arrows: &[Arrow], k: usize) -> Arrow
    ensures { result ≡ arrow_or arrows.now k }
{
    match arrows.get(k) {
        Some(arrow) => *arrow,
        None => Arrow {
            rows: Rows { from: 0, to: 0 },
            lane: Lane::In(0),
        },
    }
}

// How many lanes there can be: one for each number of a byte.
const LANES: usize = 256;

// An arrow that shares a row with a new one takes its lane.
fn take_lane(taken: &mut [bool; LANES], arrow: Arrow, rows: Rows)
    ensures { (lane : ℕ) → lane < 256 → get_or taken.new lane false ≡ (get_or taken.old lane false || holds_lane rows lane arrow) }
{
    if let Lane::In(lane) = arrow.lane {
        taken[usize::from(lane)] |= rows.crosses(arrow.rows);
    }
}

// Of each lane, whether an arrow in it shares a row with a new one.
fn taken_lanes(arrows: &[Arrow], rows: Rows) -> [bool; LANES]
    ensures { (lane : ℕ) → lane < 256 → get_or result lane false ≡ is_taken arrows.now rows lane }
{
    let mut taken = [false; LANES];
    for arrow in arrows {
        take_lane(&mut taken, *arrow, rows);
    }
    taken
}

// The lowest of so many lanes that is free for a new arrow, if one is.
pub fn free_lane(arrows: &[Arrow], rows: Rows, count: u8) -> Option<u8>
    ensures { result ≡ free_lane arrows.now rows count }
{
    let taken = taken_lanes(arrows, rows);
    (0..count).find(|lane| !taken[usize::from(*lane)])
}
