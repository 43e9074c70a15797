// Where the level crosses a lattice edge.
ghost use Rattle.std.specs.Prelude.{◌≡◌};
ghost use Rattle.cell.specs.Crossing.{along_edge, crossing_of, opposite};
ghost use Rattle.cell.specs.Level.{sign};

use crate::level::Height;

// How far a point lies along an edge from its lower end, as a fraction of the edge that is not reduced.
#[derive(Clone, Copy, PartialEq, Eq, Debug, Default)]
pub struct Offset {
    pub numerator: u32,
    pub denominator: u32,
}

// A lattice edge, by the heights at its lower and its upper end.
#[derive(Clone, Copy)]
pub struct Edge {
    pub low: Height,
    pub high: Height,
}

impl Edge {
    pub(crate) fn new(low: Height, high: Height) -> Edge
        ensures answer { (result.low ≡ low) × (result.high ≡ high) }
    {
        Edge { low, high }
    }

    // Whether the edge has a crossing: one end is above the level and the other below it.
    pub fn is_crossed(&self) -> bool
        ensures answer { result ≡ opposite (sign self.now.low.value) (sign self.now.high.value) }
    {
        if self.low.value() < 0 {
            self.high.value() > 0
        } else {
            self.low.value() > 0 && self.high.value() < 0
        }
    }

    // The crossing, or nothing if the edge has none.
    pub fn crossing(&self) -> Option<Offset>
        ensures answer { result ≡ crossing_of self.now.low.value self.now.high.value }
    {
        if self.is_crossed() {
            Some(self.offset())
        } else {
            None
        }
    }

    // Where an edge that has a crossing has it.
    pub fn offset(&self) -> Offset
        ensures answer { result ≡ along_edge self.now.low.value self.now.high.value }
    {
        Offset {
            numerator: self.low.size(),
            denominator: self.low.size() + self.high.size(),
        }
    }
}

// The crossing of an edge, from the heights at its lower and its upper end, or nothing if the edge has none.
pub fn crossing(low: Height, high: Height) -> Option<Offset>
    ensures answer { result ≡ crossing_of low.value high.value }
{
    Edge { low, high }.crossing()
}

// Where an edge that has a crossing has it.
pub fn along_edge(low: Height, high: Height) -> Offset
    ensures answer { result ≡ along_edge low.value high.value }
{
    Edge { low, high }.offset()
}
