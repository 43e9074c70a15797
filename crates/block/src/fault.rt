// What a source answers at a point that has no sample.
ghost use Rattle.std.specs.Prelude.{◌≡◌};
ghost use Rattle.block.specs.Faults.{fresh, raised, cause_number};

use crate::lattice::Point;

#[derive(Clone, Copy, PartialEq, Eq, Debug)]
pub enum Cause {
    // The sample is marked as missing.
    Missing = 1,
    // The point lies outside the block.
    Outside = 2,
}

impl Cause {
    pub fn number(&self) -> u8
        ensures answer { result ≡ cause_number self.now }
    {
        *self as u8
    }
}

// A fault tells its point in the coordinates of the layer that raised it, and how many layers it has passed since.
#[derive(Clone, Copy, PartialEq, Eq, Debug)]
pub struct Fault {
    pub cause: Cause,
    pub point: Point,
    pub layers: u8,
}

impl Fault {
    // A fault as it arises.
    pub fn new(cause: Cause, point: Point) -> Fault
        ensures answer { result ≡ fresh cause point }
    {
        Fault {
            cause,
            point,
            layers: 0,
        }
    }

    // The fault as the next layer hands it up: whole, its count one more, up to 255.
    pub fn raised(self) -> Fault
        ensures answer { result ≡ raised self }
    {
        Fault {
            layers: self.layers.saturating_add(1),
            ..self
        }
    }
}
