// The lattice on which samples stand.
ghost use Rattle.std.specs.Prelude.{◌≡◌};

// A lattice point, or the position of a cell, which is that of its lowest corner.
#[derive(Clone, Copy, PartialEq, Eq, Debug)]
pub struct Point {
    pub x: u32,
    pub y: u32,
    pub z: u32,
}

impl Point {
    ghost use Rattle.block.specs.Lattice.{plus_capped};

    // The point that lies as far from this one as `by` from the origin. A coordinate stops at the largest that there is.
    pub fn plus(self, by: Point) -> Point
        ensures answer { result ≡ plus_capped self by }
    {
        Point {
            x: self.x.saturating_add(by.x),
            y: self.y.saturating_add(by.y),
            z: self.z.saturating_add(by.z),
        }
    }
}

// How many lattice points there are along each axis. A type beside `Point`, so that one is not taken for the other.
#[derive(Clone, Copy, PartialEq, Eq, Debug)]
pub struct Sizes {
    pub x: u32,
    pub y: u32,
    pub z: u32,
}

impl Sizes {
    ghost use Rattle.block.specs.Lattice.{inside};

    // Whether a block of these sizes has the point.
    pub fn contains(&self, p: Point) -> bool
        ensures answer { result ≡ inside self.now p }
    {
        p.x < self.x && p.y < self.y && p.z < self.z
    }
}
