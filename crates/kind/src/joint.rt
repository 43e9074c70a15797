// What two pieces meet in.
use cell::vertex::Place;

// All vertices of a piece but one: one place for segments, two different ones in any order for triangles.
#[derive(Clone, Copy, PartialEq, Eq, Debug)]
pub struct Joint {
    pub first: Place,
    pub second: Option<Place>,
}
