// What several examples share.
use block::fault::{Cause, Fault};
use block::lattice::{Point, Sizes};
use block::refusal::Refusal;

pub(crate) fn sizes(x: u32, y: u32, z: u32) -> Sizes {
    Sizes { x, y, z }
}

pub(crate) fn point(x: u32, y: u32, z: u32) -> Point {
    Point { x, y, z }
}

// The number of the refusal, if there is one.
pub(crate) fn refusal<T: Drop>(answer: Result<T, Refusal>) -> Option<u8> {
    answer.err().map(|refusal| refusal.number())
}

// A fault as it arises, field by field: what it is compared with was made by `Fault::new`.
pub(crate) fn fresh(cause: Cause, point: Point) -> Fault {
    Fault {
        cause,
        point,
        layers: 0,
    }
}
