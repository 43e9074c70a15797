// A cell of the thread that was read.
use block::lattice::Point;
use cell::vertex::Vertex;
use kind::segment::Segment;

// A bead lies between a point and the next along x; the knots at its two ends are its vertices.
#[derive(Clone, Copy)]
pub struct Bead {
    pub(crate) ends: [Point; 2],
    pub(crate) knots: [Vertex; 2],
    pub(crate) segment: [Segment; 1],
}
