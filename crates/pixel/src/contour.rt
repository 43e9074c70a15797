// A pixel that was read.
use crate::square::Square;
use cell::face::{Cut, Face};
use cell::vertex::Vertex;

// Where a pixel lies, the heights at its corners, and how the level cuts it.
#[derive(Clone, Copy)]
pub(crate) struct Contour {
    pub(crate) square: Square,
    pub(crate) face: Face,
    pub(crate) cut: Cut,
}

// The same with its vertices; the array has room for the most that a pixel has, since there is no heap, and `ArrayVec` is not `Copy`.
#[derive(Clone, Copy)]
pub struct PixelShape {
    pub(crate) contour: Contour,
    pub(crate) vertices: [Vertex; 5],
}
