// Segments: the pieces of a contour.
ghost use Rattle.std.specs.Prelude.{List, [], ◌∷◌, refl};

use crate::piece::Piece;

// A segment names its two ends by number, counted from 1.
#[derive(Clone, Copy, PartialEq, Eq, Debug)]
pub struct Segment {
    pub from: usize,
    pub to: usize,
}

impl Piece for Segment {
    ghost arity = { 2 };

    ghost numbers = { λ s. s.from ∷ s.to ∷ [] };

    ghost size = { λ _. refl };
}
