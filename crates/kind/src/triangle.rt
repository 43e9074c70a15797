// Triangles: the pieces of a shell.
ghost use Rattle.std.specs.Prelude.{List, [], ◌∷◌, refl};

use crate::piece::Piece;

// A triangle names its three vertices by number, counted from 1. Fields, as a segment has, and no array: each has a name of its own.
#[derive(Clone, Copy, PartialEq, Eq, Debug, Default)]
pub struct Triangle {
    pub first: usize,
    pub second: usize,
    pub third: usize,
}

impl Piece for Triangle {
    ghost arity = { 3 };

    ghost numbers = { λ t. t.first ∷ t.second ∷ t.third ∷ [] };

    ghost size = { λ _. refl };
}
