// Pieces of a contour or a shell.
ghost use Rattle.std.specs.Prelude.{◌≡◌, ℕ, List, length};

// A piece names its vertices by number, counted from 1: two for a segment, three for a triangle.
pub trait Piece: Copy {
    ghost arity: { ℕ };

    ghost numbers: { Self → List ℕ };

    ghost size: { (p : Self) → length (numbers p) ≡ arity };
}
