// The interface that a kind of cell meets.
ghost use Rattle.std.specs.Prelude.{◌≡◌, ℕ, List, map};
ghost use Rattle.std.specs.Option.{option_map};
ghost use Rattle.std.specs.List.{slice_get};
ghost use Rattle.block.specs.Refusals.{Outcome};
ghost use Rattle.cell.specs.declared.vertex.Side.{Side as ASide};
ghost use Rattle.cell.specs.declared.vertex.Vertex.{Vertex as AVertex};
ghost use Rattle.kind.specs.Meaning.{Meaning, Laws, Joint as Places, cell_declined};
ghost use Rattle.kind.specs.Shapes.{local_pieces, bordered, places_in, cut_at, corner_at};

use crate::joint::Joint;
use crate::piece::Piece;
use block::lattice::{Point, Sizes};
use block::refusal::Refusal;
use block::source::Source;
use cell::level::Level;
use cell::vertex::{Side, Vertex};

// A cell that was read: its vertices, its pieces with numbers among these, and its sides with their cuts.
pub trait Shape<P: Piece> {
    ghost points: { Self → List AVertex };

    ghost parts: { Self → List P };

    ghost borders: { Self → List (ASide × List Places) };

    fn vertices(&self) -> &[Vertex]
        ensures answer { result.now ≡ points self.now };

    fn pieces(&self) -> &[P]
        ensures answer { result.now ≡ parts self.now };

    // The side at a place, counted from 0, or nothing past the last.
    fn side(&self, n: usize) -> Option<Side>
        ensures answer { result ≡ slice_get (map (λ s. s.0) (borders self.now)) n };

    // The cut at a place of the side at a place, or nothing past the last of either.
    fn cut(&self, side: usize, n: usize) -> Option<Joint>
        ensures answer { option_map places_in result ≡ cut_at (borders self.now) side n };
}

// A kind of cell is known by what it means, and carries the proof of its laws.
pub trait Kind {
    type Piece: Piece;

    type Shape: Shape<Self::Piece> + Drop;

    ghost meaning: { Meaning };

    ghost laws: { Laws meaning };

    fn is_cell(&self, sizes: Sizes, at: Point) -> bool
        ensures answer { result ≡ meaning.cell sizes at };

    // The corner with a number, counted from 0, of a cell, or nothing where there is none.
    fn corner(&self, sizes: Sizes, at: Point, n: usize) -> Option<Point>
        ensures answer { result ≡ corner_at meaning sizes at n };

    // Reads each corner of a cell once, in order; the first that answers a fault or meets the level decides.
    // Source, level and position stay apart: a ledger keeps its level and is handed a source with each take.
    fn read<S: Source>(&self, source: &S, level: Level, at: Point) -> Result<Self::Shape, Refusal>
        ensures answer { Outcome (cell_declined meaning (S.Source.block source.now) level at) (λ s.
            (Self.Shape.Shape.points s ≡ meaning.vertices (S.Source.block source.now) level at)
            × (map Self.Piece.Piece.numbers (Self.Shape.Shape.parts s) ≡ local_pieces meaning (S.Source.block source.now) level at)
            × (Self.Shape.Shape.borders s ≡ bordered meaning (S.Source.block source.now) level at)) result };

    ghost arity: { meaning.arity ≡ Self.Piece.Piece.arity };
}
