// Reading a pixel.
ghost use Rattle.std.specs.Prelude.{◌≡◌, ◌≤◌, map, length, take};
ghost use Rattle.block.specs.Refusals.{Outcome};
ghost use Rattle.cell.specs.Corner.{corners_declined};
ghost use Rattle.cell.specs.Corners.{at_corners};
ghost use Rattle.cell.specs.Vertex.{on_edge};
ghost use Rattle.cell.specs.Crossing.{along_edge};
ghost use Rattle.kind.specs.Meaning.{cell_declined};
ghost use Rattle.pixel.specs.Contour.{HeightsOf, Holds, parts_in};
ghost use Rattle.pixel_theory.specs.Kind.{pixel};
ghost use Rattle.pixel_theory.specs.Numbers.{points_in};
ghost use Rattle.pixel_theory.specs.Pixel.{pixel_corners, vertex_of};

use crate::contour::Contour;
use crate::square::Square;
pub use crate::square::is_pixel;
use block::lattice::Point;
use block::refusal::Refusal;
use block::source::Source;
use cell::corner::heights_at;
use cell::crossing::Edge;
use cell::face::{Cut, Face, FacePoint};
use cell::level::Level;
use cell::vertex::{Axis, Side, Vertex};
use kind::segment::Segment;

mod border;

const CROSSINGS: [FacePoint; 4] = [FacePoint::P0, FacePoint::P1, FacePoint::P2, FacePoint::P3];

impl Contour {
    // Reads the corners of a pixel, each once, in order. A loop over the pixels is three times as fast with this inside it.
    #[inline(always)]
    pub(crate) fn read<S: Source>(source: &S, level: Level, at: Point) -> Result<Contour, Refusal>
        ensures answer { Outcome (cell_declined pixel (S.Source.block source.now) level at) (Holds (S.Source.block source.now) level at) result }
    {
        let square = Square::new(source.sizes(), at).ok_or(Refusal::NoCell)?;
        let face = read_face(source, level, square)?;
        let Some(cut) = face.cut() else {
            // A corner on the level was refused.
            unreachable()
        };
        Ok(Contour { square, face, cut })
    }

    // The vertices in order, and blank ones behind them.
    pub(crate) fn vertices(&self) -> [Vertex; 5]
        ensures answer { take (length (points_in self.now.cut)) result ≡ map (at_corners (vertex_of self.now.square.at) self.now.face) (points_in self.now.cut) }
    {
        let blank = Vertex::blank();
        match self.cut {
            Cut::Uncut => [blank; 5],
            Cut::Single(a, b) => [self.vertex(a), self.vertex(b), blank, blank, blank],
            Cut::Rising | Cut::Falling => {
                let [p0, p1, p2, p3] = CROSSINGS.map(|p| self.vertex(p));
                [p0, p1, p2, p3, blank]
            }
            Cut::Star => {
                let [p0, p1, p2, p3] = CROSSINGS.map(|p| self.vertex(p));
                [p0, p1, p2, p3, self.vertex(FacePoint::C)]
            }
        }
    }

    // How many vertices there are.
    pub(crate) fn vertex_count(&self) -> usize
        ensures answer { result ≡ length (points_in self.now.cut) }
        ensures few { result ≤ 5 }
    {
        match self.cut {
            Cut::Uncut => 0,
            Cut::Single(_, _) => 2,
            Cut::Rising | Cut::Falling => 4,
            Cut::Star => 5,
        }
    }

    // The segments by the numbers of their ends.
    pub(crate) fn segments(&self) -> &'static [Segment]
        ensures answer { result.now ≡ parts_in self.now.cut }
    {
        match self.cut {
            Cut::Uncut => &[],
            Cut::Single(_, _) => &[Segment { from: 1, to: 2 }],
            Cut::Rising => &[Segment { from: 1, to: 4 }, Segment { from: 2, to: 3 }],
            Cut::Falling => &[Segment { from: 1, to: 3 }, Segment { from: 2, to: 4 }],
            Cut::Star => &[
                Segment { from: 1, to: 5 },
                Segment { from: 2, to: 5 },
                Segment { from: 3, to: 5 },
                Segment { from: 4, to: 5 },
            ],
        }
    }

    fn vertex(&self, p: FacePoint) -> Vertex
        ensures answer { result ≡ at_corners (vertex_of self.now.square.at) self.now.face p }
    {
        let [p0, p1, p2, p3] = self.borders();
        match p {
            FacePoint::P0 => crossing(p0),
            FacePoint::P1 => crossing(p1),
            FacePoint::P2 => crossing(p2),
            FacePoint::P3 => crossing(p3),
            FacePoint::C => {
                let centre = self.face.centre_offsets();
                Vertex::in_face(Axis::Z, self.square.at, centre.first, centre.second)
            }
        }
    }
}

// The heights at the corners of a pixel.
fn read_face<S: Source>(source: &S, level: Level, square: Square) -> Result<Face, Refusal>
    ensures answer { Outcome (corners_declined (S.Source.block source.now) level (pixel_corners square.at)) (HeightsOf (S.Source.block source.now) level square.at) result }
{
    let [g00, g10, g01, g11] = heights_at(source, level, &square.corners())?;
    Ok(Face { g00, g10, g01, g11 })
}

// The crossing of a side, by the heights at its ends.
fn crossing(border: (Side, Edge)) -> Vertex
    ensures answer { result ≡ on_edge border.0.axis border.0.point (along_edge border.1.low.value border.1.high.value) }
{
    let (side, edge) = border;
    Vertex::on_edge(side.axis, side.point, edge.offset())
}
