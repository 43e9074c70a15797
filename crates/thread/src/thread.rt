// The kind itself.
ghost use Rattle.std.specs.Prelude.{◌≡◌, ◌+◌, ◌^◌, ◌<◌, [], ◌∷◌, refl};
ghost use Rattle.thread.specs.Held.{held_borders};
ghost use Rattle.thread.specs.Thread.{thread, is_bead, knot, after};
ghost use Rattle.thread.specs.ThreadLaws.{thread_laws};

use crate::bead::Bead;
use block::lattice::{Point, Sizes};
use block::refusal::Refusal;
use block::source::Source;
use cell::corner::heights_at;
use cell::crossing::Offset;
use cell::level::Level;
use cell::vertex::{Axis, Place, Side, Vertex};
use kind::joint::Joint;
use kind::kind::{Kind, Shape};
use kind::segment::Segment;

#[derive(Clone, Copy)]
pub struct Thread;

// The step from a point to the next.
const NEXT: Point = Point { x: 1, y: 0, z: 0 };

impl Shape<Segment> for Bead {
    ghost points = { λ b. b.knots };

    ghost parts = { λ b. b.segment };

    ghost borders = { held_borders };

    fn vertices(&self) -> &[Vertex] {
        &self.knots
    }

    fn pieces(&self) -> &[Segment] {
        &self.segment
    }

    fn side(&self, n: usize) -> Option<Side> {
        let end = self.ends.get(n)?;
        Some(Side {
            axis: Axis::X,
            point: *end,
        })
    }

    fn cut(&self, side: usize, n: usize) -> Option<Joint> {
        let end = self.ends.get(side)?;
        if n != 0 {
            return None;
        }
        Some(Joint {
            first: Place::in_face(Axis::X, *end),
            second: None,
        })
    }
}

fn tie(point: Point) -> Vertex
    ensures answer { result ≡ knot point }
{
    Vertex::in_face(Axis::X, point, Offset::default(), Offset::default())
}

pub fn is_bead(sizes: Sizes, at: Point) -> bool
    ensures answer { result ≡ is_bead sizes at }
{
    sizes.contains(at.plus(NEXT))
}

// A bead's corners.
fn ends(at: Point) -> [Point; 2]
    requires { at.x + 1 < 2 ^ 32 }
    ensures answer { result ≡ at ∷ after at ∷ [] }
{
    [at, at.plus(NEXT)]
}

impl Kind for Thread {
    type Piece = Segment;

    type Shape = Bead;

    ghost meaning = { thread };

    ghost laws = { thread_laws };

    ghost arity = { refl };

    fn is_cell(&self, sizes: Sizes, at: Point) -> bool {
        is_bead(sizes, at)
    }

    fn corner(&self, sizes: Sizes, at: Point, n: usize) -> Option<Point> {
        if !is_bead(sizes, at) {
            return None;
        }
        let [first, second] = ends(at);
        match n {
            0 => Some(first),
            1 => Some(second),
            _ => None,
        }
    }

    fn read<S: Source>(&self, source: &S, level: Level, at: Point) -> Result<Bead, Refusal> {
        if !is_bead(source.sizes(), at) {
            return Err(Refusal::NoCell);
        }
        let ends = ends(at);
        heights_at(source, level, &ends)?;
        Ok(Bead {
            ends,
            knots: ends.map(tie),
            segment: [Segment { from: 1, to: 2 }],
        })
    }
}
