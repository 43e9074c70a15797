// The kind of pixels.
ghost use Rattle.std.specs.Prelude.{◌≡◌, map, refl};
ghost use Rattle.pixel.specs.Contour.{shape_points, shape_parts, contour_borders};
ghost use Rattle.pixel.specs.PixelLaws.{pixel_laws};
ghost use Rattle.pixel_theory.specs.Kind.{pixel};

use crate::contour::Contour;
pub use crate::contour::PixelShape;
use crate::square::{Square, is_pixel, pick};
use block::lattice::{Point, Sizes};
use block::refusal::Refusal;
use block::source::Source;
use cell::level::Level;
use cell::vertex::{Side, Vertex};
use kind::joint::Joint;
use kind::kind::{Kind, Shape};
use kind::segment::Segment;

#[derive(Clone, Copy)]
pub struct Pixel;

impl Shape<Segment> for PixelShape {
    ghost points = { shape_points };

    ghost parts = { shape_parts };

    ghost borders = { λ s. contour_borders s.contour };

    fn vertices(&self) -> &[Vertex] {
        let n = self.contour.vertex_count();
        &self.vertices[0..n]
    }

    fn pieces(&self) -> &[Segment] {
        self.contour.segments()
    }

    fn side(&self, n: usize) -> Option<Side> {
        self.contour.side(n)
    }

    fn cut(&self, side: usize, n: usize) -> Option<Joint> {
        self.contour.cut_of(side, n)
    }
}

impl Kind for Pixel {
    type Piece = Segment;

    type Shape = PixelShape;

    ghost meaning = { pixel };

    ghost laws = { pixel_laws };

    ghost arity = { refl };

    fn is_cell(&self, sizes: Sizes, at: Point) -> bool {
        is_pixel(sizes, at)
    }

    fn corner(&self, sizes: Sizes, at: Point, n: usize) -> Option<Point> {
        pick(Square::new(sizes, at)?.corners(), n)
    }

    fn read<S: Source>(&self, source: &S, level: Level, at: Point) -> Result<PixelShape, Refusal> {
        let contour = Contour::read(source, level, at)?;
        Ok(PixelShape {
            contour,
            vertices: contour.vertices(),
        })
    }
}
