// Where a pixel lies.
ghost use Rattle.std.specs.Prelude.{◌≡◌, ◌+◌, ◌^◌, ◌<◌, Some, None, if◌then◌else◌};
ghost use Rattle.std.specs.List.{slice_get};
ghost use Rattle.std.specs.Option.{option_map};
ghost use Rattle.pixel_theory.specs.Kind.{pixel_sides};
ghost use Rattle.pixel_theory.specs.Pixel.{is_pixel, pixel_corners};

use block::lattice::{Point, Sizes};
use cell::vertex::{Axis, Side};

pub fn is_pixel(sizes: Sizes, at: Point) -> bool
    ensures answer { result ≡ is_pixel sizes at }
{
    let opposite = Point { x: 1, y: 1, z: 0 };
    sizes.contains(at.plus(opposite))
}

// The unit square that is a pixel. A block has its corners, so their coordinates fit.
#[derive(Clone, Copy)]
pub(crate) struct Square {
    pub(crate) at: Point,
    ghost x_low: { at.x + 1 < 2 ^ 32 },
    ghost y_low: { at.y + 1 < 2 ^ 32 },
}

impl Square {
    // The pixel at a position, or nothing where no pixel is.
    pub(crate) fn new(sizes: Sizes, at: Point) -> Option<Square>
        ensures answer { option_map (λ s. s.at) result ≡ if is_pixel sizes at then Some at else None }
    {
        if is_pixel(sizes, at) {
            Some(Square { at })
        } else {
            None
        }
    }

    // In order: dx + 2 dy.
    pub(crate) fn corners(&self) -> [Point; 4]
        ensures answer { result ≡ pixel_corners self.now.at }
    {
        let Point { x, y, z } = self.at;
        [
            self.at,
            Point { x: x + 1, y, z },
            Point { x, y: y + 1, z },
            Point {
                x: x + 1,
                y: y + 1,
                z,
            },
        ]
    }

    // The edges in the order of the points P0 to P3.
    pub(crate) fn sides(&self) -> [Side; 4]
        ensures answer { result ≡ pixel_sides self.now.at }
    {
        let [low, next_x, next_y, _] = self.corners();
        [
            side(Axis::Y, low),
            side(Axis::Y, next_x),
            side(Axis::X, low),
            side(Axis::X, next_y),
        ]
    }
}

fn side(axis: Axis, point: Point) -> Side
    ensures answer { (result.axis ≡ axis) × (result.point ≡ point) }
{
    Side { axis, point }
}

// One of four by its place. By a match, since `get` writes all four to memory: the cuts of a pixel took twenty times as long.
#[inline(always)]
pub(crate) fn pick<T: Copy>(four: [T; 4], n: usize) -> Option<T>
    ensures answer { result ≡ slice_get four n }
{
    let [a, b, c, d] = four;
    match n {
        0 => Some(a),
        1 => Some(b),
        2 => Some(c),
        3 => Some(d),
        _ => None,
    }
}
