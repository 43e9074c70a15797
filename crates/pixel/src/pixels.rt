// All pixels of a block, in order.
ghost use Rattle.std.specs.Prelude.{◌≡◌, ◌-◌, ◌<◌, true};
ghost use Rattle.block.specs.Lattice.{all_allowed};

use block::lattice::{Point, Sizes};
use block::source::Source;

// The pixels of a block of these sizes: x fastest, then y, then z.
#[derive(Clone, Copy)]
pub struct Pixels {
    sizes: Sizes,
    ghost allowed: { all_allowed sizes ≡ true },
}

impl Pixels {
    ghost use Rattle.pixel.specs.Pixels.{pixel_count, pixel_numbered, pixel_at, all_pixels, pixels_left};

    pub fn of<S: Source>(source: &S) -> Pixels
        ensures answer { result.sizes ≡ (S.Source.block source.now).sizes }
    {
        Pixels {
            sizes: source.sizes(),
        }
    }

    pub fn count(&self) -> usize
        ensures answer { result ≡ pixel_count self.now.sizes }
    {
        self.across() * (self.down() * self.sizes.z as usize)
    }

    // The pixel with a number, counted from 0, or nothing past the last.
    pub fn at(&self, i: usize) -> Option<Point>
        ensures answer { result ≡ pixel_at self.now.sizes i }
    {
        if i < self.count() {
            Some(self.numbered(i))
        } else {
            None
        }
    }

    pub fn iter(&self) -> Iter
        ensures answer { pixels_left result ≡ all_pixels self.now.sizes }
    {
        Iter {
            pixels: *self,
            next: 0,
        }
    }

    // How many columns and rows of pixels a plane has.
    fn across(&self) -> usize
        ensures answer { result ≡ self.now.sizes.x - 1 }
        ensures small { result < 1024 }
    {
        self.sizes.x as usize - 1
    }

    fn down(&self) -> usize
        ensures answer { result ≡ self.now.sizes.y - 1 }
        ensures small { result < 1024 }
    {
        self.sizes.y as usize - 1
    }

    fn numbered(&self, i: usize) -> Point
        requires { i < pixel_count self.now.sizes }
        ensures answer { result ≡ pixel_numbered self.now.sizes i }
    {
        let across = self.across();
        let down = self.down();
        Point {
            x: (i % across) as u32,
            y: (i / across % down) as u32,
            z: (i / across / down) as u32,
        }
    }
}

// The pixels that are still to come, in order.
#[derive(Clone, Copy)]
pub struct Iter {
    pixels: Pixels,
    next: usize,
}

impl Iterator for Iter {
    ghost use Rattle.std.specs.Iterator.{YieldsFirst, item_count};
    ghost use Rattle.pixel.specs.Pixels.{pixels_left};

    type Item = Point;

    ghost next_gives = { YieldsFirst pixels_left };

    ghost remaining = { item_count pixels_left };

    fn next(&mut self) -> Option<Point> {
        let at = self.pixels.at(self.next)?;
        self.next += 1;
        Some(at)
    }
}
