// A raster: a row of signed 16-bit samples, x fastest, then y, then z.
ghost use Rattle.std.specs.Prelude.{◌≡◌, length};

use crate::extent::Extent;
use crate::fault::{Cause, Fault};
use crate::lattice::{Point, Sizes};
use crate::refusal::Refusal;
use crate::source::Source;

#[derive(Clone, Copy)]
pub struct Raster<'a> {
    extent: Extent,
    samples: &'a [i16],
}

impl<'a> Raster<'a> {
    ghost use Rattle.block.specs.Raster.{raster_block, raster_told, raster_declined};
    ghost use Rattle.block.specs.Refusals.{Outcome};

    pub fn new(sizes: Sizes, samples: &'a [i16]) -> Result<Raster<'a>, Refusal>
        ensures answer { Outcome (raster_declined sizes (length samples.now)) (λ s. raster_told s ≡ raster_block sizes samples.now) result }
    {
        let extent = Extent::new(sizes).ok_or(Refusal::RasterSize)?;
        if samples.len() != extent.count() {
            return Err(Refusal::Length);
        }
        Ok(Raster { extent, samples })
    }
}

impl Source for Raster<'_> {
    ghost use Rattle.block.specs.Raster.{raster_told};
    ghost use Rattle.block.specs.Formed.{raster_formed};

    ghost block = { raster_told };

    ghost formed = { raster_formed };

    fn sizes(&self) -> Sizes {
        self.extent.sizes()
    }

    fn sample(&self, p: Point) -> Result<i32, Fault> {
        if !self.extent.contains(p) {
            return Err(Fault::new(Cause::Outside, p));
        }
        // Each point of the block has one, which `new` saw to.
        let v = self.samples.get(self.extent.index(p)).copied().unwrap_or(0);
        if v == i16::MIN {
            return Err(Fault::new(Cause::Missing, p));
        }
        Ok(i32::from(v))
    }
}
