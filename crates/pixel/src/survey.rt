// What the contours of a whole block come to.
ghost use Rattle.block.specs.Refusals.{Outcome};
ghost use Rattle.pixel.specs.Pixels.{pixel_count, contours_declined};
ghost use Rattle.pixel.specs.Surveys.{Surveyed};

use crate::contour::Contour;
use crate::pixels::Pixels;
use block::refusal::Refusal;
use block::source::Source;
use cell::level::Level;

#[derive(Clone, Copy)]
pub struct Survey {
    pub planes: u32,
    pub pixels: usize,
    pub segments: usize,
}

impl Survey {
    // Reads every pixel of a block, in order, and counts; the first that cannot be read decides.
    pub fn of<S: Source>(source: &S, level: Level) -> Result<Survey, Refusal>
        ensures answer { Outcome (contours_declined (S.Source.block source.now) level (pixel_count (S.Source.block source.now).sizes)) (Surveyed (S.Source.block source.now) level) result }
    {
        let pixels = Pixels::of(source);
        let mut segments = 0;
        for at in pixels.iter() {
            segments += Contour::read(source, level, at)?.cut.count();
        }
        Ok(Survey {
            planes: source.sizes().z,
            pixels: pixels.count(),
            segments,
        })
    }
}
