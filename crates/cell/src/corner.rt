// The heights at the corners of a cell.
ghost use Rattle.std.specs.Prelude.{◌≡◌};
ghost use Rattle.block.specs.Refusals.{Outcome};
ghost use Rattle.cell.specs.Corner.{corner_declined, corner_height, corners_declined, HeightsAt};

use crate::level::{Height, Level};
use block::lattice::Point;
use block::refusal::Refusal;
use block::source::Source;

// The height at a lattice point, unless the point answers a fault or meets the level.
pub fn height_at<S: Source>(source: &S, level: Level, at: Point) -> Result<Height, Refusal>
    ensures answer { Outcome (corner_declined (S.Source.block source.now) level at) (λ h. h.value ≡ corner_height (S.Source.block source.now) level at) result }
{
    let sample = source.sample(at)?;
    let Some(height) = level.height(sample) else {
        // A source tells no sample beyond the limits.
        unreachable()
    };
    if height.is_on_level() {
        return Err(Refusal::OnLevel(at));
    }
    Ok(height)
}

// The heights at the corners of a cell, each read once, in order; the first that answers a fault or meets the level decides.
pub fn heights_at<S: Source, const N: usize>(
    source: &S,
    level: Level,
    corners: &[Point; N],
) -> Result<[Height; N], Refusal>
    ensures answer { Outcome (corners_declined (S.Source.block source.now) level corners.now) (HeightsAt (S.Source.block source.now) level corners.now) result }
{
    let mut heights = [Height::level(); N];
    for (i, corner) in corners.iter().enumerate() {
        heights[i] = height_at(source, level, *corner)?;
    }
    Ok(heights)
}
