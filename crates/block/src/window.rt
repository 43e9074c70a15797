// A window: a part of another source's block, with an origin and sizes of its own.
ghost use Rattle.std.specs.Prelude.{◌≡◌, Some, None, MatchResult};
ghost use Rattle.block.specs.Formed.{window_formed};
ghost use Rattle.block.specs.Refusals.{told};
ghost use Rattle.block.specs.Window.{window_block, window_told, lies_within, window_declined};

use crate::extent::Extent;
use crate::fault::{Cause, Fault};
use crate::lattice::{Point, Sizes};
use crate::refusal::Refusal;
use crate::source::Source;

#[derive(Drop)]
pub struct Window<S> {
    below: S,
    origin: Point,
    extent: Extent,
}

// A window that was refused, with the source that it would have lain over.
#[derive(Drop)]
pub struct NoWindow<S> {
    pub refusal: Refusal,
    pub below: S,
}

impl<S: Source> Window<S> {
    pub fn new(below: S, origin: Point, sizes: Sizes) -> Result<Window<S>, NoWindow<S>>
        ensures answer { MatchResult result
            (λ w. (window_declined (S.Source.block below).sizes origin sizes ≡ None)
            × (window_told S.Source.block w ≡ window_block origin (S.Source.block below) sizes))
            (λ e. (window_declined (S.Source.block below).sizes origin sizes ≡ Some (told e.refusal)) × (e.below ≡ below)) }
    {
        let n = below.sizes();
        if !reaches(origin.x, sizes.x, n.x)
            || !reaches(origin.y, sizes.y, n.y)
            || !reaches(origin.z, sizes.z, n.z)
        {
            return Err(NoWindow {
                refusal: Refusal::Window,
                below,
            });
        }
        Ok(Window {
            below,
            origin,
            // Sizes within those of a block are in its limits.
            extent: Extent::new(sizes).unwrap(),
        })
    }
}

// Whether a window lies within the block below, along one axis.
fn reaches(origin: u32, size: u32, below: u32) -> bool
    ensures answer { result ≡ lies_within origin size below }
{
    1 <= size && origin.checked_add(size).is_some_and(|end| end <= below)
}

impl<S: Source> Source for Window<S> {
    ghost block = { window_told S.Source.block };

    ghost formed = { window_formed S.Source.block };

    fn sizes(&self) -> Sizes {
        self.extent.sizes()
    }

    fn sample(&self, p: Point) -> Result<i32, Fault> {
        if !self.extent.contains(p) {
            return Err(Fault::new(Cause::Outside, p));
        }
        self.below
            .sample(self.origin.plus(p))
            .map_err(Fault::raised)
    }
}
