// Sizes that every block may have.
ghost use Rattle.std.specs.Prelude.{◌≡◌, ◌^◌, ◌<◌, ◌≤◌, true, false, MatchOption};
ghost use Rattle.block.specs.Lattice.{allowed, all_allowed, inside, count, index};

use crate::lattice::{Point, Sizes};

const LONGEST: u32 = 1024;

// Three sizes from 1 to 1,024. Each is held less one and read as ten bits, so that no value of the type is out of limits.
// A ghost field would say so too, but callers who hold a source beside a `&mut` would have no proof then.
#[derive(Clone, Copy)]
pub(crate) struct Extent {
    x: u16,
    y: u16,
    z: u16,
}

impl Extent {
    ghost use Rattle.block.specs.Extent.{sizes_of};

    pub(crate) fn new(sizes: Sizes) -> Option<Extent>
        ensures answer { MatchOption result (all_allowed sizes ≡ false) (λ e. (all_allowed sizes ≡ true) × (sizes_of e ≡ sizes)) }
    {
        if is_allowed(sizes.x) && is_allowed(sizes.y) && is_allowed(sizes.z) {
            Some(Extent {
                x: (sizes.x - 1) as u16,
                y: (sizes.y - 1) as u16,
                z: (sizes.z - 1) as u16,
            })
        } else {
            None
        }
    }

    pub(crate) fn sizes(&self) -> Sizes
        ensures answer { result ≡ sizes_of self.now }
    {
        Sizes {
            x: u32::from(self.x) % LONGEST + 1,
            y: u32::from(self.y) % LONGEST + 1,
            z: u32::from(self.z) % LONGEST + 1,
        }
    }

    // Each source answers the fault of a point outside by itself: a `Result` from here made a sample slower by half.
    pub(crate) fn contains(&self, p: Point) -> bool
        ensures answer { result ≡ inside (sizes_of self.now) p }
    {
        self.sizes().contains(p)
    }

    // How many points there are.
    pub(crate) fn count(&self) -> usize
        ensures answer { result ≡ count (sizes_of self.now) }
        ensures small { result ≤ 2 ^ 30 }
    {
        let n = self.sizes();
        n.x as usize * (n.y as usize * n.z as usize)
    }

    // The place of a point among the samples.
    pub(crate) fn index(&self, p: Point) -> usize
        requires { inside (sizes_of self.now) p ≡ true }
        ensures answer { result ≡ index (sizes_of self.now) p }
        ensures below { result < count (sizes_of self.now) }
        ensures small { result < 2 ^ 30 }
    {
        let n = self.sizes();
        p.x as usize + n.x as usize * (p.y as usize + n.y as usize * p.z as usize)
    }
}

fn is_allowed(n: u32) -> bool
    ensures answer { result ≡ allowed n }
{
    (1..=LONGEST).contains(&n)
}
