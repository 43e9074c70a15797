// The trait by which a source tells its block.
ghost use Rattle.std.specs.Prelude.{◌≡◌};
ghost use Rattle.block.specs.Block.{Block, WellFormed, InRange};

use crate::fault::Fault;
use crate::lattice::{Point, Sizes};

// A source means a block and answers what stands there; a question changes nothing.
pub trait Source {
    ghost block: { Self → Block };

    // The proof that every source of this type means such a block.
    ghost formed: { (s : Self) → WellFormed (block s) };

    fn sizes(&self) -> Sizes
        ensures answer { result ≡ (block self.now).sizes };

    fn sample(&self, p: Point) -> Result<i32, Fault>
        ensures answer { result ≡ (block self.now).at p }
        ensures range { InRange result };
}

// A source that is lent means what it means itself.
impl<S: Source> Source for &S {
    ghost block = { λ s. S.Source.block s.now };

    ghost formed = { λ s. S.Source.formed s.now };

    fn sizes(&self) -> Sizes {
        (**self).sizes()
    }

    fn sample(&self, p: Point) -> Result<i32, Fault> {
        (**self).sample(p)
    }
}
