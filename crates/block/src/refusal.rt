// Why a call is declined.
ghost use Rattle.std.specs.Prelude.{◌≡◌, Some};
ghost use Rattle.block.specs.Refusals.{told, text_of};
ghost use Rattle.block.specs.declared.refusal.Refusal.TheVariants.{Faulty as AFaulty};

use crate::fault::Fault;
use crate::lattice::Point;
use std::error::Error;
use std::fmt;

#[derive(Clone, Copy, PartialEq, Eq, Debug)]
pub enum Refusal {
    // A raster size is 0 or above 1,024.
    RasterSize,
    // The samples or bytes are not as many as the sizes and the width demand, or a header is cut short.
    Length,
    // A spare bit, or a bit after the last sample, is not zero.
    SpareBit,
    // A window has a size 0 or a point outside the block below.
    Window,
    // The level passes its limits.
    Level,
    // The position is no cell of the block.
    NoCell,
    // The first corner that does not serve answers this fault.
    Faulty(Fault),
    // The first corner that does not serve, this one, meets the level.
    OnLevel(Point),
}

impl Refusal {
    // A variant that carries a value has no number of its own to be read, so all stand here.
    pub fn number(&self) -> u8
        ensures answer { result ≡ (told self.now).number }
    {
        match self {
            Refusal::RasterSize => 1,
            Refusal::Length => 2,
            Refusal::SpareBit => 3,
            Refusal::Window => 4,
            Refusal::Level => 5,
            Refusal::NoCell => 7,
            Refusal::Faulty(_) => 10,
            Refusal::OnLevel(_) => 11,
        }
    }
}

impl fmt::Display for Refusal {
    ghost output = { λ r. Some (text_of r) };

    fn fmt<W: fmt::Write>(&self, f: &mut fmt::Formatter<W>) -> fmt::Result {
        let number = self.number();
        write!(f, "declined {number}")
    }
}

impl Error for Refusal {}

impl From<Fault> for Refusal {
    ghost from_gives = { λ f r. r ≡ AFaulty f };

    fn from(f: Fault) -> Refusal {
        Refusal::Faulty(f)
    }
}
