// A packed block: a header of five bytes, then unsigned samples of one width without gaps, the most significant bit first.
ghost use Rattle.std.specs.Prelude.{◌≡◌, ◌*◌, ◌^◌, ◌<◌, ◌≤◌, pos, ◌≤ℤ◌};
ghost use Rattle.block.specs.Bits.{field};
ghost use Rattle.block.specs.Block.{lowest, highest};

use crate::bits::{bits, cut_out};
use crate::extent::Extent;
use crate::fault::{Cause, Fault};
use crate::lattice::{Point, Sizes};
use crate::refusal::Refusal;
use crate::source::Source;

// The width is held less one and read as four bits, so that it is always from 1 to 16; `Extent` says why by no ghost field.
#[derive(Clone, Copy)]
pub struct Packed<'a> {
    extent: Extent,
    width_less_one: u8,
    samples: &'a [u8],
}

impl<'a> Packed<'a> {
    ghost use Rattle.block.specs.Packed.{packed_told, block_of_bytes, packed_declined};
    ghost use Rattle.block.specs.Refusals.{Outcome};

    pub fn new(bytes: &'a [u8]) -> Result<Packed<'a>, Refusal>
        ensures answer { Outcome (packed_declined bytes.now) (λ s. packed_told s ≡ block_of_bytes bytes.now) result }
    {
        // Each byte of the header by name, as the format has them.
        let [b0, b1, b2, b3, b4, samples @ ..] = bytes else {
            return Err(Refusal::Length);
        };
        let header = Header::decode(&[*b0, *b1, *b2, *b3, *b4]);
        header.check(samples)?;
        Ok(Packed {
            extent: header.extent,
            width_less_one: (header.width - 1) as u8,
            samples,
        })
    }
}

impl Source for Packed<'_> {
    ghost use Rattle.block.specs.Formed.{packed_formed};
    ghost use Rattle.block.specs.Packed.{packed_told};

    ghost block = { packed_told };

    ghost formed = { packed_formed };

    fn sizes(&self) -> Sizes {
        self.extent.sizes()
    }

    fn sample(&self, p: Point) -> Result<i32, Fault> {
        if !self.extent.contains(p) {
            return Err(Fault::new(Cause::Outside, p));
        }
        let width = u32::from(self.width_less_one) % 16 + 1;
        Ok(read(self.samples, width, self.extent.index(p)))
    }
}

// The sample at a place, by its bit position: samples before it are not looked at.
fn read(samples: &[u8], width: u32, i: usize) -> i32
    requires width { width ≤ 16 }
    requires index { i < 2 ^ 30 }
    ensures answer { result ≡ pos (field samples.now (i * width) width) }
    ensures range { (lowest ≤ℤ result) × (result ≤ℤ highest) }
{
    cut_out(samples, i * width as usize, width) as i32
}

// The three facts of a header.
#[derive(Clone, Copy)]
struct Header {
    extent: Extent,
    width: u32,
    spare: u32,
    ghost width_fits: { (1 ≤ width) × (width ≤ 16) },
}

impl Header {
    ghost use Rattle.block.specs.Extent.{sizes_of};
    ghost use Rattle.block.specs.Lattice.{count};
    ghost use Rattle.block.specs.Packed.{header_width, header_sizes, header_spare, samples_declined};
    ghost use Rattle.block.specs.Refusals.{Outcome};

    fn decode(bytes: &[u8; 5]) -> Header
        ensures sizes { sizes_of result.extent ≡ header_sizes bytes.now }
        ensures width { result.width ≡ header_width bytes.now }
        ensures spare { result.spare ≡ header_spare bytes.now }
    {
        let sizes = Sizes {
            x: bits(bytes, 4, 10) + 1,
            y: bits(bytes, 14, 10) + 1,
            z: bits(bytes, 24, 10) + 1,
        };
        Header {
            // Ten bits and one are from 1 to 1,024.
            extent: Extent::new(sizes).unwrap(),
            width: bits(bytes, 0, 4) + 1,
            spare: bits(bytes, 34, 6),
        }
    }

    // Whether the sample part is as long as it has to be, with every spare bit zero.
    fn check(&self, samples: &[u8]) -> Result<(), Refusal>
        ensures answer { Outcome (samples_declined self.now.spare (count (sizes_of self.now.extent) * self.now.width) samples.now) (λ _. Unit {0}) result }
    {
        let used = self.extent.count() * self.width as usize;
        if samples.len() != used.div_ceil(8) {
            return Err(Refusal::Length);
        }
        let unused = 8 * samples.len() - used;
        if self.spare != 0 || bits(samples, used, unused as u32) != 0 {
            return Err(Refusal::SpareBit);
        }
        Ok(())
    }
}
