// A level, and the height of a point above it.
ghost use Rattle.std.specs.Prelude.{◌≡◌, ◌^◌, ◌≤◌, true, pos, unsigned_abs};
ghost use Rattle.cell.specs.Level.{most_sample, height as height_of, on_level, level_allowed, level_declined, height_rule};
ghost use Rattle.block.specs.Refusals.{Outcome};
ghost use Rattle.std.specs.Option.{option_map};

use block::refusal::Refusal;

// The greatest size of p, the greatest q and the greatest size of a sample: within them every height is at most 2^25 in size.
const MOST_P: u32 = 16_777_216;

const MOST_Q: u32 = 256;

const MOST_SAMPLE: u32 = 65_536;

// A level p/q within its limits.
#[derive(Clone, Copy)]
pub struct Level {
    p: i32,
    q: u32,
    ghost allowed: { level_allowed p q ≡ true },
}

// The height G of a point above the level: q times its sample, less p.
#[derive(Clone, Copy)]
pub struct Height {
    value: i32,
    ghost small: { unsigned_abs value ≤ 2 ^ 25 },
}

impl Level {
    pub fn new(p: i32, q: u32) -> Result<Level, Refusal>
        ensures answer { Outcome (level_declined p q) (λ l. (l.p ≡ p) × (l.q ≡ q)) result }
    {
        if p.unsigned_abs() > MOST_P || q < 1 || q > MOST_Q {
            Err(Refusal::Level)
        } else {
            Ok(Level { p, q })
        }
    }

    // The height of a point with this sample, or nothing if the sample is beyond its limit.
    pub fn height(&self, sample: i32) -> Option<Height>
        ensures answer { option_map (λ h. h.value) result ≡ height_rule self.now.p self.now.q sample }
    {
        if sample.unsigned_abs() > MOST_SAMPLE {
            None
        } else {
            Some(self.height_within(sample))
        }
    }

    // The limits are there for this: 32 bits hold the product and the difference.
    fn height_within(&self, sample: i32) -> Height
        requires within { unsigned_abs sample ≤ most_sample }
        ensures answer { result.value ≡ height_of self.now.p self.now.q sample }
    {
        Height {
            value: self.q as i32 * sample - self.p,
        }
    }
}

impl Height {
    // That of a point which the level meets.
    pub(crate) fn level() -> Height
        ensures answer { result.value ≡ pos 0 }
    {
        Height { value: 0 }
    }

    pub fn value(&self) -> i32
        ensures answer { result ≡ self.now.value }
    {
        self.value
    }

    // How far the point is from the level, on either side of it.
    pub(crate) fn size(&self) -> u32
        ensures answer { result ≡ unsigned_abs self.now.value }
        ensures small { result ≤ 2 ^ 25 }
    {
        i32::unsigned_abs(self.value)
    }

    // Whether the level meets the point.
    pub fn is_on_level(&self) -> bool
        ensures answer { result ≡ on_level self.now.value }
    {
        0 == self.value
    }
}
