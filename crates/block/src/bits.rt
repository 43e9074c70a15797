// Bit fields in a row of bytes, the most significant bit first.
ghost use Rattle.std.specs.Prelude.{◌≡◌, ◌^◌, ◌<◌, ◌≤◌, [], ◌∷◌, ◌++◌, min, slice_index};
ghost use Rattle.block.specs.Bits.{field, five, number_of};

// A word holds the five bytes that 32 bits can lie in.
const WORD: u32 = 40;

// The number in the bits from `start` on: the first 32, where `width` is more. Bits past the end are zero.
pub fn bits(bytes: &[u8], start: usize, width: u32) -> u32
    ensures answer { result ≡ field bytes.now start (min width 32) }
    ensures bound { result < 2 ^ min width 32 }
{
    cut_out(bytes, start, width.min(32))
}

// The same, of a width that is known to be no more.
pub(crate) fn cut_out(bytes: &[u8], start: usize, width: u32) -> u32
    requires { width ≤ 32 }
    ensures answer { result ≡ field bytes.now start width }
    ensures bound { result < 2 ^ width }
{
    let behind = WORD - (start % 8) as u32 - width;
    let ones = (1u64 << width) - 1;
    ((word(bytes, start / 8) >> behind) & ones) as u32
}

// The five bytes from `at` on, as one number. Nearly always all five are there, and then one test serves them.
fn word(bytes: &[u8], at: usize) -> u64
    requires { at < 2 ^ 62 }
    ensures answer { result ≡ number_of (five bytes.now at) }
{
    match bytes.get(at..at + 5) {
        Some([a, b, c, d, e]) => joined([*a, *b, *c, *d], *e),
        _ => joined(
            [
                byte(bytes, at),
                byte(bytes, at + 1),
                byte(bytes, at + 2),
                byte(bytes, at + 3),
            ],
            byte(bytes, at + 4),
        ),
    }
}

// Four bytes and one more, as one number.
fn joined(first: [u8; 4], last: u8) -> u64
    ensures answer { result ≡ number_of (first ++ (last ∷ [])) }
{
    u64::from(u32::from_be_bytes(first)) * 256 + u64::from(last)
}

fn byte(bytes: &[u8], at: usize) -> u8
    ensures answer { result ≡ slice_index bytes.now at }
{
    bytes.get(at).copied().unwrap_or(0)
}
