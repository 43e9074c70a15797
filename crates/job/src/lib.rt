// A job, as a buyer sends it: which cells to cut, at which level, of which block.
#![tactic(auto)]

ghost use Rattle.std.specs.Prelude.{◌≡◌, ◌^◌, ◌<◌};
ghost use Rattle.block.specs.Refusals.{Outcome};
ghost use Rattle.job.specs.Job.{Decodes, job_declined, job_kind, job_p, job_q, job_spare, twos_complement};

use block::bits::bits;
use block::packed::Packed;
use block::refusal::Refusal;

// The most bytes that a job has.
pub const LONGEST: usize = 1024;

#[derive(Clone, Copy, PartialEq, Eq, Debug)]
pub enum CellKind {
    // Unit squares in the planes of the block, cut into segments.
    Pixel,
    // Unit cubes, cut into triangles.
    Voxel,
}

// The level p / q is as the job has it: whoever cuts the cells sees whether it is within its limits.
#[derive(Clone, Copy)]
pub struct Job<'a> {
    pub kind: CellKind,
    pub p: i32,
    pub q: u32,
    pub block: Packed<'a>,
}

impl<'a> Job<'a> {
    pub fn decode(bytes: &'a [u8]) -> Result<Job<'a>, Refusal>
        ensures answer { Outcome (job_declined bytes.now) (Decodes bytes.now) result }
    {
        if bytes.len() > LONGEST {
            return Err(Refusal::Length);
        }
        // Each byte of the header by name, as the format has them.
        let [b0, b1, b2, b3, b4, rest @ ..] = bytes else {
            return Err(Refusal::Length);
        };
        let header = Header::decode(&[*b0, *b1, *b2, *b3, *b4]);
        // A block that is cut short counts before a spare bit of the job.
        let block = Packed::new(rest)?;
        if header.spare != 0 {
            return Err(Refusal::SpareBit);
        }
        Ok(Job {
            kind: header.kind,
            p: header.p,
            q: header.q,
            block,
        })
    }
}

#[derive(Clone, Copy)]
struct Header {
    kind: CellKind,
    p: i32,
    q: u32,
    spare: u32,
}

impl Header {
    fn decode(bytes: &[u8; 5]) -> Header
        ensures kind { result.kind ≡ job_kind bytes.now }
        ensures p { result.p ≡ job_p bytes.now }
        ensures q { result.q ≡ job_q bytes.now }
        ensures spare { result.spare ≡ job_spare bytes.now }
    {
        let kind = match bits(bytes, 0, 1) {
            1 => CellKind::Voxel,
            _ => CellKind::Pixel,
        };
        Header {
            kind,
            p: signed(bits(bytes, 1, 26)),
            q: bits(bytes, 27, 8) + 1,
            spare: bits(bytes, 35, 5),
        }
    }
}

// A number of 26 bits in two's complement. No type has so many bits, so the sign is taken off by hand.
fn signed(n: u32) -> i32
    requires { n < 2 ^ 26 }
    ensures answer { result ≡ twos_complement 26 n }
{
    if n < 1 << 25 {
        n as i32
    } else {
        n as i32 - (1 << 26)
    }
}
