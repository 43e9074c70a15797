// Traces the contours of a scanned slice: a job on standard input, its segments on standard output.
#![tactic(auto)]

use block::packed::Packed;
use block::refusal::Refusal;
use cell::level::Level;
use cell::vertex::Vertex;
use job::Job;
use kind::kind::{Kind, Shape};
use kind::segment::Segment;
use pixel::pixels::Pixels;
use pixel::shape::{Pixel, PixelShape};
use pixel::survey::Survey;
use std::io;
use std::io::Read;

// One byte more than a job has, so that a longer input is seen to be longer.
const ROOM: usize = job::LONGEST + 1;

// Why a run ends early.
enum Stop {
    Declined(Refusal),
    Failed(io::Error),
}

impl From<Refusal> for Stop {
    fn from(refusal: Refusal) -> Stop {
        Stop::Declined(refusal)
    }
}

impl From<io::Error> for Stop {
    fn from(error: io::Error) -> Stop {
        Stop::Failed(error)
    }
}

fn main(rt: HostRuntime) -> io::Result<()> {
    let mut buffer = [0u8; ROOM];
    let mut input = rt.stdin().take(ROOM as u64);
    // No clause of `copy` bounds its count. An `ArrayVec` would keep it, but nothing else here stands on a ported crate.
    let length = (io::copy(&mut input, &mut &mut buffer[..])? as usize).min(ROOM);
    match outline(&rt, &buffer[..length]) {
        Ok(()) => Ok(()),
        Err(Stop::Declined(refusal)) => println!(rt; "{refusal}"),
        Err(Stop::Failed(error)) => Err(error),
    }
}

// Nothing is printed before the whole block was surveyed, since a refusal prints nothing else.
fn outline(rt: &HostRuntime, bytes: &[u8]) -> Result<(), Stop> {
    let job = Job::decode(bytes)?;
    let level = Level::new(job.p, job.q)?;
    let Survey {
        planes,
        pixels,
        segments,
    } = Survey::of(&job.block, level)?;
    print_segments(rt, &job.block, level)?;
    println!(rt; "planes {planes} pixels {pixels} segments {segments}")?;
    Ok(())
}

fn print_segments(rt: &HostRuntime, block: &Packed, level: Level) -> Result<(), Stop> {
    for at in Pixels::of(block).iter() {
        print_pixel(rt, &Pixel.read(block, level, at)?)?;
    }
    Ok(())
}

fn print_pixel(rt: &HostRuntime, shape: &PixelShape) -> io::Result<()> {
    for piece in shape.pieces() {
        if let Some((from, to)) = ends(shape, piece) {
            println!(rt; "s {from}, {to}")?;
        }
    }
    Ok(())
}

fn ends(shape: &PixelShape, piece: &Segment) -> Option<(Vertex, Vertex)> {
    Some((end(shape, piece.from)?, end(shape, piece.to)?))
}

// The vertex with a number, counted from 1.
fn end(shape: &PixelShape, number: usize) -> Option<Vertex> {
    shape.vertices().get(number.checked_sub(1)?).copied()
}
