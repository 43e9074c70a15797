// Cuts every voxel of a few made-up blocks: what came out goes to standard output, how fast it went to standard error.
#![tactic(auto)]

ghost use Rattle.std.specs.Prelude.{◌<◌};

use block::lattice::{Point, Sizes};
use block::raster::Raster;
use block::refusal::Refusal;
use cell::level::Level;
use kind::kind::{Kind, Shape};
use std::time::Instant;
use std::{fmt, io};
use voxel::held::VoxelShape;
use voxel::voxel::Voxel;

const SIDE: u32 = 32;

const SAMPLES: usize = 32768;

// How often each block is cut, so that the clock has something to measure.
const ROUNDS: usize = 20;

// What the voxels of a block came to.
#[derive(Clone, Copy, Default)]
struct Tally {
    cells: usize,
    cut: usize,
    triangles: usize,
}

fn main(rt: HostRuntime) -> io::Result<()> {
    let mut samples = [0i16; SAMPLES];
    // Below the level everywhere.
    run(&rt, "empty", &mut samples, |_| 0)?;
    // A ball, as a casting is: most voxels are inside or outside.
    run(&rt, "smooth", &mut samples, |Point { x, y, z }| {
        144 - (off_centre(x) + off_centre(y) + off_centre(z)) as i16
    })?;
    // Every sample by chance.
    let mut seed: u32 = 1;
    run(&rt, "random", &mut samples, |_| {
        seed = seed.wrapping_mul(1103515245).wrapping_add(12345);
        (seed >> 17) as i16 - 16384
    })?;
    // Every voxel is cut across by a plane, with four crossings.
    run(&rt, "sheets", &mut samples, |p| (p.x % 2) as i16)?;
    // Every edge has a crossing, and every face its centre.
    run(
        &rt,
        "checkerboard",
        &mut samples,
        |Point { x, y, z }| ((x ^ y ^ z) % 2) as i16,
    )
}

// Fills a block, x fastest, then y, then z, and sweeps it.
fn run<F: FnMut(Point) -> i16>(
    rt: &HostRuntime,
    name: &str,
    samples: &mut [i16; SAMPLES],
    mut sample: F,
) -> io::Result<()>
    requires { F.IsAlwaysCallable sample }
{
    for (i, s) in samples.iter_mut().enumerate() {
        let i = i as u32;
        *s = sample(Point {
            x: i % SIDE,
            y: i / SIDE % SIDE,
            z: i / SIDE / SIDE,
        });
    }
    sweep(rt, name, samples)
}

// The square of how far a coordinate is from the middle of the block.
fn off_centre(x: u32) -> u32
    ensures small { result < 1024 }
{
    let d = x.abs_diff(SIDE / 2) % SIDE;
    d * d % (SIDE * SIDE)
}

// Cuts a block again and again, and tells what came out and how fast it went.
fn sweep(rt: &HostRuntime, name: &str, samples: &[i16]) -> io::Result<()> {
    let start = Instant::now(rt)?;
    let cut = cut_often(samples);
    let span = start.elapsed(rt)?;
    match cut {
        Some(tally) => report(rt, name, tally, span.as_nanos()),
        None => println!(rt; "{name} declined"),
    }
}

fn report(rt: &HostRuntime, name: &str, tally: Tally, nanos: u128) -> io::Result<()> {
    println!(rt; "{name} {tally}")?;
    let done = tally.cells as u128 * ROUNDS as u128;
    if done > 0 && nanos > 0 {
        let each = nanos / done;
        let rate = done * 1_000_000_000 / nanos;
        eprintln!(rt; "{name}: {rate} cells per second, {each} ns each")?;
    }
    Ok(())
}

// The refusal is let go: to keep it slows the voxels of an empty block.
fn cut_often(samples: &[i16]) -> Option<Tally> {
    let sizes = Sizes {
        x: SIDE,
        y: SIDE,
        z: SIDE,
    };
    let raster = Raster::new(sizes, samples).ok()?;
    let level = Level::new(1, 2).ok()?;
    let mut tally = None;
    for _ in 0..ROUNDS {
        tally = cut_all(&raster, level).ok();
    }
    tally
}

// Every voxel, x fastest, then y, then z.
fn cut_all(raster: &Raster, level: Level) -> Result<Tally, Refusal> {
    let mut tally = Tally::default();
    for z in 0..SIDE - 1 {
        for y in 0..SIDE - 1 {
            for x in 0..SIDE - 1 {
                tally = tally.with(&Voxel.read(raster, level, Point { x, y, z })?);
            }
        }
    }
    Ok(tally)
}

impl fmt::Display for Tally {
    fn fmt<W: fmt::Write>(&self, f: &mut fmt::Formatter<W>) -> fmt::Result {
        let Tally {
            cells,
            cut,
            triangles,
        } = self;
        write!(f, "cells {cells} cut {cut} triangles {triangles}")
    }
}

impl Tally {
    fn with(self, shape: &VoxelShape) -> Tally {
        let triangles = shape.pieces().len();
        Tally {
            cells: self.cells.saturating_add(1),
            cut: self.cut.saturating_add(usize::from(triangles > 0)),
            triangles: self.triangles.saturating_add(triangles),
        }
    }
}
