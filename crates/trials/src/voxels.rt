use crate::common::{point, refusal, sizes};
use block::fault::{Cause, Fault};
use block::lattice::Point;
use block::raster::Raster;
use block::refusal::Refusal;
use cell::level::Level;
use kind::kind::{Kind, Shape};
use voxel::voxel::Voxel;

const LOWEST: Point = Point { x: 0, y: 0, z: 0 };

// The vertices and triangles of the voxel at a point of a block of 2, 2, 2, at level p / q.
fn counts(samples: &[i16; 8], p: i32, q: u32, at: Point) -> Result<(usize, usize), Refusal> {
    let raster = Raster::new(sizes(2, 2, 2), samples)?;
    let shape = Voxel.read(&raster, Level::new(p, q)?, at)?;
    Ok((shape.vertices().len(), shape.pieces().len()))
}

#[test]
fn counts_of_voxels(rt: HostRuntime) {
    assert_eq!(rt; counts(&[0, 0, 0, 0, 0, 0, 0, 0], 1, 2, LOWEST), Ok((0, 0)));
    assert_eq!(rt; counts(&[1, 0, 0, 0, 0, 0, 0, 0], 1, 2, LOWEST), Ok((3, 1)));
    assert_eq!(rt; counts(&[1, 1, 1, 1, 0, 0, 0, 0], 1, 2, LOWEST), Ok((4, 2)));
    assert_eq!(rt;
        counts(&[1, 0, 0, 1, 0, 1, 1, 0], 1, 2, LOWEST),
        Ok((18, 18))
    );
}

#[test]
fn past_the_last_voxel(rt: HostRuntime) {
    let samples = [1, 0, 0, 0, 0, 0, 0, 0];
    assert_eq!(rt; refusal(counts(&samples, 1, 2, point(1, 0, 0))), Some(7));
    assert_eq!(rt; refusal(counts(&samples, 1, 2, point(0, 1, 0))), Some(7));
    assert_eq!(rt; refusal(counts(&samples, 1, 2, point(0, 0, 1))), Some(7));
    assert_eq!(rt;
        refusal(counts(&samples, 1, 2, point(4294967295, 0, 0))),
        Some(7)
    );
}

fn missing(x: u32, y: u32, z: u32) -> Refusal {
    Refusal::Faulty(Fault::new(Cause::Missing, point(x, y, z)))
}

fn on_level(x: u32, y: u32, z: u32) -> Refusal {
    Refusal::OnLevel(point(x, y, z))
}

// The lowest-numbered corner that does not serve decides.
#[test]
fn deciding_corners(rt: HostRuntime) {
    for (samples, number, decided) in [
        ([1, 1, 1, 1, 1, 1, 1, 0], 11, on_level(1, 1, 1)),
        ([1, 1, 1, 1, 1, 1, 1, -32768], 10, missing(1, 1, 1)),
        ([1, 1, 0, 1, -32768, 1, 1, 1], 11, on_level(0, 1, 0)),
        ([1, -32768, 1, 1, 0, 1, 1, 1], 10, missing(1, 0, 0)),
        ([1, 1, 1, 1, -32768, 0, 1, 1], 10, missing(0, 0, 1)),
    ] {
        assert_eq!(rt; counts(&samples, 0, 1, LOWEST), Err(decided));
        assert_eq!(rt; decided.number(), number);
    }
}
