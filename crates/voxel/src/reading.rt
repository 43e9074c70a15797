// Which positions are voxels, and where their corners lie.
ghost use Rattle.std.specs.Prelude.{◌≡◌, ◌<◌};
ghost use Rattle.voxel_theory.specs.Voxel.{corners, is_voxel};
ghost use Rattle.voxel.specs.Local.{corner_at};
ghost use Rattle.voxel.specs.Reading.{Near};

use block::lattice::{Point, Sizes};
use shell::CORNERS;

// The step from a voxel's lowest corner to its last.
const LAST: Point = Point { x: 1, y: 1, z: 1 };

pub fn is_voxel(sizes: Sizes, at: Point) -> bool
    ensures answer { result ≡ is_voxel sizes at }
{
    sizes.contains(at.plus(LAST))
}

// The corner with a number, dx + 2 dy + 4 dz.
pub(crate) fn corner(at: Point, k: usize) -> Point
    requires near { Near at }
    requires one { k < 8 }
    ensures answer { result ≡ corner_at at k }
{
    let k = k as u32;
    Point {
        x: at.x + k % 2,
        y: at.y + k / 2 % 2,
        z: at.z + k / 4,
    }
}

// All corners of a voxel by its lowest, as they are read. Written out: each sum is made once.
pub(crate) fn corners(at: Point) -> [Point; CORNERS]
    requires { Near at }
    ensures answer { result ≡ corners at }
{
    let Point { x, y, z } = at;
    let (x1, y1, z1) = (x + 1, y + 1, z + 1);
    [
        at,
        Point { x: x1, y, z },
        Point { x, y: y1, z },
        Point { x: x1, y: y1, z },
        Point { x, y, z: z1 },
        Point { x: x1, y, z: z1 },
        Point { x, y: y1, z: z1 },
        Point {
            x: x1,
            y: y1,
            z: z1,
        },
    ]
}
