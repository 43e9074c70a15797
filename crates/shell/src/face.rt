// The faces of a voxel.
ghost use Rattle.std.specs.Prelude.{◌≡◌, ◌<◌, IsTrue, [], ◌∷◌, nat_lt};
ghost use Rattle.std.specs.List.{list_all, slice_get};
ghost use Rattle.std.specs.Option.{option_map};
ghost use Rattle.clipping.specs.Faces.{corner_count, local_vertices};

use cell::face::FacePoint;
use cell::vertex::Axis;

// A face of a voxel: the axis across it, its corners 00, 10, 01, 11, its crossings P0 to P3 and its centre, by their numbers in the voxel.
#[derive(Clone, Copy)]
pub struct VoxelFace {
    pub axis: Axis,
    pub c00: usize,
    pub c10: usize,
    pub c01: usize,
    pub c11: usize,
    pub p0: usize,
    pub p1: usize,
    pub p2: usize,
    pub p3: usize,
    pub centre: usize,
    ghost corners_in: { IsTrue (list_all (λ k. nat_lt k corner_count) (c00 ∷ c10 ∷ c01 ∷ c11 ∷ [])) },
    ghost points_in: { IsTrue (list_all (λ v. nat_lt v local_vertices) (p0 ∷ p1 ∷ p2 ∷ p3 ∷ centre ∷ [])) },
}

// The faces x low, x high, y low, y high, z low, z high.
#[rattlefmt::skip]
pub const FACES: [VoxelFace; 6] = [
    VoxelFace { axis: Axis::X, c00: 0, c10: 2, c01: 4, c11: 6, p0: 8, p1: 10, p2: 4, p3: 6, centre: 12 },
    VoxelFace { axis: Axis::X, c00: 1, c10: 3, c01: 5, c11: 7, p0: 9, p1: 11, p2: 5, p3: 7, centre: 13 },
    VoxelFace { axis: Axis::Y, c00: 0, c10: 1, c01: 4, c11: 5, p0: 8, p1: 9, p2: 0, p3: 2, centre: 14 },
    VoxelFace { axis: Axis::Y, c00: 2, c10: 3, c01: 6, c11: 7, p0: 10, p1: 11, p2: 1, p3: 3, centre: 15 },
    VoxelFace { axis: Axis::Z, c00: 0, c10: 1, c01: 2, c11: 3, p0: 4, p1: 5, p2: 0, p3: 1, centre: 16 },
    VoxelFace { axis: Axis::Z, c00: 4, c10: 5, c01: 6, c11: 7, p0: 6, p1: 7, p2: 2, p3: 3, centre: 17 },
];

impl VoxelFace {
    ghost use Rattle.shell.specs.Table.{drawn, drawn_faces, placed_of};

    // The face at a place, or nothing past the last. One by one: `FACES.get(n)` builds the whole table at each call.
    pub fn numbered(n: usize) -> Option<VoxelFace>
        ensures answer { option_map drawn result ≡ slice_get drawn_faces n }
    {
        match n {
            0 => Some(FACES[0]),
            1 => Some(FACES[1]),
            2 => Some(FACES[2]),
            3 => Some(FACES[3]),
            4 => Some(FACES[4]),
            5 => Some(FACES[5]),
            _ => None,
        }
    }

    // The number in the voxel of a point of the face.
    pub fn point(&self, p: FacePoint) -> usize
        ensures answer { result ≡ (placed_of self.now).point p }
        ensures within { result < local_vertices }
    {
        match p {
            FacePoint::P0 => self.p0,
            FacePoint::P1 => self.p1,
            FacePoint::P2 => self.p2,
            FacePoint::P3 => self.p3,
            FacePoint::C => self.centre,
        }
    }
}
