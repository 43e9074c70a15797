// A voxel that was read, with its vertices and triangles.
ghost use Rattle.std.specs.Prelude.{◌≤◌};

use crate::cube::Cube;
use cell::vertex::Vertex;
use kind::triangle::Triangle;
use shell::{MOST_TRIANGLES, VERTICES};

// The arrays have room for the most that a voxel has, since there is no heap, and `ArrayVec` is not `Copy`.
#[derive(Clone, Copy)]
pub struct VoxelShape {
    pub(crate) cube: Cube,
    pub(crate) vertices: [Vertex; VERTICES],
    pub(crate) vertex_count: usize,
    pub(crate) triangles: [Triangle; MOST_TRIANGLES],
    pub(crate) triangle_count: usize,
    ghost vertices_fit: { vertex_count ≤ 18 },
    ghost triangles_fit: { triangle_count ≤ 22 },
}
