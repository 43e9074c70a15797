// The triangles of a voxel, from the heights at its corners.
#![tactic(auto)]

pub mod corners;
pub mod face;
mod links;

pub use corners::shell_of;

// The corners of a voxel, and its local vertices: twelve crossings and six centres.
pub const CORNERS: usize = 8;

pub const VERTICES: usize = 18;

// The most triangles that a voxel has.
pub const MOST_TRIANGLES: usize = 22;

// A triangle by its local vertices: the apex at which it was clipped, and the two lowest neighbours of that.
#[derive(Clone, Copy, Default)]
pub struct LocalTriangle {
    pub apex: u8,
    pub low: u8,
    pub high: u8,
}

// The triangles of a voxel, and the local vertices that they name, the lowest first.
#[derive(Clone, Copy)]
pub struct Shell {
    // Arrays with counts, as nothing may be allocated, and `ArrayVec` is not `Copy`.
    pub triangles: [LocalTriangle; MOST_TRIANGLES],
    pub triangle_count: usize,
    pub vertices: [u8; VERTICES],
    pub vertex_count: usize,
}
