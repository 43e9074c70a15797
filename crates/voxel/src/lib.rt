// Voxels: the unit cubes of a block, and the triangles by which the level cuts them.
#![tactic(auto)]

mod cube;
pub mod held;
pub mod reading;
pub mod voxel;
