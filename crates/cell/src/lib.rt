// Exact contouring of one lattice face: levels and heights, crossings of edges, and the segments that join them.
#![tactic(auto)]

pub mod corner;
pub mod crossing;
pub mod face;
pub mod level;
pub mod vertex;
