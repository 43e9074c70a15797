// Sampled blocks, and the sources that tell them.
#![tactic(auto)]

pub mod bits;
mod extent;
pub mod fault;
pub mod lattice;
pub mod packed;
pub mod raster;
pub mod refusal;
pub mod source;
pub mod window;
