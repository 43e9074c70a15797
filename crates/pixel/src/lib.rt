// Pixels: the unit squares in the planes of a block, and the segments by which the level cuts them.
#![tactic(auto)]

mod contour;
pub mod pixel;
pub mod pixels;
pub mod shape;
mod square;
pub mod survey;
