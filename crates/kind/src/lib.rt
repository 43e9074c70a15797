// Kinds of cell: what each means, the laws that it shows, and what it answers.
#![tactic(auto)]

pub mod joint;
pub mod kind;
pub mod piece;
pub mod segment;
pub mod triangle;
