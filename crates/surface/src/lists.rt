// What the lists of a ledger hold of a cell, and what a call adds to them or strikes.
use block::lattice::Point;

// A held cell: its position, and how many pieces of the piece list are its own.
#[derive(Clone, Copy)]
pub struct Cell {
    pub position: Point,
    pub pieces: usize,
}

// How many vertices and pieces a take has added or a withdrawal has struck.
#[derive(Clone, Copy)]
pub struct Counts {
    pub vertices: usize,
    pub pieces: usize,
}
