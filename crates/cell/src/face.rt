// How the level cuts a unit face of the lattice.
ghost use Rattle.std.specs.Prelude.{◌≡◌, ◌^◌, ◌≤◌, true, length, ◌*ℤ◌, MatchOption, unsigned_abs};
ghost use Rattle.std.specs.Iterator.{YieldsFirst, item_count};
ghost use Rattle.std.specs.List.{slice_get};
ghost use Rattle.cell.specs.Level.{sign};
ghost use Rattle.cell.specs.Face.{Δ, join, joined_by_Δ, crossed_edges, face_segments, meets_level, face_rule, has_centre, centre_offsets, centre_of_face, crossing_at};
ghost use Rattle.cell.specs.Cuts.{segments_in, segments_left, segments_of};
ghost use Rattle.cell.specs.Corners.{at_corners, edges_of};
ghost use Rattle.cell.specs.Interpolant.{Interpolated};

use crate::crossing::{Edge, Offset};
use crate::level::Height;

// A vertex of a face. P0 is the crossing where the first coordinate is 0, P1 where it is 1, P2 where the second coordinate is 0, P3 where it is 1; C is the centre.
#[derive(Clone, Copy)]
pub enum FacePoint {
    P0,
    P1,
    P2,
    P3,
    C,
}

// How a face is cut.
#[derive(Clone, Copy)]
pub enum Cut {
    // no edge has a crossing
    Uncut,
    // two edges have one, and a segment joins the two
    Single(FacePoint, FacePoint),
    // four edges have one, and two segments that rise along the first axis join P0 with P3 and P1 with P2
    Rising,
    // four edges have one, and two segments that fall along the first axis join P0 with P2 and P1 with P3
    Falling,
    // four edges have one, and a segment joins each of the four with the centre
    Star,
}

impl Cut {
    // How many segments there are.
    pub fn count(&self) -> usize
        ensures answer { result ≡ length (segments_in self.now) }
        ensures few { result ≤ 4 }
    {
        match self {
            Cut::Uncut => 0,
            Cut::Single(_, _) => 1,
            Cut::Rising | Cut::Falling => 2,
            Cut::Star => 4,
        }
    }

    pub fn segments(&self) -> Segments
        ensures answer { segments_left result ≡ segments_in self.now }
    {
        Segments {
            cut: *self,
            next: 0,
        }
    }

    // The segment at a place, counted from 0, or nothing past the last.
    pub fn segment(&self, n: usize) -> Option<(FacePoint, FacePoint)>
        ensures answer { result ≡ slice_get (segments_in self.now) n }
    {
        match (self, n) {
            (Cut::Single(a, b), 0) => Some((*a, *b)),
            (Cut::Rising, 0) => Some((FacePoint::P0, FacePoint::P3)),
            (Cut::Rising, 1) => Some((FacePoint::P1, FacePoint::P2)),
            (Cut::Falling, 0) => Some((FacePoint::P0, FacePoint::P2)),
            (Cut::Falling, 1) => Some((FacePoint::P1, FacePoint::P3)),
            (Cut::Star, 0) => Some((FacePoint::P0, FacePoint::C)),
            (Cut::Star, 1) => Some((FacePoint::P1, FacePoint::C)),
            (Cut::Star, 2) => Some((FacePoint::P2, FacePoint::C)),
            (Cut::Star, 3) => Some((FacePoint::P3, FacePoint::C)),
            _ => None,
        }
    }
}

// The segments of a cut that are still to come, in order.
#[derive(Clone, Copy)]
pub struct Segments {
    cut: Cut,
    next: usize,
}

impl Iterator for Segments {
    type Item = (FacePoint, FacePoint);

    ghost next_gives = { YieldsFirst segments_left };

    ghost remaining = { item_count segments_left };

    fn next(&mut self) -> Option<(FacePoint, FacePoint)> {
        let segment = self.cut.segment(self.next)?;
        self.next += 1;
        Some(segment)
    }
}

// The centre of a face, by its offsets along the first and the second axis.
#[derive(Clone, Copy)]
pub struct Centre {
    pub first: Offset,
    pub second: Offset,
}

// The heights at the corners of a face, each named by its two coordinates.
#[derive(Clone, Copy)]
pub struct Face {
    pub g00: Height,
    pub g10: Height,
    pub g01: Height,
    pub g11: Height,
}

impl Face {
    // The segments of the face, or nothing if the level meets one of its corners. They follow the bilinear interpolant of the four heights.
    pub fn cut(&self) -> Option<Cut>
        ensures answer { segments_of result ≡ at_corners face_rule self.now }
        ensures follows { MatchOption result (at_corners meets_level self.now ≡ true) (λ cut. at_corners Interpolated self.now (segments_in cut)) }
    {
        if self.meets_level() {
            None
        } else {
            Some(self.joined())
        }
    }

    // The product of the heights at the corners 00 and 11, less that of the other two: its sign says how four crossings are joined.
    pub fn delta(&self) -> i64
        ensures answer { result ≡ at_corners Δ self.now }
    {
        product(self.g00, self.g11) - product(self.g10, self.g01)
    }

    // The centre of the face, or nothing if no segment ends there.
    pub fn centre(&self) -> Option<Centre>
        ensures answer { result ≡ at_corners centre_of_face self.now }
    {
        if self.has_centre() {
            Some(self.centre_offsets())
        } else {
            None
        }
    }

    // Where a face that has a centre has it.
    pub fn centre_offsets(&self) -> Centre
        ensures answer { result ≡ at_corners centre_offsets self.now }
    {
        let size00 = self.g00.size();
        let size10 = self.g10.size();
        let size01 = self.g01.size();
        let size11 = self.g11.size();
        let denominator = size00 + size10 + size01 + size11;
        Centre {
            first: Offset {
                numerator: size00 + size01,
                denominator,
            },
            second: Offset {
                numerator: size00 + size10,
                denominator,
            },
        }
    }

    // The edges that the points P0, P1, P2 and P3 are on.
    pub fn edges(&self) -> [Edge; 4]
        ensures answer { result ≡ edges_of self.now }
    {
        [
            Edge::new(self.g00, self.g01),
            Edge::new(self.g10, self.g11),
            Edge::new(self.g00, self.g10),
            Edge::new(self.g01, self.g11),
        ]
    }

    // The offset of a crossing along its edge, or nothing if the edge has none; the centre is on no edge.
    pub fn crossing(&self, at: FacePoint) -> Option<Offset>
        ensures answer { result ≡ at_corners crossing_at self.now at }
    {
        let [p0, p1, p2, p3] = self.edges();
        match at {
            FacePoint::P0 => p0.crossing(),
            FacePoint::P1 => p1.crossing(),
            FacePoint::P2 => p2.crossing(),
            FacePoint::P3 => p3.crossing(),
            FacePoint::C => None,
        }
    }

    // The segments that join the crossings, wherever the corners lie.
    fn joined(&self) -> Cut
        ensures answer { segments_in result ≡ at_corners face_segments self.now }
    {
        let [p0, p1, p2, p3] = self.edges().map(|edge| edge.is_crossed());
        join_crossings(p0, p1, p2, p3, self.delta())
    }

    // Whether the level meets a corner: then the signs do not say where it goes.
    fn meets_level(&self) -> bool
        ensures answer { result ≡ at_corners meets_level self.now }
    {
        self.g00.is_on_level()
            || self.g10.is_on_level()
            || self.g01.is_on_level()
            || self.g11.is_on_level()
    }

    // Whether four crossings are joined at the centre.
    fn has_centre(&self) -> bool
        ensures answer { result ≡ at_corners has_centre self.now }
    {
        let [p0, p1, p2, p3] = self.edges();
        p0.is_crossed()
            && p1.is_crossed()
            && p2.is_crossed()
            && p3.is_crossed()
            && self.delta() == 0
    }
}

// The product of two heights, which 64 bits hold.
fn product(one: Height, other: Height) -> i64
    ensures answer { result ≡ one.value *ℤ other.value }
    ensures small { unsigned_abs result ≤ 2 ^ 50 }
{
    i64::from(one.value()) * i64::from(other.value())
}

// Joins the crossings of a face, from which of its edges have one and its delta. One crossing or three do not occur off the level.
fn join_crossings(p0: bool, p1: bool, p2: bool, p3: bool, delta: i64) -> Cut
    ensures answer { segments_in result ≡ join (crossed_edges p0 p1 p2 p3) (sign delta) }
{
    match (p0, p1, p2, p3) {
        (true, true, true, true) => join_four(delta),
        (true, true, false, false) => Cut::Single(FacePoint::P0, FacePoint::P1),
        (true, false, true, false) => Cut::Single(FacePoint::P0, FacePoint::P2),
        (true, false, false, true) => Cut::Single(FacePoint::P0, FacePoint::P3),
        (false, true, true, false) => Cut::Single(FacePoint::P1, FacePoint::P2),
        (false, true, false, true) => Cut::Single(FacePoint::P1, FacePoint::P3),
        (false, false, true, true) => Cut::Single(FacePoint::P2, FacePoint::P3),
        _ => Cut::Uncut,
    }
}

// Joins four crossings by the sign of delta.
fn join_four(delta: i64) -> Cut
    ensures answer { segments_in result ≡ joined_by_Δ (sign delta) }
{
    if delta == 0 {
        Cut::Star
    } else if delta > 0 {
        Cut::Rising
    } else {
        Cut::Falling
    }
}
