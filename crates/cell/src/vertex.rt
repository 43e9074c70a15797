// A vertex of a contour or a shell, and its exact coordinates.
ghost use Rattle.std.specs.Prelude.{◌≡◌, Some};
ghost use Rattle.cell.specs.Vertex.{coordinates, coordinate, edge_place, face_place, in_face, no_offset, no_vertex, on_edge};

use crate::crossing::Offset;
use block::lattice::Point;
use std::fmt;

#[derive(Clone, Copy, PartialEq, Eq, Debug)]
pub enum Axis {
    X,
    Y,
    Z,
}

// What a vertex is: the crossing of a lattice edge, or the centre of a face.
#[derive(Clone, Copy, PartialEq, Eq, Debug)]
pub enum Form {
    Edge,
    Face,
}

// What tells one vertex from another: its form, the axis of the edge or the normal axis of the face, and the lowest lattice point. A blank slot has neither form nor axis.
#[derive(Clone, Copy, PartialEq, Eq, Debug)]
pub struct Place {
    pub form: Option<Form>,
    pub axis: Option<Axis>,
    pub point: Point,
}

// A vertex lies at its lowest point plus an offset along each axis that has one. The others have 0/0, and no `Option`: a slot's unused fields are zero.
#[derive(Clone, Copy)]
pub struct Vertex {
    pub place: Place,
    pub x: Offset,
    pub y: Offset,
    pub z: Offset,
}

impl Vertex {
    // What a slot holds that no vertex stands in.
    pub fn blank() -> Vertex
        ensures answer { result ≡ no_vertex }
    {
        let point = Point { x: 0, y: 0, z: 0 };
        Vertex::at(Place {
            form: None,
            axis: None,
            point,
        })
    }

    // The crossing of the edge along `axis` from `point`, at an offset from there.
    pub fn on_edge(axis: Axis, point: Point, offset: Offset) -> Vertex
        ensures answer { result ≡ on_edge axis point offset }
    {
        let vertex = Vertex::at(Place::on_edge(axis, point));
        match axis {
            Axis::X => Vertex {
                x: offset,
                ..vertex
            },
            Axis::Y => Vertex {
                y: offset,
                ..vertex
            },
            Axis::Z => Vertex {
                z: offset,
                ..vertex
            },
        }
    }

    // The centre of the face with the normal `axis` at `point`, at offsets along the face's first and second axis.
    pub fn in_face(axis: Axis, point: Point, first: Offset, second: Offset) -> Vertex
        ensures answer { result ≡ in_face axis point first second }
    {
        let vertex = Vertex::at(Place::in_face(axis, point));
        match axis {
            Axis::X => Vertex {
                y: first,
                z: second,
                ..vertex
            },
            Axis::Y => Vertex {
                x: first,
                z: second,
                ..vertex
            },
            Axis::Z => Vertex {
                x: first,
                y: second,
                ..vertex
            },
        }
    }

    // A vertex with no offsets.
    fn at(place: Place) -> Vertex
        ensures answer { result ≡ record { place = place; x = no_offset; y = no_offset; z = no_offset } }
    {
        Vertex {
            place,
            x: Offset::default(),
            y: Offset::default(),
            z: Offset::default(),
        }
    }
}

impl Place {
    // That of the crossing of an edge.
    pub fn on_edge(axis: Axis, point: Point) -> Place
        ensures answer { result ≡ edge_place axis point }
    {
        Place {
            form: Some(Form::Edge),
            axis: Some(axis),
            point,
        }
    }

    // That of the centre of a face.
    pub fn in_face(axis: Axis, point: Point) -> Place
        ensures answer { result ≡ face_place axis point }
    {
        Place {
            form: Some(Form::Face),
            axis: Some(axis),
            point,
        }
    }
}

// A side of a cell: a lattice edge along the axis, or a face with that normal, at its lowest point.
#[derive(Clone, Copy, PartialEq, Eq, Debug)]
pub struct Side {
    pub axis: Axis,
    pub point: Point,
}

impl fmt::Display for Vertex {
    ghost output = { λ v. Some (coordinates v) };

    fn fmt<W: fmt::Write>(&self, f: &mut fmt::Formatter<W>) -> fmt::Result {
        let p = self.place.point;
        let x = Coordinate {
            whole: p.x,
            offset: self.x,
        };
        let y = Coordinate {
            whole: p.y,
            offset: self.y,
        };
        let z = Coordinate {
            whole: p.z,
            offset: self.z,
        };
        write!(f, "{x} {y} {z}")
    }
}

// A whole number, and an offset where it has one: `2+1/3`.
#[derive(Clone, Copy)]
struct Coordinate {
    whole: u32,
    offset: Offset,
}

impl fmt::Display for Coordinate {
    ghost output = { λ c. Some (coordinate c.whole c.offset) };

    fn fmt<W: fmt::Write>(&self, f: &mut fmt::Formatter<W>) -> fmt::Result {
        let whole = self.whole;
        if self.offset.denominator == 0 {
            return write!(f, "{whole}");
        }
        let numerator = self.offset.numerator;
        let denominator = self.offset.denominator;
        write!(f, "{whole}+{numerator}/{denominator}")
    }
}
