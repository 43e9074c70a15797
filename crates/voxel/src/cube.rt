// A voxel whose corners were read.
ghost use Rattle.std.specs.Prelude.{◌≡◌, ◌+◌, ◌<◌, ◌≤◌, [], ◌∷◌, map, length, take};
ghost use Rattle.std.specs.List.{slice_get};
ghost use Rattle.std.specs.Option.{option_map};
ghost use Rattle.block.specs.Refusals.{Outcome};
ghost use Rattle.cell.specs.Cuts.{segments_in};
ghost use Rattle.cell.specs.Face.{face_segments};
ghost use Rattle.clipping.specs.Faces.{on_face};
ghost use Rattle.shell.specs.Table.{placed_of};
ghost use Rattle.kind.specs.Meaning.{cell_declined};
ghost use Rattle.kind.specs.Shapes.{places_in, cut_at};
ghost use Rattle.shell.specs.Corners.{by_corner};
ghost use Rattle.voxel_theory.specs.Voxel.{voxel, place_of, sides};
ghost use Rattle.voxel.specs.Local.{edge_vertex, centre_at, local_vertex, borders_of};
ghost use Rattle.voxel.specs.Reading.{Near};

use crate::reading::{corner, corners, is_voxel};
use block::lattice::Point;
use block::refusal::Refusal;
use block::source::Source;
use cell::corner::heights_at;
use cell::crossing::Edge;
use cell::face::Cut;
use cell::level::Level;
use cell::vertex::{Axis, Place, Side, Vertex};
use kind::joint::Joint;
use shell::VERTICES;
use shell::corners::Corners;
use shell::face::{FACES, VoxelFace};

// Where a voxel lies, and the heights at its corners.
#[derive(Clone, Copy)]
pub(crate) struct Cube {
    pub(crate) at: Point,
    pub(crate) corners: Corners,
    ghost near: { Near at },
}

impl Cube {
    ghost use Rattle.voxel.specs.Holds.{Holds};

    // Reads the corners of a voxel, each once, in order.
    pub(crate) fn read<S: Source>(source: &S, level: Level, at: Point) -> Result<Cube, Refusal>
        ensures answer { Outcome (cell_declined voxel (S.Source.block source.now) level at) (Holds (S.Source.block source.now) level at) result }
    {
        if !is_voxel(source.sizes(), at) {
            return Err(Refusal::NoCell);
        }
        let heights = heights_at(source, level, &corners(at))?;
        let Some(corners) = Corners::new(heights) else {
            // A corner on the level was refused.
            unreachable()
        };
        Ok(Cube { at, corners })
    }

    // The local vertices with these numbers, in order, and blank ones behind them.
    pub(crate) fn vertices(&self, local: &[u8]) -> [Vertex; VERTICES]
        requires few { length local.now ≤ 18 }
        ensures answer { take (length local.now) result ≡ map (local_vertex self.now.at (by_corner self.now.corners.heights)) local.now }
    {
        let mut vertices = [Vertex::blank(); VERTICES];
        for (i, v) in local.iter().enumerate() {
            vertices[i] = self.vertex(usize::from(*v));
        }
        vertices
    }

    // The side at a place.
    pub(crate) fn side(&self, n: usize) -> Option<Side>
        ensures answer { result ≡ slice_get (sides self.now.at) n }
    {
        let face = VoxelFace::numbered(n)?;
        Some(Side {
            axis: face.axis,
            point: corner(self.at, face.c00),
        })
    }

    // The cut at a place of the side at a place.
    pub(crate) fn cut(&self, side: usize, n: usize) -> Option<Joint>
        ensures answer { option_map places_in result ≡ cut_at (borders_of self.now.at (by_corner self.now.corners.heights)) side n }
    {
        let face = VoxelFace::numbered(side)?;
        let (p, q) = self.cut_along(&face).segment(n)?;
        Some(Joint {
            first: self.place(face.point(p)),
            second: Some(self.place(face.point(q))),
        })
    }

    // The cut of a side.
    fn cut_along(&self, side: &VoxelFace) -> Cut
        ensures answer { segments_in result ≡ on_face face_segments (by_corner self.now.corners.heights) (placed_of side.now) }
    {
        self.corners.cut(side)
    }

    fn place(&self, v: usize) -> Place
        requires { v < 18 }
        ensures answer { result ≡ place_of self.now.at v }
    {
        self.vertex(v).place
    }

    // A local vertex: 0 to 11 on edges along x, y and z, from 12 on the centres of the faces. The only list of the edges.
    fn vertex(&self, v: usize) -> Vertex
        ensures answer { result ≡ local_vertex self.now.at (by_corner self.now.corners.heights) v }
    {
        match v {
            0 => self.crossing(Axis::X, 0, 1),
            1 => self.crossing(Axis::X, 2, 3),
            2 => self.crossing(Axis::X, 4, 5),
            3 => self.crossing(Axis::X, 6, 7),
            4 => self.crossing(Axis::Y, 0, 2),
            5 => self.crossing(Axis::Y, 1, 3),
            6 => self.crossing(Axis::Y, 4, 6),
            7 => self.crossing(Axis::Y, 5, 7),
            8 => self.crossing(Axis::Z, 0, 4),
            9 => self.crossing(Axis::Z, 1, 5),
            10 => self.crossing(Axis::Z, 2, 6),
            11 => self.crossing(Axis::Z, 3, 7),
            _ => self.centre(v - 12),
        }
    }

    // The crossing of the edge between two corners, by numbers that `vertex` alone gives.
    fn crossing(&self, axis: Axis, low: usize, high: usize) -> Vertex
        requires low { low < 8 }
        requires high { high < 8 }
        ensures answer { result ≡ edge_vertex self.now.at (by_corner self.now.corners.heights) axis low high }
    {
        let edge = Edge {
            low: self.corners.heights[low],
            high: self.corners.heights[high],
        };
        Vertex::on_edge(axis, corner(self.at, low), edge.offset())
    }

    // The centre of the face at a place; past the last, that of the last, since `vertex` answers for any number.
    fn centre(&self, n: usize) -> Vertex
        ensures answer { result ≡ centre_at self.now.at (by_corner self.now.corners.heights) n }
    {
        let face = VoxelFace::numbered(n).unwrap_or(FACES[5]);
        let centre = self.corners.face(&face).centre_offsets();
        Vertex::in_face(
            face.axis,
            corner(self.at, face.c00),
            centre.first,
            centre.second,
        )
    }
}
