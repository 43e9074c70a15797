// The kind of voxels.
ghost use Rattle.std.specs.Prelude.{◌≡◌, ◌+◌, ◌≤◌, [], ◌∷◌, map, length, take, refl, position, ◌==◌};
ghost use Rattle.clipping.specs.Laws.{most_triangles};
ghost use Rattle.shell.specs.Corners.{by_corner};
ghost use Rattle.shell.specs.Shell.{named, shell_of};
ghost use Rattle.voxel.specs.Local.{local_vertex, numbered, rank};
ghost use Rattle.voxel.specs.Shapes.{shape_points, shape_parts, shape_borders};
ghost use Rattle.voxel.specs.VoxelLaws.{voxel_laws};
ghost use Rattle.voxel_theory.specs.Voxel.{voxel};

use crate::cube::Cube;
use crate::held::VoxelShape;
use crate::reading::{corner, is_voxel};
use block::lattice::{Point, Sizes};
use block::refusal::Refusal;
use block::source::Source;
use cell::level::Level;
use cell::vertex::{Side, Vertex};
use kind::joint::Joint;
use kind::kind::{Kind, Shape};
use kind::triangle::Triangle;
use shell::{CORNERS, LocalTriangle, MOST_TRIANGLES};

#[derive(Clone, Copy)]
pub struct Voxel;

impl Shape<Triangle> for VoxelShape {
    ghost points = { shape_points };

    ghost parts = { shape_parts };

    ghost borders = { shape_borders };

    fn vertices(&self) -> &[Vertex] {
        &self.vertices[0..self.vertex_count]
    }

    fn pieces(&self) -> &[Triangle] {
        &self.triangles[0..self.triangle_count]
    }

    fn side(&self, n: usize) -> Option<Side> {
        self.cube.side(n)
    }

    fn cut(&self, side: usize, n: usize) -> Option<Joint> {
        self.cube.cut(side, n)
    }
}

impl Kind for Voxel {
    type Piece = Triangle;

    type Shape = VoxelShape;

    ghost meaning = { voxel };

    ghost laws = { voxel_laws };

    ghost arity = { refl };

    fn is_cell(&self, sizes: Sizes, at: Point) -> bool {
        is_voxel(sizes, at)
    }

    fn corner(&self, sizes: Sizes, at: Point, n: usize) -> Option<Point> {
        if is_voxel(sizes, at) && n < CORNERS {
            Some(corner(at, n))
        } else {
            None
        }
    }

    fn read<S: Source>(&self, source: &S, level: Level, at: Point) -> Result<VoxelShape, Refusal> {
        Ok(shape_of(Cube::read(source, level, at)?))
    }
}

// A voxel with its vertices and numbered triangles.
fn shape_of(cube: Cube) -> VoxelShape
    ensures cube { result.cube ≡ cube }
    ensures points { shape_points result ≡ map (local_vertex cube.at (by_corner cube.corners.heights)) (shell_of (by_corner cube.corners.heights)).1 }
    ensures parts { map (λ t. t.first ∷ t.second ∷ t.third ∷ []) (shape_parts result) ≡ map (numbered (shell_of (by_corner cube.corners.heights)).1) (shell_of (by_corner cube.corners.heights)).0 }
{
    let shell = cube.corners.shell();
    let local = &shell.vertices[0..shell.vertex_count];
    VoxelShape {
        cube,
        vertices: cube.vertices(local),
        vertex_count: shell.vertex_count,
        triangles: number_triangles(&shell.triangles[0..shell.triangle_count], local),
        triangle_count: shell.triangle_count,
    }
}

// The triangles by the numbers of their vertices among the voxel's own, and blank ones behind them.
fn number_triangles(triangles: &[LocalTriangle], local: &[u8]) -> [Triangle; MOST_TRIANGLES]
    requires few { length triangles.now ≤ most_triangles }
    ensures answer { map (λ t. t.first ∷ t.second ∷ t.third ∷ []) (take (length triangles.now) result) ≡ map (numbered local.now) (map named triangles.now) }
{
    let mut all = [Triangle::default(); MOST_TRIANGLES];
    for (i, t) in triangles.iter().enumerate() {
        all[i] = number_triangle(*t, local);
    }
    all
}

fn number_triangle(t: LocalTriangle, local: &[u8]) -> Triangle
    ensures answer { (result.first ∷ result.second ∷ result.third ∷ []) ≡ numbered local.now (named t) }
{
    Triangle {
        first: number_of(local, t.apex),
        second: number_of(local, t.low),
        third: number_of(local, t.high),
    }
}

// The number of a local vertex among others, counted from 1; one more than there are where it is not among them, which a caller could only unwrap.
fn number_of(vertices: &[u8], v: u8) -> usize
    ensures answer { result ≡ rank vertices.now v }
{
    match place_of(vertices, v) {
        Some(i) => i + 1,
        None => vertices.len() + 1,
    }
}

fn place_of(vertices: &[u8], v: u8) -> Option<usize>
    ensures answer { result ≡ position (λ u. u == v) vertices.now }
{
    vertices.iter().position(|u| *u == v)
}
