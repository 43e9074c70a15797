// The heights at the corners of a voxel.
ghost use Rattle.std.specs.Prelude.{◌≡◌, IfSome, IsTrue, if◌then◌else◌};
ghost use Rattle.std.specs.Option.{option_map};
ghost use Rattle.std.specs.Bool.{beq};
ghost use Rattle.std.specs.List.{list_all, list_any};
ghost use Rattle.cell.specs.Level.{on_level};
ghost use Rattle.cell.specs.Cuts.{segments_in};
ghost use Rattle.cell.specs.Face.{face_segments};
ghost use Rattle.clipping.specs.Faces.{on_face};
ghost use Rattle.shell.specs.Corners.{AllOff, by_corner, is_below, meets_level, OneSide};
ghost use Rattle.shell.specs.Shell.{Closed, Fits, shell_of, shell_rule, told};
ghost use Rattle.shell.specs.Table.{FaceOn, placed_of};

use crate::face::VoxelFace;
use crate::links::Links;
use crate::{CORNERS, LocalTriangle, MOST_TRIANGLES, Shell, VERTICES};
use cell::face::{Cut, Face};
use cell::level::Height;

// The heights at a voxel's corners, none of them on the level.
#[derive(Clone, Copy)]
pub struct Corners {
    pub heights: [Height; CORNERS],
    ghost off: { AllOff heights },
}

impl Corners {
    // Nothing if the level meets a corner.
    pub fn new(heights: [Height; CORNERS]) -> Option<Corners>
        ensures answer { option_map (λ c. c.heights) result ≡ (if meets_level (by_corner heights) then None else Some heights) }
    {
        if any_on_level(&heights) {
            None
        } else {
            Some(Corners { heights })
        }
    }

    pub fn face(&self, of: &VoxelFace) -> Face
        ensures answer { FaceOn (by_corner self.now.heights) (placed_of of.now) result }
    {
        Face {
            g00: self.heights[of.c00],
            g10: self.heights[of.c10],
            g01: self.heights[of.c01],
            g11: self.heights[of.c11],
        }
    }

    // Every face has its segments, as the level meets no corner.
    pub fn cut(&self, of: &VoxelFace) -> Cut
        ensures answer { segments_in result ≡ on_face face_segments (by_corner self.now.heights) (placed_of of.now) }
    {
        let Some(cut) = self.face(of).cut() else {
            unreachable()
        };
        cut
    }

    // The triangles of the voxel.
    pub fn shell(&self) -> Shell
        ensures answer { told result ≡ shell_of (by_corner self.now.heights) }
        ensures closed { Closed (by_corner self.now.heights) result }
        ensures fits { Fits result }
    {
        let mut triangles = [LocalTriangle::default(); MOST_TRIANGLES];
        let mut vertices = [0; VERTICES];
        if self.is_on_one_side() {
            return Shell {
                triangles,
                triangle_count: 0,
                vertices,
                vertex_count: 0,
            };
        }
        let mut links = Links::of(self);
        let vertex_count = links.vertices(&mut vertices);
        let triangle_count = links.clip(&mut triangles);
        Shell {
            triangles,
            triangle_count,
            vertices,
            vertex_count,
        }
    }

    // Whether all corners are on one side of the level: then no edge has a crossing.
    fn is_on_one_side(&self) -> bool
        ensures answer { IsTrue result → OneSide (by_corner self.now.heights) }
    {
        all_on_side(&self.heights, is_below(self.heights[0]))
    }
}

// The shell of a voxel, or nothing if the level meets one of its corners.
pub fn shell_of(heights: &[Height; CORNERS]) -> Option<Shell>
    ensures answer { option_map told result ≡ shell_rule (by_corner heights.now) }
    ensures closed { IfSome result (Closed (by_corner heights.now)) }
    ensures fits { IfSome result Fits }
{
    Some(Corners::new(*heights)?.shell())
}

// Whether the level meets a corner.
fn any_on_level(heights: &[Height; CORNERS]) -> bool
    ensures answer { result ≡ list_any (λ h. on_level h.value) heights.now }
{
    heights.iter().any(|h| h.is_on_level())
}

// Whether all corners are below the level, or none is.
fn all_on_side(heights: &[Height; CORNERS], below: bool) -> bool
    ensures answer { result ≡ list_all (λ h. beq (is_below h.value) below) heights.now }
{
    heights.iter().all(|h| is_below(*h) == below)
}

// Whether a height is below the level.
fn is_below(height: Height) -> bool
    ensures answer { result ≡ is_below height.value }
{
    height.value() < 0
}
