// The segments of a voxel's faces, and their clipping.
ghost use Rattle.std.specs.Prelude.{◌≡◌, ◌<◌, ◌≤◌, List, map, take};
ghost use Rattle.cell.specs.Cuts.{segments_in};
ghost use Rattle.clipping.specs.Clip.{triangles};
ghost use Rattle.clipping.specs.Faces.{Segment, local_vertices, placed, voxel_segments};
ghost use Rattle.clipping.specs.Laws.{Tame, most_triangles};
ghost use Rattle.clipping.specs.Masks.{Clippable, Means, Stepped, apex_of, toggled, used_in, entered, blank};
ghost use Rattle.shell.specs.Corners.{by_corner};
ghost use Rattle.shell.specs.Links.{apex, lowest_on};
ghost use Rattle.shell.specs.Shell.{named};
ghost use Rattle.shell.specs.Table.{placed_of};

use crate::corners::Corners;
use crate::face::{FACES, VoxelFace};
use crate::{LocalTriangle, MOST_TRIANGLES, VERTICES};
use cell::face::Cut;

// A set of segments as a mask for each local vertex: bit u of mask v is set where the segment between u and v is in the set.
#[derive(Clone, Copy)]
pub(crate) struct Links {
    masks: [u32; VERTICES],
}

impl Links {
    // The segments of a voxel's faces.
    pub(crate) fn of(corners: &Corners) -> Links
        ensures { result.masks ≡ entered blank (voxel_segments (by_corner corners.now.heights)) }
    {
        let mut links = Links {
            masks: [0; VERTICES],
        };
        for face in &FACES {
            links.enter(face, corners.cut(face));
        }
        links
    }

    // The vertices on segments, the lowest first, at the front of an array, and their number.
    pub(crate) fn vertices(&self, out: &mut [u8; VERTICES]) -> usize
        ensures done { take result out.new ≡ used_in self.now.masks }
        ensures few { result ≤ local_vertices }
    {
        // `out` and `n` are a list: nothing may be allocated.
        let mut n = 0;
        for (v, mask) in self.masks.iter().enumerate() {
            if mask.count_ones() > 0 {
                out[n] = v as u8;
                n += 1;
            }
        }
        n
    }

    // Clips the set to nothing, and writes its triangles to the front of `out`: the answer is their number.
    pub(crate) fn clip(&mut self, out: &mut [LocalTriangle; MOST_TRIANGLES]) -> usize
        requires { Clippable self.old.masks }
        ensures done { (ss : List Segment) → Means self.old.masks ss → Tame ss → map named (take result out.new) ≡ triangles ss }
        ensures few { result ≤ most_triangles }
    {
        // A list again.
        let mut n = 0;
        while let Some(v) = self.apex() {
            out[n] = self.turn(v);
            n += 1;
        }
        n
    }

    // One turn at the apex `v`: the triangle, with its segments struck and the last one toggled.
    fn turn(&mut self, v: usize) -> LocalTriangle
        requires ready { Clippable self.old.masks }
        requires top { v ≡ apex_of self.old.masks }
        requires low { v < local_vertices }
        ensures { (ss : List Segment) → Means self.old.masks ss → Tame ss → Stepped ss self.new.masks (named result) }
    {
        let a = self.masks[v].trailing_zeros() as usize;
        self.toggle(v, a);
        let b = self.masks[v].trailing_zeros() as usize;
        self.toggle(v, b);
        self.toggle(a, b);
        LocalTriangle {
            apex: v as u8,
            low: a as u8,
            high: b as u8,
        }
    }

    // Enters the segments of a face's cut.
    fn enter(&mut self, face: &VoxelFace, cut: Cut)
        ensures { self.new.masks ≡ entered self.old.masks (placed (placed_of face.now) (segments_in cut)) }
    {
        for (p, q) in cut.segments() {
            self.toggle(face.point(p), face.point(q));
        }
    }

    // Vertices are plain numbers here, as they are bits of the masks.
    // Strikes the segment between two vertices if it is in the set, and enters it if not.
    fn toggle(&mut self, u: usize, v: usize)
        requires { (u < local_vertices) × (v < local_vertices) }
        ensures { self.new.masks ≡ toggled self.old.masks u v }
    {
        self.masks[u] ^= 1 << v;
        self.masks[v] ^= 1 << u;
    }

    // The lowest vertex on two segments, or else the lowest on four.
    fn apex(&self) -> Option<usize>
        ensures { result ≡ apex self.now.masks }
    {
        self.lowest_on(2).or_else(|| self.lowest_on(4))
    }

    // The lowest vertex on exactly `n` segments.
    fn lowest_on(&self, n: u32) -> Option<usize>
        ensures { result ≡ lowest_on self.now.masks n }
    {
        self.masks.iter().position(|mask| mask.count_ones() == n)
    }
}
