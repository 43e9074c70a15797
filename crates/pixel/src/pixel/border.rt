// The sides of a pixel and their cuts.
ghost use Rattle.std.specs.Prelude.{◌≡◌, map};
ghost use Rattle.std.specs.Option.{option_map};
ghost use Rattle.std.specs.List.{slice_get, zip};
ghost use Rattle.cell.specs.Corners.{edges_of};
ghost use Rattle.kind.specs.Shapes.{places_in, cut_at};
ghost use Rattle.pixel.specs.Contour.{contour_borders};
ghost use Rattle.pixel_theory.specs.Kind.{pixel_sides};

use crate::contour::Contour;
use crate::square::pick;
use cell::crossing::Edge;
use cell::vertex::{Place, Side};
use kind::joint::Joint;

impl Contour {
    // The sides in order, each with the heights at its ends.
    pub(crate) fn borders(&self) -> [(Side, Edge); 4]
        ensures answer { result ≡ zip (pixel_sides self.now.square.at) (edges_of self.now.face) }
    {
        let [s0, s1, s2, s3] = self.square.sides();
        let [e0, e1, e2, e3] = self.face.edges();
        [(s0, e0), (s1, e1), (s2, e2), (s3, e3)]
    }

    pub(crate) fn side(&self, n: usize) -> Option<Side>
        ensures answer { result ≡ slice_get (map (λ s. s.0) (contour_borders self.now)) n }
    {
        pick(self.square.sides(), n)
    }

    // A side's only cut is its crossing.
    pub(crate) fn cut_of(&self, side: usize, n: usize) -> Option<Joint>
        ensures answer { option_map places_in result ≡ cut_at (contour_borders self.now) side n }
    {
        let edge = pick(self.face.edges(), side)?;
        let side = self.side(side)?;
        if n != 0 || !edge.is_crossed() {
            return None;
        }
        Some(Joint {
            first: Place::on_edge(side.axis, side.point),
            second: None,
        })
    }
}
