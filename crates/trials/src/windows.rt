use crate::common::{fresh, point, refusal, sizes};
use block::fault::{Cause, Fault};
use block::lattice::{Point, Sizes};
use block::raster::Raster;
use block::refusal::Refusal;
use block::source::Source;
use block::window::Window;

const ROW: [i16; 12] = [10, 11, 12, 13, 14, 15, 16, 17, 18, 19, 20, -32768];

// A window over a block.
fn window<S: Source + Drop>(below: S, origin: Point, shown: Sizes) -> Result<Window<S>, Refusal> {
    Window::new(below, origin, shown).map_err(|no| no.refusal)
}

// The number of the refusal of a window over a block of 3, 2, 2, if there is one.
fn refused(origin: Point, shown: Sizes) -> Option<u8> {
    refusal(Raster::new(sizes(3, 2, 2), &ROW).and_then(|raster| window(raster, origin, shown)))
}

#[test]
fn within_the_block_below(rt: HostRuntime) {
    assert_eq!(rt; refused(point(0, 0, 0), sizes(3, 2, 2)), None);
    assert_eq!(rt; refused(point(1, 1, 1), sizes(2, 1, 1)), None);
    assert_eq!(rt; refused(point(1, 1, 1), sizes(3, 1, 1)), Some(4));
    assert_eq!(rt; refused(point(2, 1, 1), sizes(2, 1, 1)), Some(4));
    assert_eq!(rt; refused(point(0, 1, 0), sizes(1, 2, 1)), Some(4));
    assert_eq!(rt; refused(point(0, 0, 1), sizes(1, 1, 2)), Some(4));
    assert_eq!(rt; refused(point(3, 0, 0), sizes(1, 1, 1)), Some(4));
    assert_eq!(rt; refused(point(0, 0, 0), sizes(0, 1, 1)), Some(4));
    assert_eq!(rt; refused(point(0, 0, 0), sizes(1, 0, 1)), Some(4));
    assert_eq!(rt; refused(point(0, 0, 0), sizes(1, 1, 0)), Some(4));
    assert_eq!(rt; refused(point(0, 0, 0), sizes(1025, 1, 1)), Some(4));
}

// Origin and size have a sum that passes 32 bits.
#[test]
fn far_origins(rt: HostRuntime) {
    assert_eq!(rt; refused(point(4294967295, 0, 0), sizes(1, 1, 1)), Some(4));
    assert_eq!(rt; refused(point(4294967295, 0, 0), sizes(3, 1, 1)), Some(4));
    assert_eq!(rt; refused(point(0, 4294967294, 0), sizes(1, 2, 1)), Some(4));
    assert_eq!(rt; refused(point(0, 0, 4294967295), sizes(1, 1, 2)), Some(4));
    assert_eq!(rt; refused(point(1, 0, 0), sizes(4294967295, 1, 1)), Some(4));
}

// A missing sample tells its point in the raster's coordinates and the two windows that it passed.
#[test]
fn a_fault_through_two_windows(rt: HostRuntime) -> Result<(), Refusal> {
    let raster = Raster::new(sizes(3, 2, 2), &ROW)?;
    let inner = window(raster, point(1, 0, 1), sizes(2, 2, 1))?;
    let outer = window(inner, point(1, 1, 0), sizes(1, 1, 1))?;
    assert_eq!(rt; outer.sizes().x, 1);
    let missing = Fault {
        cause: Cause::Missing,
        point: point(2, 1, 1),
        layers: 2,
    };
    assert_eq!(rt; outer.sample(point(0, 0, 0)), Err(missing));
    // A point outside the window is the window's own fault, although the block below has it.
    let past = point(1, 0, 0);
    assert_eq!(rt; outer.sample(past), Err(fresh(Cause::Outside, past)));
    Ok(())
}

#[test]
fn samples_through_a_window(rt: HostRuntime) -> Result<(), Refusal> {
    let raster = Raster::new(sizes(3, 2, 2), &ROW)?;
    let window = window(&raster, point(1, 1, 0), sizes(2, 1, 2))?;
    assert_eq!(rt; window.sample(point(0, 0, 0)), Ok(14));
    assert_eq!(rt; window.sample(point(1, 0, 0)), Ok(15));
    assert_eq!(rt; window.sample(point(0, 0, 1)), Ok(20));
    Ok(())
}

#[test]
fn the_count_of_layers_stops_at_255(rt: HostRuntime) {
    let fault = fresh(Cause::Missing, point(0, 0, 0));
    for layers in [254, 255] {
        assert_eq!(rt; Fault { layers, ..fault }.raised().layers, 255);
    }
}
