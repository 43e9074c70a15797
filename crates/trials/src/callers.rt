// Ways in which a caller may hold a source or a shell. They have a proof only while these types have no ghost field.
use crate::common::sizes;
use block::packed::Packed;
use block::raster::Raster;
use block::refusal::Refusal;
use block::source::Source;
use cell::level::{Height, Level};
use shell::{Shell, shell_of};

// A source by value beside a `&mut`.
fn width_into(pair: (Raster, &mut u32)) -> u32 {
    let (raster, width) = pair;
    *width = raster.sizes().x;
    *width
}

// Sources in an array behind a reference.
fn first_width(all: &[Packed; 2]) -> u32 {
    all[0].sizes().x
}

#[derive(Drop)]
struct Scan<'a, 'b> {
    source: Raster<'a>,
    tally: &'b mut u32,
}

impl Scan<'_, '_> {
    fn start(&mut self) {
        *self.tally = 3;
    }
}

// A parameter that is lent as `&mut`.
fn started(mut scan: Scan) -> u32 {
    scan.start();
    *scan.tally
}

fn rows(scan: &Scan) -> u32 {
    scan.source.sizes().y
}

// Any count may be written into a shell.
fn with_count(shell: Shell, triangle_count: usize) -> Shell {
    Shell {
        triangle_count,
        ..shell
    }
}

#[test]
fn sources_beside_a_loan(rt: HostRuntime) -> Result<(), Refusal> {
    let row = [7i16; 6];
    let raster = Raster::new(sizes(3, 2, 1), &row)?;
    let mut n = 0;
    assert_eq!(rt; width_into((raster, &mut n)), 3);
    assert_eq!(rt; n, 3);
    let scan = Scan {
        source: raster,
        tally: &mut n,
    };
    assert_eq!(rt; rows(&scan), 2);
    assert_eq!(rt; started(scan), 3);
    Ok(())
}

#[test]
fn sources_in_an_array(rt: HostRuntime) -> Result<(), Refusal> {
    // Two samples of one bit.
    let block = Packed::new(&[0, 4, 0, 0, 0, 128])?;
    assert_eq!(rt; first_width(&[block, block]), 2);
    Ok(())
}

#[test]
fn a_shell_by_struct_update(rt: HostRuntime) -> Result<(), Refusal> {
    let Some(above) = Level::new(0, 1)?.height(1) else {
        return Err(Refusal::Level);
    };
    let heights: [Height; 8] = [above; 8];
    let count = shell_of(&heights).map(|shell| shell.triangle_count);
    assert_eq!(rt; count, Some(0));
    let count = shell_of(&heights).map(|shell| with_count(shell, 40).triangle_count);
    assert_eq!(rt; count, Some(40));
    Ok(())
}
