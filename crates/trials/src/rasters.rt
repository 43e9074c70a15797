use crate::common::{fresh, point, refusal, sizes};
use block::fault::Cause;
use block::raster::Raster;
use block::refusal::Refusal;
use block::source::Source;

#[test]
fn sizes_from_one_to_1024(rt: HostRuntime) {
    let row = [0i16; 1025];
    assert_eq!(rt; refusal(Raster::new(sizes(1, 1, 1), &row[0..1])), None);
    assert_eq!(rt;
        refusal(Raster::new(sizes(1024, 1, 1), &row[0..1024])),
        None
    );
    assert_eq!(rt;
        refusal(Raster::new(sizes(1, 1024, 1), &row[0..1024])),
        None
    );
    assert_eq!(rt;
        refusal(Raster::new(sizes(1, 1, 1024), &row[0..1024])),
        None
    );
    assert_eq!(rt; refusal(Raster::new(sizes(1025, 1, 1), &row)), Some(1));
    assert_eq!(rt; refusal(Raster::new(sizes(1, 1025, 1), &row)), Some(1));
    assert_eq!(rt; refusal(Raster::new(sizes(1, 1, 1025), &row)), Some(1));
    assert_eq!(rt; refusal(Raster::new(sizes(0, 1, 1), &row[0..0])), Some(1));
    assert_eq!(rt; refusal(Raster::new(sizes(1, 0, 1), &row[0..0])), Some(1));
    assert_eq!(rt; refusal(Raster::new(sizes(1, 1, 0), &row[0..0])), Some(1));
    // A size out of limits comes before a length that is wrong.
    assert_eq!(rt;
        refusal(Raster::new(sizes(4294967295, 4294967295, 4294967295), &row)),
        Some(1)
    );
}

#[test]
fn as_many_samples_as_points(rt: HostRuntime) {
    let row = [0i16; 25];
    assert_eq!(rt; refusal(Raster::new(sizes(2, 3, 4), &row[0..23])), Some(2));
    assert_eq!(rt; refusal(Raster::new(sizes(2, 3, 4), &row[0..24])), None);
    assert_eq!(rt; refusal(Raster::new(sizes(2, 3, 4), &row)), Some(2));
}

#[test]
fn storage_order_and_faults(rt: HostRuntime) -> Result<(), Refusal> {
    let row = [10, 11, 12, 13, 14, 15, 16, 17, 18, 19, -32767, -32768];
    let raster = Raster::new(sizes(3, 2, 2), &row)?;
    assert_eq!(rt; raster.sample(point(1, 0, 0)), Ok(11));
    assert_eq!(rt; raster.sample(point(0, 1, 0)), Ok(13));
    assert_eq!(rt; raster.sample(point(0, 0, 1)), Ok(16));
    assert_eq!(rt; raster.sample(point(1, 1, 1)), Ok(-32767));
    let last = point(2, 1, 1);
    assert_eq!(rt; raster.sample(last), Err(fresh(Cause::Missing, last)));
    let past = point(3, 0, 0);
    assert_eq!(rt; raster.sample(past), Err(fresh(Cause::Outside, past)));
    Ok(())
}
