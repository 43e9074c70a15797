use crate::common::{point, refusal};
use block::fault::{Cause, Fault};
use block::packed::Packed;
use block::refusal::Refusal;
use block::source::Source;

// The sample at (x, y, 0).
fn sample(bytes: &[u8], x: u32, y: u32) -> Result<i32, Refusal> {
    Ok(Packed::new(bytes)?.sample(point(x, y, 0))?)
}

#[test]
fn width_1(rt: HostRuntime) {
    let bytes = [0x00, 0x08, 0x02, 0x00, 0x00, 0xb1, 0x80];
    assert_eq!(rt; sample(&bytes, 0, 0), Ok(1));
    assert_eq!(rt; sample(&bytes, 1, 0), Ok(0));
    assert_eq!(rt; sample(&bytes, 1, 2), Ok(1));
    assert_eq!(rt; sample(&bytes, 2, 2), Ok(1));
    let outside = Fault::new(Cause::Outside, point(3, 0, 0));
    assert_eq!(rt; sample(&bytes, 3, 0), Err(Refusal::Faulty(outside)));
}

#[test]
fn width_5(rt: HostRuntime) {
    let bytes = [0x40, 0x08, 0x01, 0x00, 0x00, 0x0f, 0xe0, 0x0a, 0xa8];
    assert_eq!(rt; sample(&bytes, 0, 0), Ok(1));
    assert_eq!(rt; sample(&bytes, 1, 0), Ok(31));
    assert_eq!(rt; sample(&bytes, 2, 0), Ok(16));
    assert_eq!(rt; sample(&bytes, 1, 1), Ok(21));
    assert_eq!(rt; sample(&bytes, 2, 1), Ok(10));
}

#[test]
fn widths_8_13_16(rt: HostRuntime) {
    let eight = [0x70, 0x04, 0x00, 0x00, 0x00, 0xc8, 0x07];
    assert_eq!(rt; sample(&eight, 0, 0), Ok(200));
    assert_eq!(rt; sample(&eight, 1, 0), Ok(7));
    let thirteen = [
        0xc0, 0x04, 0x01, 0x00, 0x00, 0xff, 0xf8, 0x00, 0x60, 0x01, 0x55, 0x50,
    ];
    assert_eq!(rt; sample(&thirteen, 0, 0), Ok(8191));
    assert_eq!(rt; sample(&thirteen, 1, 0), Ok(1));
    assert_eq!(rt; sample(&thirteen, 0, 1), Ok(4096));
    assert_eq!(rt; sample(&thirteen, 1, 1), Ok(5461));
    let sixteen = [
        0xf0, 0x00, 0x02, 0x00, 0x00, 0xff, 0xff, 0x00, 0x01, 0x80, 0x00,
    ];
    assert_eq!(rt; sample(&sixteen, 0, 0), Ok(65535));
    assert_eq!(rt; sample(&sixteen, 0, 1), Ok(1));
    assert_eq!(rt; sample(&sixteen, 0, 2), Ok(32768));
}

#[test]
fn one_byte_short_and_one_long(rt: HostRuntime) {
    let bytes = [0x40, 0x08, 0x01, 0x00, 0x00, 0x0f, 0xe0, 0x0a, 0xa8, 0x00];
    assert_eq!(rt; refusal(Packed::new(&bytes[0..0])), Some(2));
    assert_eq!(rt; refusal(Packed::new(&bytes[0..4])), Some(2));
    assert_eq!(rt; refusal(Packed::new(&bytes[0..5])), Some(2));
    assert_eq!(rt; refusal(Packed::new(&bytes[0..8])), Some(2));
    assert_eq!(rt; refusal(Packed::new(&bytes[0..9])), None);
    assert_eq!(rt; refusal(Packed::new(&bytes)), Some(2));
}

// Each spare bit of the header, and each bit after the last sample.
#[test]
fn spare_bits(rt: HostRuntime) {
    for k in 0u32..6 {
        let header = [0x40, 0x08, 0x01, 0x00, 1u8 << k, 0x0f, 0xe0, 0x0a, 0xa8];
        assert_eq!(rt; refusal(Packed::new(&header)), Some(3));
    }
    for k in 0u32..8 {
        let tail = [0x40, 0x08, 0x01, 0x00, 0x00, 0x0f, 0xe0, 0x0a, 1u8 << k];
        assert_eq!(rt; refusal(Packed::new(&tail)), (k < 2).then_some(3));
    }
    // A wrong length comes before a spare bit.
    let short = [0x40, 0x08, 0x01, 0x00, 0x3f, 0x0f, 0xe0, 0x0a];
    assert_eq!(rt; refusal(Packed::new(&short)), Some(2));
}
