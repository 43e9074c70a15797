use crate::common::refusal;
use block::refusal::Refusal;
use block::source::Source;
use cell::level::Level;
use job::{CellKind, Job};

// A job with this header and a block of one sample.
fn with_header(b0: u8, b1: u8, b2: u8, b3: u8, b4: u8) -> [u8; 11] {
    [b0, b1, b2, b3, b4, 0x70, 0x00, 0x00, 0x00, 0x00, 0x01]
}

// p and q of a job.
fn level(bytes: &[u8]) -> Result<(i32, u32), Refusal> {
    let job = Job::decode(bytes)?;
    Ok((job.p, job.q))
}

#[test]
fn levels_of_jobs(rt: HostRuntime) {
    assert_eq!(rt;
        level(&with_header(0xe0, 0x00, 0x00, 0x00, 0x00)),
        Ok((-16777216, 1))
    );
    assert_eq!(rt;
        level(&with_header(0x7f, 0xff, 0xff, 0xff, 0xe0)),
        Ok((-1, 256))
    );
    assert_eq!(rt;
        level(&with_header(0x20, 0x00, 0x00, 0x1f, 0xe0)),
        Ok((16777216, 256))
    );
    assert_eq!(rt;
        level(&with_header(0x80, 0x00, 0x00, 0x20, 0x20)),
        Ok((1, 2))
    );
}

#[test]
fn kinds_and_blocks(rt: HostRuntime) -> Result<(), Refusal> {
    let bytes = [
        0x80, 0x00, 0x00, 0x20, 0x20, 0x00, 0x04, 0x01, 0x00, 0x40, 0x80,
    ];
    let job = Job::decode(&bytes)?;
    assert_eq!(rt; job.kind, CellKind::Voxel);
    assert_eq!(rt; job.block.sizes().z, 2);
    let pixels = with_header(0x00, 0x00, 0x00, 0x20, 0x20);
    let job = Job::decode(&pixels)?;
    assert_eq!(rt; job.kind, CellKind::Pixel);
    Ok(())
}

#[test]
fn lengths_and_spare_bits(rt: HostRuntime) {
    let good = with_header(0x80, 0x00, 0x00, 0x20, 0x20);
    assert_eq!(rt; refusal(Job::decode(&good)), None);
    assert_eq!(rt; refusal(Job::decode(&good[0..4])), Some(2));
    assert_eq!(rt; refusal(Job::decode(&good[0..9])), Some(2));
    assert_eq!(rt; refusal(Job::decode(&good[0..10])), Some(2));
    for k in 0u32..5 {
        let spare = with_header(0x80, 0x00, 0x00, 0x20, 0x20 + (1u8 << k));
        assert_eq!(rt; refusal(Job::decode(&spare)), Some(3));
    }
    // A block that is cut short comes before a spare bit of the job.
    let spare = with_header(0x80, 0x00, 0x00, 0x20, 0x21);
    assert_eq!(rt; refusal(Job::decode(&spare[0..10])), Some(2));
    assert_eq!(rt; refusal(Job::decode(&[0u8; 1025])), Some(2));
}

// A job of one row of samples, n bytes long in all: 1,024 is the most.
#[test]
fn the_longest_job(rt: HostRuntime) {
    let mut bytes = [0u8; 1025];
    bytes[5] = 0x7f;
    bytes[6] = 0xd4;
    assert_eq!(rt; refusal(Job::decode(&bytes[0..1024])), None);
    assert_eq!(rt; refusal(Job::decode(&bytes[0..1023])), Some(2));
    bytes[6] = 0xd8;
    assert_eq!(rt; refusal(Job::decode(&bytes)), Some(2));
}

#[test]
fn limits_of_the_level(rt: HostRuntime) {
    assert_eq!(rt; refusal(Level::new(16777216, 256)), None);
    assert_eq!(rt; refusal(Level::new(-16777216, 1)), None);
    assert_eq!(rt; refusal(Level::new(16777217, 1)), Some(5));
    assert_eq!(rt; refusal(Level::new(-16777217, 1)), Some(5));
    assert_eq!(rt; refusal(Level::new(0, 0)), Some(5));
    assert_eq!(rt; refusal(Level::new(0, 257)), Some(5));
}
