use super::common::*;
use image::refusal::Refusal;
use raw::lengths::raw_count;
use raw::raw::RawImage;
use std::test::Fail;
use store::fault::{FaultKind, Protection};
use store::store::{ReadStore, Store};

#[test]
fn faults_come_in_order(rt: HostRuntime) -> Result<(), Fail> {
    let mut bytes = [0u8; 1656];
    let spares = [0u8, 2];
    // block 1 is the third record of track 0, block 3 the second of track 1
    bytes[552] = 1;
    bytes[1104] = 255;
    let mut image = RawImage::over(&mut bytes, &spares, 3, Protection::Protected);
    assert_eq!(rt; image.size(), 4);
    assert!(rt; read_refused(&mut image, 4, 0, FaultKind::Length));
    assert!(rt; read_refused(&mut image, 4, 256, FaultKind::Beyond));
    assert!(rt; read_refused(&mut image, 1, 256, FaultKind::Damaged));
    assert!(rt; read_refused(&mut image, 3, 256, FaultKind::Damaged));
    assert!(rt; reads(&mut image, 0, 0));
    assert!(rt; reads(&mut image, 2, 0));
    assert!(rt; write_refused(&mut image, 2, FaultKind::Protected));
    assert!(rt; is_protected(&image, 0));
    assert!(rt; is_beyond(&image, 4));
    Ok(())
}

#[test]
fn a_write_changes_one_record(rt: HostRuntime) -> Result<(), Fail> {
    let mut bytes = [7u8; 1656];
    let spares = [0u8, 2];
    {
        let mut image = RawImage::over(&mut bytes, &spares, 3, Protection::Open);
        assert!(rt; writes(&mut image, 3, 9));
        assert!(rt; reads(&mut image, 3, 9));
        assert!(rt; read_refused(&mut image, 2, 256, FaultKind::Damaged));
        assert_eq!(rt; image.spares().len(), 2);
        image.mark_damaged(3);
        image.mark_damaged(4);
        assert!(rt; read_refused(&mut image, 3, 256, FaultKind::Damaged));
    }
    assert!(rt; bytes[1103] == 7 && bytes[1104] == 1 && bytes[1105] == 7 && bytes[1109] == 7);
    assert!(rt;
        bytes[1110] == 9
            && bytes[1365] == 9
            && bytes[1366] == 7
            && bytes[1379] == 7
            && bytes[1380] == 7
    );
    Ok(())
}

/// Why an image on so many bytes is refused.
fn refusal(bytes: usize, spares: &[u8], records: u32) -> Option<Refusal> {
    RawImage::check(bytes, spares, records).err()
}

#[test]
fn refusals_come_in_order(rt: HostRuntime) {
    assert!(rt; refusal(1104, &[9u8], 1) == Some(Refusal::Records));
    assert!(rt; refusal(1104, &[9u8], 257) == Some(Refusal::Records));
    assert!(rt; refusal(1104, &[9u8], 3) == Some(Refusal::Lengths));
    assert!(rt; refusal(1104, &[1u8, 2], 2) == Some(Refusal::Spare { track: 1 }));
    assert!(rt; refusal(1104, &[1u8, 0], 2) == None);
}

#[test]
fn an_image_of_no_blocks_fits(rt: HostRuntime) -> Result<(), Fail> {
    let mut bytes = [0u8; 0];
    let spares = [0u8; 0];
    let mut image = RawImage::over(&mut bytes, &spares, 2, Protection::Open);
    assert_eq!(rt; image.size(), 0);
    assert!(rt; read_refused(&mut image, 0, 256, FaultKind::Beyond));
    Ok(())
}

#[test]
fn the_largest_count(rt: HostRuntime) {
    assert_eq!(rt; raw_count(2_315_255_808, 4_194_304, 2), Some(4_194_304));
    assert_eq!(rt; raw_count(2_315_256_360, 4_194_305, 2), None);
    assert_eq!(rt; raw_count(1_162_149_888, 16_448, 256), Some(4_194_240));
    assert_eq!(rt; raw_count(1_162_220_544, 16_449, 256), None);
    assert_eq!(rt; raw_count(usize::MAX, usize::MAX, 256), None);
}
