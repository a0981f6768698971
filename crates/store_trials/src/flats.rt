use super::common::*;
use flat::flat::FlatImage;
use flat::lengths::flat_count;
use image::refusal::Refusal;
use std::test::Fail;
use store::fault::{FaultKind, Protection};
use store::store::{ReadStore, Store};

#[test]
fn faults_come_in_order(rt: HostRuntime) -> Result<(), Fail> {
    let mut bytes = [3u8; 768];
    let mut damage = [0b0000_0010u8];
    let mut image = FlatImage::over(&mut bytes, &mut damage, Protection::Protected);
    assert_eq!(rt; image.size(), 3);
    assert!(rt; read_refused(&mut image, 9, 255, FaultKind::Length));
    assert!(rt; read_refused(&mut image, 1, 257, FaultKind::Length));
    assert!(rt; read_refused(&mut image, 3, 256, FaultKind::Beyond));
    assert!(rt; read_refused(&mut image, 1, 256, FaultKind::Damaged));
    assert!(rt; reads(&mut image, 2, 3));
    assert!(rt; refused(image.write(9, &[0u8; 255]), FaultKind::Length, 9));
    assert!(rt; write_refused(&mut image, 3, FaultKind::Beyond));
    assert!(rt; write_refused(&mut image, 1, FaultKind::Protected));
    assert!(rt; is_protected(&image, 2));
    assert!(rt; is_beyond(&image, 3));
    Ok(())
}

#[test]
fn a_write_changes_its_bytes_and_its_bit(rt: HostRuntime) -> Result<(), Fail> {
    let mut bytes = [3u8; 2304];
    let mut damage = [0xffu8, 0xff];
    {
        let mut image = FlatImage::over(&mut bytes, &mut damage, Protection::Open);
        assert!(rt; writes(&mut image, 8, 5));
        assert!(rt; writes(&mut image, 3, 6));
        assert!(rt; reads(&mut image, 8, 5));
        assert!(rt; reads(&mut image, 3, 6));
        assert!(rt; is_open(&image, 0));
        assert!(rt; image.damage() == [0b1111_0111u8, 0b1111_1110].as_slice());
        image.settle();
        image.mark_damaged(8);
        image.mark_damaged(9);
    }
    assert!(rt; damage == [0b1111_0111u8, 0b1111_1111]);
    assert!(rt; bytes[767] == 3 && bytes[768] == 6 && bytes[1023] == 6 && bytes[1024] == 3);
    assert!(rt; bytes[2047] == 3 && bytes[2048] == 5 && bytes[2303] == 5);
    Ok(())
}

#[test]
fn lengths_that_do_not_fit_are_refused(rt: HostRuntime) {
    assert!(rt; FlatImage::check(512, 2) == Err(Refusal::Lengths));
    assert!(rt; FlatImage::check(511, 1) == Err(Refusal::Lengths));
    assert!(rt; FlatImage::check(0, 1) == Err(Refusal::Lengths));
    assert!(rt; FlatImage::check(512, 1) == Ok(()));
}

/// An image over memory that is refused has no blocks, and the memory stays as it was.
#[test]
fn over_refused_memory_there_are_no_blocks(rt: HostRuntime) {
    let mut bytes = [3u8; 512];
    let mut damage = [0u8; 2];
    {
        let mut image = FlatImage::over(&mut bytes, &mut damage, Protection::Open);
        assert_eq!(rt; image.size(), 0);
        assert!(rt; write_refused(&mut image, 0, FaultKind::Beyond));
        image.mark_damaged(0);
    }
    assert!(rt; bytes == [3u8; 512] && damage == [0u8; 2]);
}

#[test]
fn an_image_of_no_blocks_fits(rt: HostRuntime) -> Result<(), Fail> {
    let mut bytes = [0u8; 0];
    let mut damage = [0u8; 0];
    let mut image = FlatImage::over(&mut bytes, &mut damage, Protection::Open);
    assert_eq!(rt; image.size(), 0);
    assert!(rt; read_refused(&mut image, 0, 256, FaultKind::Beyond));
    assert!(rt; write_refused(&mut image, 0, FaultKind::Beyond));
    assert!(rt; is_beyond(&image, 0));
    Ok(())
}

#[test]
fn the_largest_count(rt: HostRuntime) {
    assert_eq!(rt; flat_count(1_073_741_824, 524_288), Some(4_194_304));
    assert_eq!(rt; flat_count(1_073_742_080, 524_289), None);
    assert_eq!(rt; flat_count(1_073_741_568, 524_288), Some(4_194_303));
    assert_eq!(rt; flat_count(usize::MAX, usize::MAX), None);
    assert_eq!(rt; flat_count(2304, 2), Some(9));
}
