use crate::small::{two_units, unit};
use flex::status::Status;
use flex::unit::Unit;
use flex::unit_map::UnitMap;
use std::array;
use std::process::Abort;
use std::test::Fail;

fn no_map(rt: &impl Abort, units: &[Unit], end: u32) {
    assert_eq!(rt; UnitMap::new(units, end).err(), Some(Status::BadUnitMap));
}

#[test]
fn maps_refused_for_counts(rt: HostRuntime) {
    no_map(&rt, &[], 64);
    no_map(&rt, &[unit(0, 1, 1, 1); 16], 64);
    no_map(&rt, &[unit(0, 1, 1, 1)], 4_194_305);
    no_map(&rt, &[unit(0, 0, 2, 5)], 64);
    no_map(&rt, &[unit(0, 4, 0, 5)], 64);
    no_map(&rt, &[unit(0, 4, 2, 0)], 64);
}

#[test]
fn maps_refused_for_overlap_and_end(rt: HostRuntime) {
    no_map(&rt, &[unit(0, 4, 2, 5), unit(39, 3, 1, 8)], 64);
    no_map(&rt, &[unit(24, 4, 2, 5), unit(1, 3, 1, 8)], 64);
    no_map(
        &rt,
        &[unit(0, 1, 1, 9), unit(20, 1, 1, 9), unit(8, 1, 1, 9)],
        64,
    );
    no_map(&rt, &[unit(0, 4, 2, 5), unit(41, 3, 1, 8)], 64);
    no_map(&rt, &[unit(25, 4, 2, 5)], 64);
    no_map(&rt, &[unit(4_294_967_295, 65_535, 255, 255)], 4_194_304);
}

#[test]
fn what_a_map_answers(rt: HostRuntime) -> Result<(), Fail> {
    let map = two_units()?;
    assert_eq!(rt; map.count(), 2);
    assert_eq!(rt; map.end(), 64);
    assert_eq!(rt; map.unit(1), Some(unit(40, 3, 1, 8)));
    assert_eq!(rt; map.unit(2), None);
    assert_eq!(rt; map.unit(15), None);
    assert_eq!(rt; map.geometry(0), Some(unit(0, 4, 2, 5).geometry));
    assert_eq!(rt; map.geometry(14), None);
    assert_eq!(rt; map.geometry(15), Some(unit(0, 0, 0, 0).geometry));
    assert_eq!(rt; map.geometry(16), None);
    assert_eq!(rt; map.block(0, 39), Some(39));
    assert_eq!(rt; map.block(0, 40), None);
    assert_eq!(rt; map.block(1, 23), Some(63));
    assert_eq!(rt; map.block(2, 0), None);
    assert_eq!(rt; map.block(15, 0), None);
    Ok(())
}

#[test]
fn fifteen_units(rt: HostRuntime) -> Result<(), Fail> {
    let units: [Unit; 15] = array::from_fn(|n| unit(4_194_303 - n as u32, 1, 1, 1));
    let map = UnitMap::new(&units, 4_194_304)?;
    assert_eq!(rt; map.count(), 15);
    for n in 0..15u8 {
        assert_eq!(rt; map.block(n, 0), Some(4_194_303 - u32::from(n)));
    }
    assert_eq!(rt; map.unit(15), None);
    Ok(())
}
