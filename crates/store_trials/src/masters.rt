use super::common::*;
use flat::flat::FlatImage;
use layer::run::Run;
use layer::window::Window;
use master::compare::compare;
use master::master::Master;
use std::test::Fail;
use store::fault::{FaultKind, Protection};
use store::store::ReadStore;

#[test]
fn a_master_is_read(rt: HostRuntime) -> Result<(), Fail> {
    let mut bytes = [3u8; 768];
    bytes[256..512].fill(4);
    let mut master = Master::new(&bytes);
    assert_eq!(rt; master.size(), 3);
    assert!(rt; reads(&mut master, 0, 3));
    assert!(rt; reads(&mut master, 1, 4));
    assert!(rt; read_refused(&mut master, 3, 256, FaultKind::Beyond));
    assert!(rt; read_refused(&mut master, 9, 255, FaultKind::Length));
    let mut window = Window::new(master, Run { first: 1, count: 9 });
    assert_eq!(rt; window.size(), 2);
    assert!(rt; reads(&mut window, 0, 4));
    assert!(rt; reads(&mut window, 1, 3));
    assert!(rt; read_refused(&mut window, 2, 256, FaultKind::Beyond));
    Ok(())
}

#[test]
fn memory_that_is_not_whole_shows_none(rt: HostRuntime) -> Result<(), Fail> {
    let bytes = [3u8; 513];
    let mut master = Master::new(&bytes);
    assert_eq!(rt; master.size(), 0);
    assert!(rt; read_refused(&mut master, 0, 256, FaultKind::Beyond));
    Ok(())
}

#[test]
fn the_first_unlike_block(rt: HostRuntime) -> Result<(), Fail> {
    let mut bytes = [3u8; 768];
    let mut damage = [0u8];
    let copy = [3u8; 768];
    let shorter = [3u8; 512];
    let mut other = [3u8; 768];
    other[511] = 4;
    let mut image = FlatImage::over(&mut bytes, &mut damage, Protection::Open);
    assert_eq!(rt; compare(&mut image, &mut Master::new(&copy)), None);
    assert_eq!(rt; compare(&mut image, &mut Master::new(&shorter)), Some(2));
    assert_eq!(rt; compare(&mut Master::new(&shorter), &mut image), Some(2));
    assert_eq!(rt; compare(&mut image, &mut Master::new(&other)), Some(1));
    image.mark_damaged(0);
    assert_eq!(rt; compare(&mut image, &mut Master::new(&copy)), Some(0));
    assert_eq!(rt; compare(&mut Master::new(&copy), &mut image), Some(0));
    Ok(())
}

#[test]
fn units_are_compared_through_windows(rt: HostRuntime) -> Result<(), Fail> {
    let mut bytes = [3u8; 1024];
    bytes[768..].fill(5);
    let mut damage = [0u8];
    let master = [3u8; 512];
    let image = FlatImage::over(&mut bytes, &mut damage, Protection::Open);
    let mut unit = Window::new(image, Run { first: 1, count: 2 });
    assert_eq!(rt; compare(&mut unit, &mut Master::new(&master)), None);
    let mut whole = Window::new(unit.release(), Run { first: 2, count: 9 });
    assert_eq!(rt; compare(&mut whole, &mut Master::new(&master)), Some(1));
    let mut past = Window::new(Master::new(&master), Run { first: 9, count: 1 });
    let mut empty = Window::new(whole.release(), Run { first: 0, count: 0 });
    assert_eq!(rt; compare(&mut empty, &mut past), None);
    Ok(())
}
