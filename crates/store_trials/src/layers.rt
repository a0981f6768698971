use super::common::*;
use flat::flat::FlatImage;
use layer::guard::WriteGuard;
use layer::run::Run;
use layer::window::Window;
use std::test::Fail;
use store::fault::{FaultKind, Protection};
use store::store::{ReadStore, Store};

#[test]
fn a_window_renumbers_and_is_cut(rt: HostRuntime) -> Result<(), Fail> {
    let mut bytes = [1u8; 1280];
    let mut damage = [0b0000_0100u8];
    let image = FlatImage::over(&mut bytes, &mut damage, Protection::Open);
    let mut window = Window::new(image, Run { first: 2, count: 9 });
    assert_eq!(rt; window.size(), 3);
    assert!(rt; read_refused(&mut window, 0, 256, FaultKind::Damaged));
    assert!(rt; read_refused(&mut window, 3, 256, FaultKind::Beyond));
    assert!(rt; read_refused(&mut window, 3, 1, FaultKind::Length));
    assert!(rt; writes(&mut window, 1, 8));
    assert!(rt; reads(&mut window, 1, 8));
    assert!(rt; is_open(&window, 2) && is_beyond(&window, 3));
    assert_eq!(rt; window.below().size(), 5);
    let mut image = window.release();
    assert!(rt; reads(&mut image, 3, 8) && reads(&mut image, 1, 1) && reads(&mut image, 4, 1));
    let mut past = Window::new(image, Run { first: 5, count: 3 });
    assert_eq!(rt; past.size(), 0);
    assert!(rt; write_refused(&mut past, 0, FaultKind::Beyond));
    Ok(())
}

#[test]
fn a_guard_protects_one_run_besides(rt: HostRuntime) -> Result<(), Fail> {
    let mut bytes = [1u8; 1280];
    let mut damage = [0u8];
    let image = FlatImage::over(&mut bytes, &mut damage, Protection::Open);
    let mut guard = WriteGuard::new(
        image,
        Run {
            first: 3,
            count: 4_000_000_000,
        },
    );
    assert_eq!(rt; guard.size(), 5);
    assert!(rt;
        is_open(&guard, 2)
            && is_protected(&guard, 3)
            && is_protected(&guard, 4)
            && is_beyond(&guard, 5)
    );
    assert!(rt; write_refused(&mut guard, 3, FaultKind::Protected));
    assert!(rt; write_refused(&mut guard, 5, FaultKind::Beyond));
    assert!(rt; refused(guard.write(3, &[0u8; 3]), FaultKind::Length, 3));
    assert!(rt; writes(&mut guard, 2, 8) && reads(&mut guard, 2, 8) && reads(&mut guard, 3, 1));
    guard.settle();
    let mut image = guard.release();
    assert!(rt; is_open(&image, 3) && writes(&mut image, 3, 4));
    Ok(())
}
