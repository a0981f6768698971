use super::common::*;
use cache::cache::Cache;
use flat::flat::FlatImage;
use layer::guard::WriteGuard;
use layer::run::Run;
use layer::window::Window;
use raw::raw::RawImage;
use std::test::Fail;
use store::calls::{put_block, settle_down};
use store::fault::{FaultKind, Protection};
use store::store::{ReadStore, Store};

/// What a pile of blocks 1 to 3 of an image of ones answers, of which the second damaged, and the first guarded.
fn answers<S: Store>(pile: &mut S) -> bool {
    let shown = pile.size() == 3
        && reads(pile, 0, 1)
        && read_refused(pile, 1, 256, FaultKind::Damaged)
        && is_beyond(pile, 3);
    let guarded = is_protected(pile, 0) && write_refused(pile, 0, FaultKind::Protected);
    let written = put_block(pile, 1, &[6u8; 256]) == Ok(())
        && reads(pile, 1, 6)
        && reads(pile, 2, 1);
    settle_down(pile);
    shown && guarded && written && reads(pile, 1, 6)
}

/// Cache over guard over window over window over an image: no more is proved of it than of its parts.
fn through<S: Store>(image: S) -> (bool, S) {
    let window = Window::new(
        Window::new(image, Run { first: 0, count: 4 }),
        Run { first: 1, count: 9 },
    );
    let mut cache = Cache::new(WriteGuard::new(window, Run { first: 0, count: 1 }));
    let fine = answers(&mut cache);
    let window = cache.release().release();
    (fine, window.release().release())
}

#[test]
fn over_a_flat_image(rt: HostRuntime) -> Result<(), Fail> {
    let mut bytes = [1u8; 1280];
    let mut damage = [0b0001_0100u8];
    let image = FlatImage::over(&mut bytes, &mut damage, Protection::Open);
    let (fine, image) = through(image);
    assert!(rt; fine);
    assert!(rt;
        has(image.bytes(), 511, 1)
            && has(image.bytes(), 512, 6)
            && has(image.bytes(), 767, 6)
            && has(image.bytes(), 768, 1)
    );
    assert!(rt; image.damage() == [0b0001_0000u8].as_slice());
    Ok(())
}

#[test]
fn over_a_raw_image(rt: HostRuntime) -> Result<(), Fail> {
    let mut bytes = [1u8; 1656];
    let spares = [1u8, 1, 1];
    // header byte 0 of the first record of each track, which is its block: the third is damaged
    bytes[0] = 0;
    bytes[552] = 0;
    bytes[1104] = 3;
    let image = RawImage::over(&mut bytes, &spares, 2, Protection::Open);
    assert_eq!(rt; image.size(), 3);
    let window = Window::new(image, Run { first: 0, count: 3 });
    let mut cache = Cache::new(window);
    let fine = read_refused(&mut cache, 2, 256, FaultKind::Damaged)
        && writes(&mut cache, 2, 6)
        && reads(&mut cache, 0, 1);
    let image = cache.release().release();
    assert!(rt; fine);
    assert!(rt;
        has(image.bytes(), 1103, 1) && has(image.bytes(), 1104, 0) && has(image.bytes(), 1105, 1)
    );
    assert!(rt;
        has(image.bytes(), 1110, 6) && has(image.bytes(), 1365, 6) && has(image.bytes(), 1366, 1)
    );
    Ok(())
}
