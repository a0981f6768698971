use super::common::*;
use cache::cache::Cache;
use flat::flat::FlatImage;
use layer::guard::WriteGuard;
use layer::run::Run;
use std::test::Fail;
use store::fault::{FaultKind, Protection};
use store::store::Store;

/// A cache may not be let go, so what is asked of one is worked out first and checked once it is released.
fn keeps_all<S: Store>(cache: &Cache<S>, first: u32, last: u32) -> bool {
    (first..last).all(|block| cache.keeps(block))
}

/// Eight blocks are kept and nothing is below; the ninth makes one give way, and only that one is written.
fn ninth_gives_way(cache: &mut Cache<FlatImage<'_, '_>>) -> bool {
    let eight = (0..8u32).all(|block| writes(cache, block, 5))
        && keeps_all(cache, 0, 8)
        && has(cache.below().bytes(), 0, 1)
        && has(cache.below().bytes(), 2047, 1);
    let again = writes(cache, 7, 6)
        && reads(cache, 7, 6)
        && keeps_all(cache, 0, 8)
        && has(cache.below().bytes(), 0, 1);
    let ninth = reads(cache, 8, 1) && cache.keeps(8) && !cache.keeps(0) && keeps_all(cache, 1, 9);
    eight
        && again
        && ninth
        && has(cache.below().bytes(), 0, 5)
        && has(cache.below().bytes(), 256, 1)
}

#[test]
fn a_ninth_block(rt: HostRuntime) -> Result<(), Fail> {
    let mut bytes = [1u8; 2560];
    let mut damage = [0u8; 2];
    {
        let image = FlatImage::over(&mut bytes, &mut damage, Protection::Open);
        let mut cache = Cache::new(image);
        let done = ninth_gives_way(&mut cache);
        drop(cache.release());
        assert!(rt; done);
    }
    assert!(rt;
        bytes[255] == 5
            && bytes[256] == 5
            && bytes[1791] == 5
            && bytes[1792] == 6
            && bytes[2048] == 1
    );
    Ok(())
}

/// Only open blocks whose bytes were read or written are kept, and settling keeps them.
fn keeps_open_ones(cache: &mut Cache<WriteGuard<FlatImage<'_, '_>>>) -> bool {
    let guarded = reads(cache, 0, 1)
        && !cache.keeps(0)
        && write_refused(cache, 0, FaultKind::Protected)
        && !cache.keeps(0);
    let damaged = read_refused(cache, 1, 256, FaultKind::Damaged) && !cache.keeps(1);
    let kept = reads(cache, 2, 1)
        && cache.keeps(2)
        && writes(cache, 1, 4)
        && cache.keeps(1)
        && reads(cache, 1, 4);
    let faults = read_refused(cache, 3, 256, FaultKind::Beyond)
        && read_refused(cache, 2, 255, FaultKind::Length)
        && refused(cache.write(2, &[0u8; 1]), FaultKind::Length, 2);
    let late = has(cache.below().below().damage(), 0, 2);
    cache.settle();
    guarded
        && damaged
        && kept
        && faults
        && late
        && cache.keeps(1)
        && cache.keeps(2)
        && has(cache.below().below().damage(), 0, 0)
}

#[test]
fn what_is_kept(rt: HostRuntime) -> Result<(), Fail> {
    let mut bytes = [1u8; 768];
    let mut damage = [2u8];
    let image = FlatImage::over(&mut bytes, &mut damage, Protection::Open);
    let mut cache = Cache::new(WriteGuard::new(image, Run { first: 0, count: 1 }));
    let done = keeps_open_ones(&mut cache);
    let mut guard = cache.release();
    assert!(rt; done && reads(&mut guard, 1, 4) && is_protected(&guard, 0));
    Ok(())
}
