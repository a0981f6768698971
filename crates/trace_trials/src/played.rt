use layer::run::Run;
use std::test::Fail;
use trace::images::{play_flat, play_pile, play_raw};

/// Device 1, a stated end of 2, one unit of two blocks from block 0 on.
const HEAD: [u8; 17] = [0, 0, 0, 1, 0, 0, 0, 2, 1, 0, 0, 0, 0, 0, 2, 1, 1];

/// An answer that begins so.
fn answer(front: &[u8]) -> [u8; 16] {
    let mut bytes = [0; 16];
    let count = front.len().min(16);
    bytes[..count].copy_from_slice(&front[..count]);
    bytes
}

/// Calls that move no block, of host 0 and, last but one, of a host that there is not.
#[test]
fn calls_without_blocks(rt: HostRuntime) -> Result<(), Fail> {
    let mut image = [0u8; 512];
    let mut damage = [0u8; 1];
    let mut output = [9u8; 160];
    let mut trace = [0u8; 49];
    trace[..17].copy_from_slice(&HEAD);
    // notice, clear, a message that sets unit 0 and locks the device, locks, parameters, a report of 13 bytes of which two are
    // given, cancel, the fault of host 8, activity
    trace[17..].copy_from_slice(&[
        5, 0, 4, 0, 0, 0, 0, 2, 0x20, 0x63, 8, 0, 7, 0, 2, 0, 0, 0, 0, 13, 0, 0, 0, 2, 0xaa, 0xbb,
        3, 0, 6, 8, 9, 0,
    ]);
    let ending = play_flat(&mut image, &mut damage, &trace, &mut output);
    assert_eq!(rt; ending.number(), 157);
    assert_eq!(rt; &output[..16], answer(&[5, 3, 1]).as_slice());
    assert_eq!(rt; &output[16..32], answer(&[1]).as_slice());
    assert_eq!(rt; &output[32..48], answer(&[3]).as_slice());
    assert_eq!(rt; &output[48..64], answer(&[8, 1]).as_slice());
    assert_eq!(rt;
        &output[64..80],
        answer(&[7, 0, 0, 0, 0, 0, 255, 255, 255, 255]).as_slice()
    );
    assert_eq!(rt; &output[80..96], answer(&[1]).as_slice());
    assert_eq!(rt; &output[96..109], [0u8; 13].as_slice());
    assert_eq!(rt; &output[109..125], answer(&[4]).as_slice());
    assert_eq!(rt; &output[125..141], answer(&[0, 128, 4]).as_slice());
    assert_eq!(rt;
        &output[141..157],
        answer(&[9, 0, 0, 0, 0, 0, 0, 0, 0, 0, 0, 0, 0, 0, 0, 0]).as_slice()
    );
    Ok(())
}

/// A block of a raw image takes what stands in the output, with one byte given.
#[test]
fn raw_block_from_the_output(rt: HostRuntime) -> Result<(), Fail> {
    let mut image = [0u8; 828];
    image[552] = 1;
    let mut output = [9u8; 400];
    let mut trace = [0u8; 57];
    trace[..17].copy_from_slice(&HEAD);
    // clear, a Write of one block from address 1 on, its segment, its report
    trace[17..].copy_from_slice(&[
        4, 0, 0, 0, 0, 13, 0x10, 0, 0, 0, 0, 0, 1, 0x18, 0, 0, 1, 0, 0x02, 1, 0, 0, 0, 1, 0, 0, 0,
        0, 1, 0x55, 2, 0, 0, 0, 0, 13, 0, 0, 0, 0,
    ]);
    let ending = play_raw(&mut image, &[1], 3, &trace, &mut output);
    assert_eq!(rt; ending.number(), 333);
    assert_eq!(rt; &output[16..32], answer(&[2]).as_slice());
    assert_eq!(rt; &output[32..48], answer(&[3]).as_slice());
    assert_eq!(rt; &output[304..320], answer(&[1]).as_slice());
    assert_eq!(rt; &output[320..333], [0u8; 13].as_slice());
    assert_eq!(rt; &output[333..], [9u8; 67].as_slice());
    assert_eq!(rt; &image[552..560], [0, 0, 0, 0, 0, 0, 0x55, 9].as_slice());
    assert_eq!(rt; &image[812..816], [9, 9, 0, 0].as_slice());
    Ok(())
}

/// Of a pile's two blocks the second is guarded; the first reaches the image, past the cache, when the device is powered off.
#[test]
fn pile_guards_its_block(rt: HostRuntime) -> Result<(), Fail> {
    let mut image = [0u8; 1024];
    let mut damage = [0u8; 1];
    let mut output = [9u8; 700];
    let mut trace = [0u8; 48];
    trace[..17].copy_from_slice(&HEAD);
    // clear, a Write of the whole unit, its segment, the fault, the report
    trace[17..].copy_from_slice(&[
        4, 0, 0, 0, 0, 1, 0x02, 1, 0, 0, 0, 2, 0, 0, 0, 0, 0, 6, 0, 2, 0, 0, 0, 0, 13, 0, 0, 0, 0,
        4, 9,
    ]);
    let shown = Run { first: 1, count: 2 };
    let guarded = Run { first: 1, count: 1 };
    let ending = play_pile(&mut image, &mut damage, shown, guarded, &trace, &mut output);
    assert_eq!(rt; ending.number(), 621);
    assert_eq!(rt;
        &output[560..576],
        answer(&[6, 3, 0, 0, 0, 1, 0, 0, 0, 0, 1]).as_slice()
    );
    assert_eq!(rt;
        &output[592..605],
        [1, 5, 4, 0, 0, 0, 0, 0, 0, 0, 0, 0, 0].as_slice()
    );
    assert_eq!(rt; &output[605..621], answer(&[0, 128, 4]).as_slice());
    assert_eq!(rt; &image[254..258], [0, 0, 9, 9].as_slice());
    assert_eq!(rt; &image[510..514], [9, 9, 0, 0].as_slice());
    Ok(())
}

/// Each way to end, and the output where nothing was written.
#[test]
fn endings(rt: HostRuntime) -> Result<(), Fail> {
    let mut image = [0u8; 512];
    let mut damage = [0u8; 1];
    let mut output = [9u8; 31];
    let mut trace = [0u8; 19];
    trace[..17].copy_from_slice(&HEAD);
    trace[17] = 4;
    let whole = play_flat(&mut image, &mut damage, &trace[..17], &mut output).number();
    assert_eq!(rt; whole, 0);
    let no_head = play_flat(&mut image, &mut damage, &trace[..16], &mut output).number();
    assert_eq!(rt; no_head, 1 << 56);
    let no_image = play_flat(&mut image, &mut [0; 2], &trace, &mut output).number();
    assert_eq!(rt; no_image, 2 << 56);
    let no_call = play_flat(&mut image, &mut damage, &trace[..18], &mut output).number();
    assert_eq!(rt; no_call, 4 << 56);
    let no_room = play_flat(&mut image, &mut damage, &trace, &mut output[..15]).number();
    assert_eq!(rt; no_room, 5 << 56);
    assert_eq!(rt; output.as_slice(), [9; 31].as_slice());
    Ok(())
}

/// A unit with no cylinder makes no map: nothing is played.
#[test]
fn a_head_that_makes_no_map(rt: HostRuntime) -> Result<(), Fail> {
    let mut image = [3u8; 512];
    let mut damage = [0u8; 1];
    let mut output = [9u8; 31];
    let mut trace = [0u8; 18];
    trace[..17].copy_from_slice(&HEAD);
    trace[8] = 0;
    trace[17] = 4;
    let no_map = play_flat(&mut image, &mut damage, &trace, &mut output).number();
    assert_eq!(rt; no_map, 3 << 56);
    assert_eq!(rt; image.as_slice(), [3; 512].as_slice());
    assert_eq!(rt; output.as_slice(), [9; 31].as_slice());
    Ok(())
}
