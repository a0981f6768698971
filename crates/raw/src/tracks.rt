ghost use Rattle.std.specs.Prelude.{◌≡◌, ◌-◌, ◌*◌, ◌/◌, ◌<◌, ◌≤◌, length};
ghost use Rattle.raw.specs.Lengths.{misplaced};
ghost use Rattle.raw.specs.Raw.{raw_record};

/// The bytes of a record: its header, the block's data, CRC and ECC.
pub(super) const RECORD_BYTES: usize = 276;

/// The bytes of a record's header, before the data.
pub(super) const HEADER_BYTES: usize = 6;

// The spare places and the records of a track go together, as fields of the image: a type of the two would be made for
// each of these calls, and be no plainer.

/// The byte at which the record of a block begins.
pub(super) fn record_start(spares: &[u8], records: u32, block: u32) -> usize
    requires least { 2 ≤ records }
    requires most { records ≤ 256 }
    requires track { block / (records - 1) < length spares.now }
    ensures { result ≡ 276 * raw_record spares.now records block }
{
    // a division of 32 bits takes less than one of 64
    let blocks = records - 1;
    let track = (block / blocks) as usize;
    let nth = block % blocks;
    let place = if nth < u32::from(spares[track]) {
        nth
    } else {
        nth + 1
    };
    RECORD_BYTES * (track * records as usize + place as usize)
}

/// The first track whose spare place is not in the track.
pub(super) fn first_misplaced(spares: &[u8], records: u32) -> Option<u32>
    requires { length spares.now < 4294967296 }
    ensures { result ≡ misplaced records spares.now }
{
    let track = spares
        .iter()
        .position(|place| u32::from(*place) >= records)?;
    Some(track as u32)
}
