ghost use Rattle.std.specs.Prelude.{◌≡◌};
ghost use Rattle.raw.specs.Lengths.{records_fit, raw_count};

use super::tracks::RECORD_BYTES;
use image::check::may_have;

/// The least records of a track.
const RECORDS_LEAST: u32 = 2;

/// The most records of a track.
const RECORDS_MOST: u32 = 256;

/// Whether a track may have so many records.
pub(super) fn records_fit(records: u32) -> bool
    ensures { result ≡ records_fit records }
{
    (RECORDS_LEAST..=RECORDS_MOST).contains(&records)
}

/// How many blocks memory of this length has in so many tracks of so many records, if they fit.
pub fn raw_count(bytes: usize, tracks: usize, records: u32) -> Option<u32>
    ensures { result ≡ raw_count bytes tracks records }
{
    // each track has a block, so more tracks are too many, and no product below overflows
    if !records_fit(records) || !may_have(tracks) {
        return None;
    }
    let records = records as usize;
    let blocks = tracks * (records - 1);
    let fits = bytes == RECORD_BYTES * (records * tracks) && may_have(blocks);
    fits.then(|| blocks as u32)
}
