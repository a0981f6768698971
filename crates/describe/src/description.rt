ghost use Rattle.std.specs.Prelude.{◌≡◌, ◌*◌, length, IfOk};
ghost use Rattle.flex.specs.Maps.{listed};
ghost use Rattle.describe.specs.Descriptions.{answer_for, described, unit_tables};
ghost use Rattle.describe.specs.Readers.{ReadBack};

use super::tables::{
    CONTROLLER_BYTES, TERMINATOR_BYTES, UNIT_BYTES, controller_table, terminator, unit_table,
};
use flex::status::Status;
use flex::unit_map::UnitMap;

/// The bytes of the message's length, which stands first.
const LENGTH_BYTES: usize = 2;
/// Where the tables of the units begin.
const UNITS_AT: usize = LENGTH_BYTES + CONTROLLER_BYTES;

/// Fills a part of the buffer with the tables of the units.
fn write_units(map: &UnitMap, part: &mut [u8])
    requires { length part.old ≡ 38 * map.now.count }
    ensures { part.new ≡ unit_tables 0 (listed map.now) }
{
    for (place, unit) in map.units().iter().enumerate() {
        let at = UNIT_BYTES * place;
        part[at..at + UNIT_BYTES].copy_from_slice(&unit_table(place as u8, unit.geometry));
    }
}

/// Writes what the controller and its units are, for the host that asks, into the front of the buffer; or 128/5, where the
/// buffer is too short.
pub fn describe(map: &UnitMap, host: u8, buffer: &mut [u8]) -> Result<(), Status>
    ensures is { result ≡ answer_for map.now host buffer.old }
    ensures buffer { buffer.new ≡ described map.now host buffer.old }
    ensures law { IfOk result (λ _. ReadBack map.now host buffer.new) }
{
    let units_end = UNITS_AT + UNIT_BYTES * usize::from(map.count());
    let end = units_end + TERMINATOR_BYTES;
    if buffer.len() < end {
        return Err(Status::BadBuffer);
    }
    buffer[..LENGTH_BYTES].copy_from_slice(&((end - LENGTH_BYTES) as u16).to_be_bytes());
    buffer[LENGTH_BYTES..UNITS_AT].copy_from_slice(&controller_table(map.count(), host));
    write_units(map, &mut buffer[UNITS_AT..units_end]);
    buffer[units_end..end].copy_from_slice(&terminator());
    Ok(())
}
