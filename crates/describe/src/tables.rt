//! The tables of a description. Each begins with its size in 2 bytes, its type, the size of its header, the count of its records, and the size of a record.
ghost use Rattle.std.specs.Prelude.{◌≡◌, ◌≤◌};
ghost use Rattle.describe.specs.Descriptions.{controller_table, terminator, unit_table};

use flex::geometry::Geometry;

/// The bytes of the controller's table.
pub(super) const CONTROLLER_BYTES: usize = 14;
/// The bytes of a unit's table.
pub(super) const UNIT_BYTES: usize = 38;
/// The bytes of the table that ends the list.
pub(super) const TERMINATOR_BYTES: usize = 6;

/// The controller's table, for the host that asks: type 3, with a header of 8 bytes.
pub(super) fn controller_table(units: u8, host: u8) -> [u8; CONTROLLER_BYTES]
    requires { units ≤ 15 }
    ensures { result ≡ controller_table units host }
{
    // a bit for each unit
    let [high, low] = ((1u16 << units) - 1).to_be_bytes();
    [
        0x00, 0x0e, 0x03, 0x08, 0x00, 0x00, //
        high, low, 0x13, 0x88, 0x02, host, 0x08, 0x00,
    ]
}

/// A unit's table: type 4, with a header of 18 bytes and one record of 14 bytes, its volume.
pub(super) fn unit_table(number: u8, geometry: Geometry) -> [u8; UNIT_BYTES]
    ensures { result ≡ unit_table number geometry }
{
    let [_, c1, c2, c3] = u32::from(geometry.cylinders)
        .saturating_sub(1)
        .to_be_bytes();
    let head = geometry.heads.saturating_sub(1);
    let [s1, s2] = u16::from(geometry.sectors).saturating_sub(1).to_be_bytes();
    let [_, _, a1, a2, a3, a4, a5, a6] = u64::from(geometry.size()).saturating_sub(1).to_be_bytes();
    [
        // 38 bytes of type 4, with a header of 18 and one record of 14
        0x00, 0x26, 0x04, 0x12, 0x01, 0x0e, //
        // a fixed disc, product 07937 option 1, blocks of 256 bytes, 128 of them buffered
        number, 0x00, 0x07, 0x93, 0x71, 0x01, 0x00, 0x80, 0x00, //
        // its times and rates: 179, 1800, 80 and 84
        0x00, 0xb3, 0x07, 0x08, 0x00, 0x50, 0x00, 0x54, 0x01, //
        // the largest cylinder, head, sector and address, the interleave factor, and the number of the volume
        c1, c2, c3, head, s1, s2, a1, a2, a3, a4, a5, a6, 0x01, 0x00,
    ]
}

/// The table that ends the list: type FFH, with nothing in it.
pub(super) fn terminator() -> [u8; TERMINATOR_BYTES]
    ensures { result ≡ terminator }
{
    [0x00, 0x06, 0xff, 0x00, 0x00, 0x00]
}
