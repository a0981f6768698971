//! A small map to try messages on.
use flex::geometry::Geometry;
use flex::status::Status;
use flex::unit::Unit;
use flex::unit_map::UnitMap;

pub(super) fn unit(first: u32, cylinders: u16, heads: u8, sectors: u8) -> Unit {
    Unit {
        first,
        geometry: Geometry {
            cylinders,
            heads,
            sectors,
        },
    }
}

/// Unit 0 has 40 blocks from block 0 on, and unit 1 has 24 from block 40 on.
pub(super) fn two_units() -> Result<UnitMap, Status> {
    UnitMap::new(&[unit(0, 4, 2, 5), unit(40, 3, 1, 8)], 64)
}
