ghost use Rattle.std.specs.Prelude.{◌≡◌, ◌≤◌, true, length, take};
ghost use Rattle.std.specs.List.{list_all};
ghost use Rattle.store.specs.Counts.{most_blocks};
ghost use Rattle.flex.specs.Units.{all_apart, counted, inside};

use super::unit::Unit;

mod methods;

/// The most units of a map.
pub const UNITS: usize = 15;
/// The number of the controller, which messages may address as a unit with no place.
pub const CONTROLLER: u8 = 15;

/// The units of a device, from number 0 on, and the end that they keep to.
/// A value exists only where no block is in two units and none is past the end.
#[derive(Clone, Copy)]
pub struct UnitMap {
    units: [Unit; UNITS],
    // An array with its count beside it: the device has no heap, and the kit's ArrayVec is not Copy, which a map is
    // for its callers.
    count: u8,
    end: u32,
    ghost full: { length units ≡ 15 },
    ghost some: { 1 ≤ count },
    ghost few: { count ≤ 15 },
    ghost reachable: { end ≤ most_blocks },
    ghost counts: { list_all counted (take count units) ≡ true },
    ghost once: { all_apart (take count units) ≡ true },
    ghost within: { list_all (inside end) (take count units) ≡ true },
}
