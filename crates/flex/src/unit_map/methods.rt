ghost use Rattle.std.specs.Prelude.{◌≡◌, ◌≤◌, true, length, is_ok};
ghost use Rattle.flex.specs.Maps.{block_at, geometry_at, listed, padded, unit_at, Makes, Named};
ghost use Rattle.flex.specs.Units.{Sound};

use super::{CONTROLLER, UNITS, UnitMap};
use crate::geometry::Geometry;
use crate::status::Status;
use crate::unit::Unit;
use crate::units::are_sound;

/// The controller's geometry.
const NO_PLACES: Geometry = Geometry {
    cylinders: 0,
    heads: 0,
    sectors: 0,
};

/// The units, and blank ones after them.
fn table(units: &[Unit]) -> [Unit; UNITS]
    requires { length units.now ≤ 15 }
    ensures { result ≡ padded units.now }
{
    let blank = Unit {
        first: 0,
        geometry: NO_PLACES,
    };
    let mut all = [blank; UNITS];
    all[..units.len()].copy_from_slice(units);
    all
}

impl UnitMap {
    /// A map of the units, numbered from 0, with the stated end; or 128/1.
    pub fn new(units: &[Unit], end: u32) -> Result<UnitMap, Status>
        ensures is { Makes units.now end result }
        ensures law { (is_ok result ≡ true → Sound units.now end) × (Sound units.now end → is_ok result ≡ true) }
    {
        if !are_sound(units, end) {
            return Err(Status::BadUnitMap);
        }
        Ok(UnitMap {
            units: table(units),
            count: units.len() as u8,
            end,
        })
    }

    /// How many units there are.
    pub fn count(&self) -> u8
        ensures { result ≡ self.now.count }
    {
        self.count
    }

    /// The units, in the order of their numbers.
    pub fn units(&self) -> &[Unit]
        ensures { result.now ≡ listed self.now }
    {
        &self.units[..usize::from(self.count)]
    }

    /// The stated end.
    pub fn end(&self) -> u32
        ensures { result ≡ self.now.end }
    {
        self.end
    }

    /// The unit of that number, or none.
    pub fn unit(&self, number: u8) -> Option<Unit>
        ensures { result ≡ unit_at self.now number }
    {
        (number < self.count).then(|| self.units[usize::from(number)])
    }

    /// The geometry that a message for that unit is held against, the controller's too; or none.
    pub fn geometry(&self, number: u8) -> Option<Geometry>
        ensures { result ≡ geometry_at self.now number }
    {
        self.unit(number)
            .map(|unit| unit.geometry)
            .or((number == CONTROLLER).then_some(NO_PLACES))
    }

    /// The block of the store at an address of a unit, or none.
    pub fn block(&self, number: u8, address: u32) -> Option<u32>
        ensures is { result ≡ block_at self.now number address }
        ensures law { Named self.now }
    {
        let unit = self.unit(number)?;
        (address < unit.geometry.size()).then(|| unit.first + address)
    }
}
