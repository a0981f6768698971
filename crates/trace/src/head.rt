ghost use Rattle.std.specs.Prelude.{◌≡◌};
ghost use Rattle.std.specs.Option.{option_map};
ghost use Rattle.flex.specs.Maps.{Makes};
ghost use Rattle.trace.specs.Heads.{head_in, heading, unit_of};

use super::number::split_u32;
use flex::geometry::Geometry;
use flex::status::Status;
use flex::unit::Unit;
use flex::unit_map::{UNITS, UnitMap};

/// How many bytes a unit has in a head.
const UNIT_BYTES: usize = 8;

/// The head of a trace: the device's number, and what its unit map is made of.
#[derive(Clone, Copy)]
pub struct Head<'t> {
    device: u32,
    end: u32,
    units: &'t [[u8; UNIT_BYTES]],
}

/// The unit that eight bytes tell.
fn unit(bytes: [u8; UNIT_BYTES]) -> Unit
    ensures { result ≡ unit_of bytes }
{
    let [a, b, c, d, e, f, heads, sectors] = bytes;
    Unit {
        first: u32::from_be_bytes([a, b, c, d]),
        geometry: Geometry {
            cylinders: u16::from_be_bytes([e, f]),
            heads,
            sectors,
        },
    }
}

impl<'t> Head<'t> {
    /// The head at the front of a trace, and the calls after it; or none where it is not whole.
    pub fn split(trace: &'t [u8]) -> Option<(Head<'t>, &'t [u8])>
        ensures { option_map (λ p. (heading p.0, p.1.now)) result ≡ head_in trace.now }
    {
        let (device, rest) = split_u32(trace)?;
        let (end, rest) = split_u32(rest)?;
        let (count, rest) = rest.split_first()?;
        let (units, calls) = rest.split_at_checked(UNIT_BYTES * usize::from(*count))?;
        let (units, _) = units.as_chunks();
        Some((Head { device, end, units }, calls))
    }

    /// The device's number.
    pub fn device(self) -> u32
        ensures { result ≡ self.entry.device }
    {
        self.device
    }

    /// The map of the units, with the stated end; or 128/1.
    pub fn map(self) -> Result<UnitMap, Status>
        ensures { Makes (heading self.entry).units self.entry.end result }
    {
        let count = self.units.len();
        if count > UNITS {
            return Err(Status::BadUnitMap);
        }
        // what stands in the places that the head does not fill is not looked at
        let mut units = [unit([0; UNIT_BYTES]); UNITS];
        for (place, bytes) in self.units.iter().enumerate() {
            units[place] = unit(*bytes);
        }
        UnitMap::new(&units[..count], self.end)
    }
}
