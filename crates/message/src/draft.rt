ghost use Rattle.std.specs.Prelude.{◌≡◌, ok_or};
ghost use Rattle.flex.specs.Maps.{geometry_at};
ghost use Rattle.flex.specs.declared.status.Status.TheVariants.{AddressBounds};
ghost use Rattle.message.specs.Drafts.{drafted};
ghost use Rattle.message.specs.Messages.{effective, finished, starting, takes_address, takes_command, takes_length, takes_unit, with_address, with_command, with_length, with_unit, with_vector};

use super::command::Command;
use super::message::Message;
use super::parameters::{Parameters, WHOLE_UNIT};
use flex::geometry::Geometry;
use flex::status::Status;
use flex::unit_map::UnitMap;
use flex::vector::Vector;

/// The bytes of a block.
const BLOCK: u32 = 256;

/// What a message has said so far, and the parameters of the host that sends it.
// The unit map is passed beside a draft; kept in it, it would be no plainer: the definitions speak of a draft as a value
// of its own, which any map may be held against.
#[derive(Clone, Copy)]
pub(super) struct Draft {
    pub(super) own: Parameters,
    pub(super) unit: Option<u8>,
    pub(super) address: Option<u32>,
    pub(super) length: Option<u32>,
    pub(super) command: Option<Command>,
}

impl Draft {
    pub(super) fn new(own: Parameters) -> Draft
        ensures { result ≡ starting own }
    {
        Draft {
            own,
            unit: None,
            address: None,
            length: None,
            command: None,
        }
    }

    /// Whether Set Unit may come: only as long as nothing but No Op has.
    pub(super) fn takes_unit(&self) -> bool
        ensures { result ≡ takes_unit self.now }
    {
        self.unit.is_none() && self.takes_address() && self.takes_length()
    }

    /// Whether Set Address may come.
    pub(super) fn takes_address(&self) -> bool
        ensures { result ≡ takes_address self.now }
    {
        self.address.is_none() && self.takes_command()
    }

    /// Whether Set Length may come.
    pub(super) fn takes_length(&self) -> bool
        ensures { result ≡ takes_length self.now }
    {
        self.length.is_none() && self.takes_command()
    }

    /// Whether a real command may come.
    pub(super) fn takes_command(&self) -> bool
        ensures { result ≡ takes_command self.now }
    {
        self.command.is_none()
    }

    /// The unit in effect.
    fn effective(&self) -> u8
        ensures { result ≡ effective self.now }
    {
        self.unit.unwrap_or(self.own.unit)
    }

    pub(super) fn set_unit(&mut self, map: &UnitMap, number: u8) -> Result<(), Status>
        ensures { drafted self.new result ≡ with_unit map.now self.old number }
    {
        map.geometry(number).ok_or(Status::ModuleAddressing)?;
        self.unit = Some(number);
        Ok(())
    }

    /// The geometry of the unit in effect.
    fn geometry(&self, map: &UnitMap) -> Result<Geometry, Status>
        ensures { result ≡ ok_or (geometry_at map.now (effective self.now)) AddressBounds }
    {
        map.geometry(self.effective()).ok_or(Status::AddressBounds)
    }

    /// Sets a single address, of six bytes.
    pub(super) fn set_address(&mut self, map: &UnitMap, address: u64) -> Result<(), Status>
        ensures { drafted self.new result ≡ with_address map.now self.old address }
    {
        let geometry = self.geometry(map)?;
        if address >= u64::from(geometry.size()) {
            return Err(Status::AddressBounds);
        }
        self.address = Some(address as u32);
        Ok(())
    }

    pub(super) fn set_vector(&mut self, map: &UnitMap, vector: Vector) -> Result<(), Status>
        ensures { drafted self.new result ≡ with_vector map.now self.old vector }
    {
        let geometry = self.geometry(map)?;
        let address = geometry.address_at(vector).ok_or(Status::AddressBounds)?;
        self.address = Some(address);
        Ok(())
    }

    pub(super) fn set_length(&mut self, length: u32) -> Result<(), Status>
        ensures { drafted self.new result ≡ with_length self.old length }
    {
        if length % BLOCK == 0 || length == WHOLE_UNIT {
            self.length = Some(length);
            Ok(())
        } else {
            Err(Status::ParameterBounds)
        }
    }

    pub(super) fn set_command(&mut self, command: Command)
        ensures { self.new ≡ with_command self.old command }
    {
        self.command = Some(command);
    }

    /// The message, once all codes have been taken.
    pub(super) fn finish(&self) -> Message
        ensures { result ≡ finished self.now }
    {
        let unit = self.effective();
        let kept = if unit == self.own.unit {
            self.own.address
        } else {
            0
        };
        Message {
            parameters: Parameters {
                unit,
                address: self.address.unwrap_or(kept),
                length: self.length.unwrap_or(self.own.length),
            },
            command: self.command,
        }
    }
}
