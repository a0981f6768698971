ghost use Rattle.std.specs.Prelude.{◌≡◌};
ghost use Rattle.host.specs.Hosts.{is_on};
ghost use Rattle.host.specs.Messages.{address_after, blocks_asked, describes, fits, moves, moving, opened, reporting, unit_size, unmoving};
ghost use Rattle.host.specs.Progress.{address_past, advanced, left_after, lies_in, phase_after, segment_of};

use super::progress::Progress;
use flex::unit_map::UnitMap;
use message::command::Command;
use message::message::Message;
use message::parameters::WHOLE_UNIT;
use store::fault::BLOCK_BYTES;

/// The bytes of a block.
const BLOCK: u32 = BLOCK_BYTES as u32;
/// The most blocks of a segment.
const SEGMENT: u32 = 32;

/// What a transaction waits for: a segment, or the report.
#[derive(Clone, Copy, PartialEq, Eq, Debug)]
pub enum Phase {
    Execution,
    Report,
}

/// What went wrong in a transaction.
#[derive(Clone, Copy, PartialEq, Eq, Debug)]
pub enum Failure {
    /// The blocks asked for pass the unit's end.
    EndOfVolume,
    /// A block could not be written.
    UnitFault,
    /// A block could not be read: its address in the unit.
    Unrecoverable(u32),
}

/// What stands to be done for a host.
#[derive(Clone, Copy)]
pub struct Transaction {
    /// None where the message had no real command.
    pub command: Option<Command>,
    pub unit: u8,
    pub phase: Phase,
    /// The address of the next block to move.
    pub at: u32,
    /// How many blocks are still to be moved.
    pub left: u32,
    /// What there is to report so far: the first failure, if there was one.
    pub outcome: Option<Failure>,
}

impl Transaction {
    /// A transaction that goes straight to its report.
    fn reporting(command: Option<Command>, unit: u8, outcome: Option<Failure>) -> Transaction
        ensures { result ≡ reporting command unit outcome }
    {
        Transaction {
            command,
            unit,
            phase: Phase::Report,
            at: 0,
            left: 0,
            outcome,
        }
    }

    /// A transaction that moves no block: an Extended Describe has one segment, all else goes straight to the report.
    fn unmoving(command: Option<Command>, unit: u8) -> Transaction
        ensures { result ≡ unmoving command unit }
    {
        let reporting = Transaction::reporting(command, unit, None);
        if reporting.describes() {
            Transaction {
                phase: Phase::Execution,
                ..reporting
            }
        } else {
            reporting
        }
    }

    /// A transaction that moves so many blocks of a unit of that size, from an address on.
    fn moving(
        command: Option<Command>,
        unit: u8,
        size: u32,
        address: u32,
        count: u32,
    ) -> Transaction
        ensures { result ≡ moving command unit size address count }
    {
        if !fits(size, address, count) {
            return Transaction::reporting(command, unit, Some(Failure::EndOfVolume));
        }
        if count == 0 {
            return Transaction::reporting(command, unit, None);
        }
        Transaction {
            command,
            unit,
            phase: Phase::Execution,
            at: address,
            left: count,
            outcome: None,
        }
    }

    /// The transaction that an accepted message opens.
    pub(super) fn opened(map: &UnitMap, message: Message) -> Transaction
        ensures { result ≡ opened map.now message }
    {
        let Message {
            parameters,
            command,
        } = message;
        if !moves(command) {
            return Transaction::unmoving(command, parameters.unit);
        }
        let size = unit_size(map, parameters.unit);
        let count = blocks_asked(size, parameters.length);
        Transaction::moving(command, parameters.unit, size, parameters.address, count)
    }

    /// The target address after it is opened, where the message asks for that address.
    pub(super) fn address_after(&self, address: u32) -> u32
        ensures { result ≡ address_after self.now.outcome address }
    {
        match self.outcome {
            Some(Failure::EndOfVolume) => 0,
            Some(Failure::UnitFault | Failure::Unrecoverable(_)) | None => address,
        }
    }

    /// Whether the blocks that it has left to move end in its unit.
    pub fn lies_in(&self, map: &UnitMap) -> bool
        ensures { result ≡ lies_in map.now self.now }
    {
        u64::from(self.at) + u64::from(self.left) <= u64::from(unit_size(map, self.unit))
    }

    /// Whether it is an Extended Describe, whose segment moves no block.
    pub fn describes(&self) -> bool
        ensures { result ≡ describes self.now.command }
    {
        matches!(self.command, Some(Command::ExtendedDescribe))
    }

    /// How many blocks the next segment moves.
    pub fn segment(&self) -> u32
        ensures { result ≡ segment_of self.now }
    {
        SEGMENT.min(self.left)
    }

    /// How many blocks are left after the next segment.
    fn left_after(&self) -> u32
        ensures { result ≡ left_after self.now }
    {
        self.left - self.segment()
    }

    /// What it waits for after the next segment.
    pub fn phase_after(&self) -> Phase
        ensures { result ≡ phase_after self.now }
    {
        if self.left_after() == 0 {
            Phase::Report
        } else {
            Phase::Execution
        }
    }

    /// The address so many blocks further on.
    pub(super) fn address_past(&self, count: u32) -> u32
        ensures { result ≡ address_past self.now.at count }
    {
        self.at.saturating_add(count)
    }

    /// The transaction after a segment.
    pub(super) fn advanced(self, progress: Progress) -> Transaction
        ensures { result ≡ advanced self progress }
    {
        Transaction {
            phase: self.phase_after(),
            at: self.address_past(self.segment()),
            left: self.left_after(),
            outcome: progress.outcome,
            ..self
        }
    }

    /// Whether it is on that unit.
    pub(super) fn is_on(&self, unit: u8) -> bool
        ensures { result ≡ is_on self.now unit }
    {
        self.command
            .is_some_and(|command| command.on_unit() && self.unit == unit)
    }
}

/// The size of a unit in blocks: 0 where there is no such unit.
fn unit_size(map: &UnitMap, unit: u8) -> u32
    ensures { result ≡ unit_size map.now unit }
{
    map.unit(unit).map_or(0, |unit| unit.geometry.size())
}

/// A length in blocks, in a unit of that size.
fn blocks_asked(size: u32, length: u32) -> u32
    ensures { result ≡ blocks_asked size length }
{
    if length == WHOLE_UNIT {
        size
    } else {
        length / BLOCK
    }
}

/// Whether blocks begin in a unit of that size, and do not pass its end.
fn fits(size: u32, address: u32, count: u32) -> bool
    ensures { result ≡ fits size address count }
{
    address < size && count <= size - address
}

/// Whether a command moves blocks.
fn moves(command: Option<Command>) -> bool
    ensures { result ≡ moves command }
{
    matches!(
        command,
        Some(Command::Read | Command::Write | Command::Verify)
    )
}
