ghost use Rattle.std.specs.Prelude.{◌≡◌, Ok};
ghost use Rattle.message.specs.Arrangements.{Accepts, Refuses};
ghost use Rattle.message.specs.Decoding.{amount_set, decoded, place_set, scan, step, taking, vector_set};
ghost use Rattle.message.specs.Drafts.{drafted, stepped};
ghost use Rattle.message.specs.Messages.{with_command, with_unit};

use super::command::Command;
use super::draft::Draft;
use super::message::Message;
use super::operand::{number, vector};
use super::parameters::Parameters;
use flex::status::Status;
use flex::unit_map::UnitMap;

/// The most bytes of a message.
const LONGEST: usize = 1024;

// Each of these changes a draft, and says how many of the bytes after the code it took.

/// Set Address with a single address.
fn set_address(map: &UnitMap, draft: &mut Draft, rest: &[u8]) -> Result<usize, Status>
    ensures { stepped draft.new result ≡ place_set map.now draft.old rest.now }
{
    let address = number::<6>(rest).ok_or(Status::MessageLength)?;
    draft.set_address(map, address)?;
    Ok(6)
}

/// Set Address with a vector.
fn set_vector(map: &UnitMap, draft: &mut Draft, rest: &[u8]) -> Result<usize, Status>
    ensures { stepped draft.new result ≡ vector_set map.now draft.old rest.now }
{
    let vector = vector(rest).ok_or(Status::MessageLength)?;
    draft.set_vector(map, vector)?;
    Ok(6)
}

fn set_length(draft: &mut Draft, rest: &[u8]) -> Result<usize, Status>
    ensures { stepped draft.new result ≡ amount_set draft.old rest.now }
{
    let length = number::<4>(rest).ok_or(Status::MessageLength)?;
    draft.set_length(length as u32)?;
    Ok(4)
}

fn set_unit(map: &UnitMap, draft: &mut Draft, number: u8) -> Result<usize, Status>
    ensures { stepped draft.new result ≡ taking 0 (with_unit map.now draft.old number) }
{
    draft.set_unit(map, number)?;
    Ok(0)
}

fn set_command(draft: &mut Draft, command: Command) -> Result<usize, Status>
    ensures { stepped draft.new result ≡ Ok (with_command draft.old command, 0) }
{
    draft.set_command(command);
    Ok(0)
}

/// What a code makes of a draft, and how many of the bytes after it it takes.
// A count and not the bytes that are left: those are no plainer, since each function that reads operands would name a
// lifetime, and each of their contracts would have to say what is dropped.
fn step(map: &UnitMap, draft: &mut Draft, code: u8, rest: &[u8]) -> Result<usize, Status>
    ensures { stepped draft.new result ≡ step map.now draft.old code rest.now }
{
    match code {
        // No Op
        0x34 => Ok(0),
        // Set Unit
        0x20..=0x2f if !draft.takes_unit() => Err(Status::MessageSequence),
        0x20..=0x2f => set_unit(map, draft, code - 0x20),
        // Set Address
        0x10..=0x11 if !draft.takes_address() => Err(Status::MessageSequence),
        0x10 => set_address(map, draft, rest),
        0x11 => set_vector(map, draft, rest),
        // Set Length
        0x18 if !draft.takes_length() => Err(Status::MessageSequence),
        0x18 => set_length(draft, rest),
        // a real command
        0x00 | 0x02 | 0x04 | 0x0c | 0x63 | 0x6b | 0x73 | 0x7b if !draft.takes_command() => {
            Err(Status::MessageSequence)
        }
        0x00 => set_command(draft, Command::Read),
        0x02 => set_command(draft, Command::Write),
        0x04 => set_command(draft, Command::Verify),
        0x0c => set_command(draft, Command::ExtendedDescribe),
        0x63 => set_command(draft, Command::SetDeviceLock),
        0x6b => set_command(draft, Command::DeleteDeviceLock),
        0x73 => set_command(draft, Command::SetUnitLock),
        0x7b => set_command(draft, Command::DeleteUnitLock),
        // no code at all
        _ => Err(Status::IllegalOpcode),
    }
}

/// The codes of a message from left to right, or the status of the first at fault.
fn scan(map: &UnitMap, draft: &mut Draft, message: &[u8]) -> Result<(), Status>
    ensures { drafted draft.new result ≡ scan map.now message.now 0 draft.old }
{
    let mut left = message;
    while let [code, rest @ ..] = left {
        let taken = step(map, draft, *code, rest)?;
        left = &rest[taken..];
    }
    Ok(())
}

/// What a command message asks for, from a host with those parameters; or the first status.
pub fn decode(map: &UnitMap, own: Parameters, message: &[u8]) -> Result<Message, Status>
    ensures is { result ≡ decoded map.now own message.now }
    ensures accepts { Accepts map.now own message.now result }
    ensures refuses { Refuses map.now own message.now result }
{
    if message.is_empty() || message.len() > LONGEST {
        return Err(Status::MessageLength);
    }
    let mut draft = Draft::new(own);
    scan(map, &mut draft, message)?;
    Ok(draft.finish())
}
