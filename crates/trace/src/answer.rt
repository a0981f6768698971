ghost use Rattle.std.specs.Prelude.{◌≡◌, [], ◌∷◌};
ghost use Rattle.std.specs.Int.{w64, to_be_bytes};
ghost use Rattle.trace.specs.Answers.{answer_bytes, fault_bytes, filled, kind_number, locks_bytes, parameters_bytes, status_bytes, unit_bits};

use desk::answer::Answer;
use flex::status::Status;
use host::fault::HostFault;
use host::locks::Locks;
use message::parameters::Parameters;
use store::fault::FaultKind;

/// How many bytes an answer has.
pub const ANSWER_BYTES: usize = 16;

/// An answer's bytes: the number of what it is, then what it tells, then zeros.
#[tactic(auto, unfolding(crate::specs::Answers::answer_bytes))]
pub fn answer_bytes(answer: &Answer) -> [u8; ANSWER_BYTES]
    ensures { result ≡ answer_bytes answer.now }
{
    match answer {
        Answer::Refused(status) => status_bytes(0, *status),
        Answer::Done => bare_bytes(1),
        Answer::Execution => bare_bytes(2),
        Answer::Report => bare_bytes(3),
        Answer::NoTicket => bare_bytes(4),
        Answer::Notice(status) => status_bytes(5, *status),
        Answer::Fault(fault) => fault_bytes(*fault),
        Answer::Parameters(parameters) => parameters_bytes(*parameters),
        Answer::Locks(locks) => locks_bytes(locks),
        Answer::Activity(count) => activity_bytes(*count),
    }
}

/// An answer that tells no more than what it is.
fn bare_bytes(number: u8) -> [u8; ANSWER_BYTES]
    ensures { result ≡ filled (number ∷ []) }
{
    let mut bytes = [0; ANSWER_BYTES];
    bytes[0] = number;
    bytes
}

fn status_bytes(number: u8, status: Status) -> [u8; ANSWER_BYTES]
    ensures { result ≡ status_bytes number status }
{
    let mut bytes = bare_bytes(number);
    bytes[1] = status.group();
    bytes[2] = status.code();
    bytes
}

fn fault_bytes(fault: HostFault) -> [u8; ANSWER_BYTES]
    ensures { result ≡ fault_bytes fault }
{
    let mut bytes = bare_bytes(6);
    bytes[1] = kind_number(fault.fault.store.kind);
    bytes[2..6].copy_from_slice(&fault.fault.store.block.to_be_bytes());
    bytes[6] = fault.unit;
    bytes[7..11].copy_from_slice(&fault.address.to_be_bytes());
    bytes
}

fn parameters_bytes(parameters: Parameters) -> [u8; ANSWER_BYTES]
    ensures { result ≡ parameters_bytes parameters }
{
    let mut bytes = bare_bytes(7);
    bytes[1] = parameters.unit;
    bytes[2..6].copy_from_slice(&parameters.address.to_be_bytes());
    bytes[6..10].copy_from_slice(&parameters.length.to_be_bytes());
    bytes
}

fn locks_bytes(locks: &Locks) -> [u8; ANSWER_BYTES]
    ensures { result ≡ locks_bytes locks.now }
{
    let mut bytes = bare_bytes(8);
    bytes[1] = u8::from(locks.device);
    bytes[2..4].copy_from_slice(&unit_bits(locks).to_be_bytes());
    bytes
}

fn activity_bytes(count: u64) -> [u8; ANSWER_BYTES]
    ensures { result ≡ filled (9 ∷ to_be_bytes w64 count) }
{
    let mut bytes = bare_bytes(9);
    bytes[1..9].copy_from_slice(&count.to_be_bytes());
    bytes
}

/// The number that a fault's kind has in an answer.
fn kind_number(kind: FaultKind) -> u8
    ensures { result ≡ kind_number kind }
{
    match kind {
        FaultKind::Length => 0,
        FaultKind::Beyond => 1,
        FaultKind::Damaged => 2,
        FaultKind::Protected => 3,
    }
}

/// A bit for each unit whose lock is held, that of unit 0 lowest.
fn unit_bits(locks: &Locks) -> u16
    ensures { result ≡ unit_bits locks.now.units }
{
    let mut bits = 0;
    for (unit, held) in locks.units.iter().enumerate() {
        bits += u16::from(*held) << unit;
    }
    bits
}
