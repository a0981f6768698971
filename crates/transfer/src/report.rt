ghost use Rattle.std.specs.Prelude.{◌≡◌};
ghost use Rattle.transfer.specs.Reports.{with_status, report_bytes};

use flex::status::Status;
use host::transaction::Failure;

/// How many bytes a report has.
pub const REPORT_BYTES: usize = 13;

/// The report of a status, with a block's address or 0.
fn with_status(status: Status, address: u32) -> [u8; REPORT_BYTES]
    ensures { result ≡ with_status status address }
{
    let mut bytes = [0; REPORT_BYTES];
    bytes[..3].copy_from_slice(&[1, status.group(), status.code()]);
    bytes[9..].copy_from_slice(&address.to_be_bytes());
    bytes
}

/// The report of what a transaction came to.
pub fn report_bytes(outcome: Option<Failure>) -> [u8; REPORT_BYTES]
    ensures { result ≡ report_bytes outcome }
{
    match outcome {
        None => [0; REPORT_BYTES],
        Some(Failure::EndOfVolume) => with_status(Status::EndOfVolume, 0),
        Some(Failure::UnitFault) => with_status(Status::UnitFault, 0),
        Some(Failure::Unrecoverable(address)) => with_status(Status::UnrecoverableData, address),
    }
}
