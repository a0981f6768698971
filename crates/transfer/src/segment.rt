ghost use Rattle.std.specs.Prelude.{◌≡◌, true, [], Some, None};
ghost use Rattle.std.specs.Result.{result_err};
ghost use Rattle.host.specs.Progress.{lies_in, segment_of};
ghost use Rattle.transfer.specs.Segments.{start_of, laid, after_reading, moved_by_command, moved_over, message_of, executed_over, holds_blocks, refusal_of, progress_by, buffer_by, blocks_by};
ghost use Rattle.transfer.specs.Spans.{in_span};
ghost use Rattle.transfer.specs.Transfers.{SegmentLaw};
ghost use Rattle.transfer.specs.Describing.{DescribeLaw};

use super::blocks::Span;
use describe::description::describe;
use flex::status::Status;
use flex::unit_map::UnitMap;
use host::fault::HostFault;
use host::progress::Progress;
use host::transaction::{Failure, Transaction};
use message::command::Command;
use store::fault::BLOCK_BYTES;
use store::store::Store;

/// What a transaction comes to once all blocks of its next segment were read.
fn all_read(transaction: Transaction, fault: Option<HostFault>) -> Progress
    ensures { result ≡ record { tried = segment_of transaction; outcome = after_reading transaction.outcome fault; fault = fault } }
{
    Progress {
        tried: transaction.segment(),
        outcome: transaction
            .outcome
            .or(fault.map(|met| Failure::Unrecoverable(met.address))),
        fault,
    }
}

/// What a transaction comes to where nothing is tried.
fn not_tried(transaction: Transaction) -> Progress
    ensures { result ≡ record { tried = 0; outcome = transaction.outcome; fault = None } }
{
    Progress {
        tried: 0,
        outcome: transaction.outcome,
        fault: None,
    }
}

/// What a transaction's command does with the blocks of its next segment. A Write tries nothing once there is something to report.
#[tactic(auto, unfolding(crate::specs::Segments::moved_by_command), using(crate::proofs::Spans::length_span))]
fn move_blocks<S: Store>(store: &mut S, blocks: Span, buffer: &mut [u8]) -> Progress
    requires { holds_blocks blocks.transaction buffer.old ≡ true }
    ensures progress { result ≡ (moved_by_command blocks.transaction.command blocks.transaction blocks.first (in_span blocks (S.blocks store.old)) buffer.old).progress }
    ensures buffer { buffer.new ≡ (moved_by_command blocks.transaction.command blocks.transaction blocks.first (in_span blocks (S.blocks store.old)) buffer.old).buffer }
    ensures after { S.blocks store.new ≡ laid (S.blocks store.old) blocks.first (moved_by_command blocks.transaction.command blocks.transaction blocks.first (in_span blocks (S.blocks store.old)) buffer.old).put }
    ensures base { S.base_of store.new ≡ S.base_of store.old }
{
    let transaction = blocks.transaction;
    match transaction.command {
        Some(Command::Read) => all_read(transaction, blocks.read(store, buffer)),
        Some(Command::Verify) => all_read(transaction, blocks.verify(store)),
        Some(Command::Write) if transaction.outcome.is_none() => {
            let (tried, fault) = blocks.write(store, buffer);
            Progress {
                tried,
                outcome: fault.map(|_| Failure::UnitFault),
                fault,
            }
        }
        _ => not_tried(transaction),
    }
}

/// A segment of a transaction that lies in its unit, with a buffer that holds it.
fn move_in_unit<S: Store>(
    store: &mut S,
    map: &UnitMap,
    transaction: Transaction,
    buffer: &mut [u8],
) -> Progress
    requires lies { lies_in map.now transaction ≡ true }
    requires holds { holds_blocks transaction buffer.old ≡ true }
    ensures progress { result ≡ (moved_over map.now (S.blocks store.old) transaction buffer.old).progress }
    ensures buffer { buffer.new ≡ (moved_over map.now (S.blocks store.old) transaction buffer.old).buffer }
    ensures after { S.blocks store.new ≡ laid (S.blocks store.old) (start_of map.now (Some transaction)) (moved_over map.now (S.blocks store.old) transaction buffer.old).put }
    ensures base { S.base_of store.new ≡ S.base_of store.old }
{
    match map.block(transaction.unit, transaction.at) {
        Some(first) => move_blocks(store, Span { transaction, first }, buffer),
        None => not_tried(transaction),
    }
}

/// Whether a buffer of this length holds the blocks of the next segment; for Verify any will do.
fn holds_blocks(transaction: Transaction, buffer: &[u8]) -> bool
    ensures { result ≡ holds_blocks transaction buffer.now }
{
    matches!(transaction.command, Some(Command::Verify))
        || BLOCK_BYTES * transaction.segment() as usize <= buffer.len()
}

// Map, transaction and buffer pass through three functions: a type of the three would be made for this one call, and be
// no plainer.

/// Lets a segment be moved, or tells why it is not.
fn admit(map: &UnitMap, transaction: Transaction, buffer: &[u8]) -> Result<(), Status>
    ensures { result_err result ≡ refusal_of map.now transaction [] buffer.now }
{
    if !transaction.lies_in(map) {
        return Err(Status::MessageSequence);
    }
    if !holds_blocks(transaction, buffer) {
        return Err(Status::BadBuffer);
    }
    Ok(())
}

/// Executes the next segment of a host's transaction, and tells how it went: moves its blocks between the store and the
/// buffer, or writes the description that an Extended Describe asks for. Or refuses it, and does nothing.
pub fn execute_segment<S: Store>(
    store: &mut S,
    map: &UnitMap,
    host: u8,
    transaction: Transaction,
    buffer: &mut [u8],
) -> Result<Progress, Status>
    ensures progress { result ≡ progress_by (refusal_of map.now transaction (message_of map.now host transaction) buffer.old) (executed_over map.now (S.blocks store.old) host transaction buffer.old) }
    ensures buffer { buffer.new ≡ buffer_by (refusal_of map.now transaction (message_of map.now host transaction) buffer.old) (executed_over map.now (S.blocks store.old) host transaction buffer.old) buffer.old }
    ensures after { S.blocks store.new ≡ blocks_by (refusal_of map.now transaction (message_of map.now host transaction) buffer.old) (executed_over map.now (S.blocks store.old) host transaction buffer.old) (S.blocks store.old) (start_of map.now (Some transaction)) }
    ensures law { SegmentLaw result transaction (start_of map.now (Some transaction)) (segment_of transaction) (S.blocks store.old) (S.blocks store.new) buffer.old buffer.new }
    ensures describing { DescribeLaw result map.now host transaction (S.blocks store.old) (S.blocks store.new) buffer.old buffer.new }
    ensures base { S.base_of store.new ≡ S.base_of store.old }
{
    admit(map, transaction, buffer)?;
    if transaction.describes() {
        describe(map, host, buffer)?;
        return Ok(not_tried(transaction));
    }
    Ok(move_in_unit(store, map, transaction, buffer))
}
