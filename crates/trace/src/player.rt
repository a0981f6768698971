ghost use Rattle.std.specs.Prelude.{◌≡◌, false, ◌<◌, ◌≤◌, ◌^◌, length, drop, if◌then◌else◌};
ghost use Rattle.desk.specs.Worlds.{comes_to, world};
ghost use Rattle.trace.specs.Makings.{made};
ghost use Rattle.trace.specs.Courses.{course, has_room, made_in, room_for, runs_to, written_in};
ghost use Rattle.trace.specs.Endings.{unplayed};
ghost use Rattle.trace.specs.Entries.{buffer_size, entry};

use super::answer::{ANSWER_BYTES, answer_bytes};
use super::call::Call;
use super::ending::{Ending, How};
use desk::answer::Answer;
use desk::session::Session;
use store::store::Store;

/// Makes a call, and tells what it answers. The buffer is the one that the call lends.
#[tactic(auto, unfolding(crate::specs::Makings::made))]
fn make<S: Store>(session: &mut Session<S>, call: Call<'_>, buffer: &mut [u8]) -> Answer
    requires { buffer_size (entry call) ≤ length buffer.old }
    ensures is { comes_to result buffer.new (world S.blocks session.new) ≡ made (world S.blocks session.old) (entry call.entry) buffer.old }
    ensures base { S.base_of session.new.device.store ≡ S.base_of session.old.device.store }
{
    match call {
        Call::Command { host, message } => session.command(host, message),
        Call::Segment { host, filling } => {
            filling.lay(buffer);
            session.segment(host, buffer)
        }
        Call::Report { host, filling } => {
            filling.lay(buffer);
            session.report(host, buffer)
        }
        Call::Cancel { host } => session.cancel(host),
        Call::Clear { host } => session.clear(host),
        Call::Notice { host } => session.notice(host),
        Call::Fault { host } => session.fault(host),
        Call::Parameters { host } => session.parameters(host),
        Call::Locks { host } => session.locks(host),
        Call::Activity => Answer::Activity(session.activity()),
    }
}

/// Makes a call and writes its answer, and behind it the buffer that it lends, into the front of the room; tells how
/// many bytes that was, or none where the room is too small.
fn step<S: Store>(session: &mut Session<S>, call: Call<'_>, room: &mut [u8]) -> Option<usize>
    ensures size { result ≡ (if has_room (entry call.entry) room.old then Some (room_for (entry call.entry)) else None) }
    ensures room { room.new ≡ (if has_room (entry call.entry) room.old then written_in (made_in (world S.blocks session.old) (entry call.entry) room.old) (drop (room_for (entry call.entry)) room.old) else room.old) }
    ensures after { world S.blocks session.new ≡ (if has_room (entry call.entry) room.old then (made_in (world S.blocks session.old) (entry call.entry) room.old).world else world S.blocks session.old) }
    ensures base { S.base_of session.new.device.store ≡ S.base_of session.old.device.store }
{
    let end = ANSWER_BYTES + call.buffer_size();
    if room.len() < end {
        return None;
    }
    let answer = make(session, call, &mut room[ANSWER_BYTES..end]);
    room[..ANSWER_BYTES].copy_from_slice(&answer_bytes(&answer));
    Some(end)
}

/// Makes the calls of a trace, until it ends or one cannot be made.
pub(super) fn run<S: Store>(session: &mut Session<S>, calls: &[u8], output: &mut [u8]) -> Ending
    requires { length output.old < 2 ^ 56 }
    ensures is { runs_to (world S.blocks session.new) output.new result ≡ course (world S.blocks session.old) calls.now output.old }
    ensures played { unplayed result.how ≡ false }
    ensures base { S.base_of session.new.device.store ≡ S.base_of session.old.device.store }
{
    let mut left = calls;
    let mut written = 0;
    while !left.is_empty() {
        let Some((call, rest)) = Call::split(left) else {
            return Ending::after(How::NoCall, written);
        };
        let Some(size) = step(session, call, &mut output[written..]) else {
            return Ending::after(How::NoRoom, written);
        };
        written += size;
        left = rest;
    }
    Ending::after(How::Whole, written)
}
