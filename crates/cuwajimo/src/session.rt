ghost use Rattle.std.specs.Prelude.{◌≡◌, ◌++◌, IfErr, IfOk, IsOkUnless, OnOk, Ok, codes, length, vec_items};
ghost use Rattle.std.specs.Io.KnownBytes.{Appends};
ghost use Rattle.desk.specs.Worlds.{at_end, at_start, comes_to, world};
ghost use Rattle.cuwajimo.specs.Printed.{act_line, all_lines, device_line, host_line, line, served_lines, Serves};
ghost use Rattle.cuwajimo.specs.Answers.{status_words};
ghost use Rattle.cuwajimo.specs.Sessions.{act_left, all_left, host_left, host_made, lent};
ghost use Rattle.cuwajimo.specs.Troubles.{CannotGoOn, CannotPrint};
ghost use Rattle.cuwajimo.specs.declared.trouble.Trouble.TheVariants.{Memory as NoMemory};
ghost use Rattle.cuwajimo.specs.declared.session.Outcome.TheVariants.{Served, Refused};

use super::buffer::buffer;
use super::call::{Act, Call, HostAct};
use super::case::CaseRun;
use super::holders::Holders;
use super::say::{HostSaid, nothing};
use super::trouble::Trouble;
use desk::answer::Answer;
use desk::session::Session;
use device::device::power_on;
use flex::status::Status;
use flex::unit_map::UnitMap;
use std::alloc::Global;
use std::io::Write;
use store::store::Store;

/// Whether there was a device.
#[derive(Clone, Copy)]
pub enum Outcome {
    Served,
    Refused,
}

/// The store that a case was served over, and what came of it.
pub struct Ended<S> {
    pub store: S,
    pub outcome: Result<Outcome, Trouble>,
}

impl HostAct {
    /// The buffer that it lends; the other calls lend an empty one.
    fn buffer(&self, heap: Global) -> Result<Vec<u8>, Trouble>
        ensures bytes { IfOk result (λ v. vec_items v ≡ lent self.now) }
        ensures want { IsOkUnless result NoMemory }
    {
        match self {
            HostAct::Segment(filling) | HostAct::Report(filling) => buffer(heap, filling),
            _ => Ok(Vec::new(heap)),
        }
    }
}

/// Makes a host's call, and tells what it answers. The buffer is the one that the call lends.
fn make<S: Store>(session: &mut Session<S>, host: u8, act: &HostAct, buffer: &mut [u8]) -> Answer
    ensures made { comes_to result buffer.new (world S.blocks session.new) ≡ host_made (world S.blocks session.old) host act.now buffer.old }
    ensures base { S.base_of session.new.device.store ≡ S.base_of session.old.device.store }
{
    match act {
        HostAct::Command(bytes) => session.command(host, bytes.as_slice()),
        HostAct::Segment(_) => session.segment(host, buffer),
        HostAct::Report(_) => session.report(host, buffer),
        HostAct::Cancel => session.cancel(host),
        HostAct::Clear => session.clear(host),
        HostAct::Notice => session.notice(host),
        HostAct::Fault => session.fault(host),
        HostAct::Params => session.parameters(host),
    }
}

/// Units that make no map: there is no device.
fn refuse<W: Write>(out: &mut W, status: Status) -> Result<Outcome, Trouble>
    ensures outcome { IfOk result (λ outcome. outcome ≡ Refused) }
    ensures printed { OnOk result (Appends (W.contents out.old) (W.contents out.new) (line (codes "map: refused " ++ status_words status))) }
    ensures trouble { IfErr result CannotPrint }
{
    writeln!(out, "map: refused {status}")?;
    Ok(Outcome::Refused)
}

impl CaseRun<'_, '_> {
    /// One call of a host.
    fn answer_host<S: Store, W: Write>(
        self,
        out: &mut W,
        session: &mut Session<S>,
        host: u8,
        act: &HostAct,
    ) -> Result<(), Trouble>
        ensures left { OnOk result (world S.blocks session.new ≡ host_left (world S.blocks session.old) host act.now) }
        ensures printed { OnOk result (Appends (W.contents out.old) (W.contents out.new) (host_line (world S.blocks session.old) host act.now)) }
        ensures trouble { IfErr result CannotGoOn }
        ensures base { S.base_of session.new.device.store ≡ S.base_of session.old.device.store }
    {
        let mut buffer = act.buffer(self.rt.alloc())?;
        let answer = make(session, host, act, buffer.as_mut_slice());
        let buffer = buffer.as_slice();
        let said = HostSaid {
            host,
            act,
            answer,
            buffer,
        };
        writeln!(out, "{said}")?;
        Ok(())
    }

    /// One call while the device is on.
    fn answer<S: Store, W: Write>(
        self,
        out: &mut W,
        session: &mut Session<S>,
        act: &Act,
    ) -> Result<(), Trouble>
        ensures left { OnOk result (world S.blocks session.new ≡ act_left (world S.blocks session.old) act.now) }
        ensures printed { OnOk result (Appends (W.contents out.old) (W.contents out.new) (act_line (world S.blocks session.old) act.now)) }
        ensures trouble { IfErr result CannotGoOn }
        ensures base { S.base_of session.new.device.store ≡ S.base_of session.old.device.store }
    {
        match act {
            Act::Host { host, act } => self.answer_host(out, session, *host, act),
            Act::Locks => {
                let holders = Holders::of(session);
                writeln!(out, "{holders}")?;
                Ok(())
            }
            Act::Activity => {
                let activity = session.activity();
                writeln!(out, "activity: {activity}")?;
                Ok(())
            }
            _ => nothing(out, act),
        }
    }

    /// The device's own line.
    fn announce<W: Write>(self, out: &mut W, blocks: u32) -> Result<(), Trouble>
        ensures printed { OnOk result (Appends (W.contents out.old) (W.contents out.new) (device_line self.entry.case.now.plan.device (length (vec_items self.entry.case.now.plan.units)) blocks)) }
        ensures trouble { IfErr result CannotPrint }
    {
        let number = self.case.plan.device;
        let units = self.case.plan.units.len();
        writeln!(out, "device {number}: {units} units, {blocks} blocks")?;
        Ok(())
    }

    /// The device's own line, and then each call before `off`.
    fn answer_all<S: Store, W: Write>(
        self,
        out: &mut W,
        session: &mut Session<S>,
    ) -> Result<Outcome, Trouble>
        ensures outcome { IfOk result (λ outcome. outcome ≡ Served) }
        ensures trouble { IfErr result CannotGoOn }
        ensures printed { OnOk result (Appends (W.contents out.old) (W.contents out.new) (device_line self.entry.case.now.plan.device (length (vec_items self.entry.case.now.plan.units)) (length (S.blocks session.old.device.store)) ++ all_lines (world S.blocks session.old) (vec_items self.entry.case.now.on))) }
        ensures left { OnOk result (world S.blocks session.new ≡ all_left (world S.blocks session.old) (vec_items self.entry.case.now.on)) }
        ensures base { S.base_of session.new.device.store ≡ S.base_of session.old.device.store }
    {
        self.announce(out, session.size())?;
        for call in self.case.on.iter() {
            self.answer(out, session, &call.act)?;
        }
        Ok(Outcome::Served)
    }

    /// Powers the device on over the store, answers the calls, and powers it off.
    fn serve_on<S: Store, W: Write>(self, out: &mut W, map: UnitMap, store: S) -> Ended<S>
        ensures outcome { IfOk result.outcome (λ outcome. outcome ≡ Served) }
        ensures trouble { IfErr result.outcome CannotGoOn }
        ensures printed { OnOk result.outcome (Appends (W.contents out.old) (W.contents out.new) (served_lines (Ok map) self.entry.case.now.plan (S.blocks store) (vec_items self.entry.case.now.on))) }
        ensures left { OnOk result.outcome (S.blocks result.store ≡ (at_end (all_left (at_start self.entry.case.now.plan.device map (S.blocks store)) (vec_items self.entry.case.now.on))).blocks) }
        ensures base { S.base_of result.store ≡ S.base_of store }
    {
        let mut session = Session::new(power_on(self.case.plan.device, map, store));
        let outcome = self.answer_all(out, &mut session);
        Ended {
            store: session.power_off(),
            outcome,
        }
    }

    /// The case's calls before `off`, on a device over the store if its units make a map.
    pub(super) fn serve<S: Store, W: Write>(self, out: &mut W, store: S) -> Ended<S>
        ensures trouble { IfErr result.outcome CannotGoOn }
        ensures served { IfOk result.outcome (λ outcome. Serves self.entry.case.now (S.blocks store) outcome (S.blocks result.store) (W.contents out.old) (W.contents out.new)) }
        ensures base { S.base_of result.store ≡ S.base_of store }
    {
        let plan = &self.case.plan;
        match UnitMap::new(plan.units.as_slice(), plan.end) {
            Ok(map) => self.serve_on(out, map, store),
            Err(status) => Ended {
                store,
                outcome: refuse(out, status),
            },
        }
    }
}
