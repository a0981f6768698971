ghost use Rattle.std.specs.Prelude.{◌≡◌, ◌<◌, length};
ghost use Rattle.device.specs.Answers.{command_answer, segment_answer, report_answer, cancel_answer, clear_answer, notice_answer, fault_answer};
ghost use Rattle.device.specs.Calls.{command, segment, report, cancel, clear, notice, fault};
ghost use Rattle.device.specs.Device.{state, after, parameters_of, locks_of, power_on as at_power_on};
ghost use Rattle.device.specs.Describing.{DescribingFrom};
ghost use Rattle.device.specs.Faults.{FaultsFrom};
ghost use Rattle.device.specs.Isolation.{IsolationFrom};
ghost use Rattle.device.specs.Laws.{ApartnessFrom, ExclusionFrom, WaitsFrom};
ghost use Rattle.device.specs.Notices.{NoticesFrom};
ghost use Rattle.device.specs.Needed.{Needed};
ghost use Rattle.device.specs.Orders.{EitherOrderFrom};
ghost use Rattle.device.specs.OrdersSample.{EitherNeeded, EitherSampled};
ghost use Rattle.device.specs.Refusals.{RefusalsFrom};
ghost use Rattle.device.specs.Sample.{Sampled, SampledByDevice};
ghost use Rattle.device.specs.Small.{Table};
ghost use Rattle.device.specs.Transfers.{MovingFrom, TransfersFrom};

use super::caller::Caller;
use super::controller::{Controller, HOSTS};
use super::ticket::{ExecutionTicket, ReportTicket, Returned, Ticket};
use flex::status::Status;
use flex::unit_map::UnitMap;
use host::fault::HostFault;
use host::locks::Locks;
use host::mail::Mail;
use host::record::Host;
use message::parameters::Parameters;
use store::calls::settle_down;
use store::store::Store;
use transfer::report::{REPORT_BYTES, report_bytes};
use transfer::segment::execute_segment;

/// One disc device, shared by eight hosts, over a store of any kind.
/// It is not `Drop`: `power_off` settles the store and hands it back.
pub struct Device<S> {
    pub(super) controller: Controller,
    pub(super) store: S,
}

impl<S: Store> Device<S> {
    /// Takes a command message of a host, and hands out a ticket for the transaction that it opens.
    pub fn command(&mut self, host: u8, bytes: &[u8]) -> Result<Ticket, Status>
        ensures is { (command_answer result, state S.blocks self.new) ≡ after (state S.blocks self.old) (command host bytes.now) }
        ensures base { S.base_of self.new.store ≡ S.base_of self.old.store }
    {
        let caller = self.controller.caller(host)?;
        let reaches = self.controller.map.end() <= self.store.size();
        self.controller.command(caller, reaches, bytes)
    }

    /// Ends a host's interlock and restores its values; its locks, notice, wait and fault are dropped.
    pub fn clear(&mut self, host: u8) -> Result<(), Status>
        ensures is { (clear_answer result, state S.blocks self.new) ≡ after (state S.blocks self.old) (clear host) }
        ensures base { S.base_of self.new.store ≡ S.base_of self.old.store }
    {
        let caller = self.controller.caller(host)?;
        if self.controller.host(caller).transaction.is_some() {
            self.controller.judge_waits();
            return Err(Status::MessageSequence);
        }
        self.controller.clear(caller);
        Ok(())
    }

    /// Hands a host's notice over and removes it, or says none.
    pub fn notice(&mut self, host: u8) -> Result<Option<Status>, Status>
        ensures is { (notice_answer result, state S.blocks self.new) ≡ after (state S.blocks self.old) (notice host) }
        ensures base { S.base_of self.new.store ≡ S.base_of self.old.store }
    {
        let caller = self.controller.caller(host)?;
        Ok(self.controller.take_notice(caller))
    }

    /// The first store fault since a host's latest accepted message or clear, or none.
    pub fn fault(&mut self, host: u8) -> Result<Option<HostFault>, Status>
        ensures is { (fault_answer result, state S.blocks self.new) ≡ after (state S.blocks self.old) (fault host) }
        ensures base { S.base_of self.new.store ≡ S.base_of self.old.store }
    {
        let caller = self.controller.caller(host)?;
        self.controller.judge_waits();
        Ok(self.controller.host(caller).fault)
    }

    /// Moves the next segment of a transaction, and exchanges its ticket for the next.
    pub fn segment(
        &mut self,
        ticket: ExecutionTicket,
        buffer: &mut [u8],
    ) -> Result<Ticket, Returned<ExecutionTicket>>
        ensures is { (segment_answer result buffer.new, state S.blocks self.new) ≡ after (state S.blocks self.old) (segment ticket buffer.old) }
        ensures base { S.base_of self.new.store ≡ S.base_of self.old.store }
    {
        let Some((caller, transaction)) = self.controller.fitting(ticket.pass()) else {
            return Err(Returned {
                status: Status::MessageSequence,
                ticket,
            });
        };
        match execute_segment(
            &mut self.store,
            &self.controller.map,
            caller.number,
            transaction,
            buffer,
        ) {
            Err(status) => {
                self.controller.judge_waits();
                Err(Returned { status, ticket })
            }
            Ok(progress) => {
                Ticket::Execution(ticket).spend();
                Ok(self.controller.go_on(caller, transaction, progress))
            }
        }
    }

    /// Ends a transaction before its report. Blocks that were moved stay.
    pub fn cancel(&mut self, ticket: Ticket) -> Result<(), Returned<Ticket>>
        ensures is { (cancel_answer result, state S.blocks self.new) ≡ after (state S.blocks self.old) (cancel ticket) }
        ensures base { S.base_of self.new.store ≡ S.base_of self.old.store }
    {
        let Some((caller, _)) = self.controller.fitting(ticket.pass()) else {
            return Err(Returned {
                status: Status::MessageSequence,
                ticket,
            });
        };
        ticket.spend();
        self.controller.close(caller);
        Ok(())
    }

    /// Writes a transaction's report into the front of the buffer, and ends the transaction.
    pub fn report(
        &mut self,
        ticket: ReportTicket,
        buffer: &mut [u8],
    ) -> Result<(), Returned<ReportTicket>>
        ensures is { (report_answer result buffer.new, state S.blocks self.new) ≡ after (state S.blocks self.old) (report ticket buffer.old) }
        ensures base { S.base_of self.new.store ≡ S.base_of self.old.store }
    {
        let Some((caller, open)) = self.controller.fitting(ticket.pass()) else {
            return Err(Returned {
                status: Status::MessageSequence,
                ticket,
            });
        };
        if buffer.len() < REPORT_BYTES {
            self.controller.judge_waits();
            return Err(Returned {
                status: Status::BadBuffer,
                ticket,
            });
        }
        buffer[0..REPORT_BYTES].copy_from_slice(&report_bytes(open.outcome));
        Ticket::Report(ticket).spend();
        self.controller.close(caller);
        Ok(())
    }

    /// A host's parameters.
    pub fn parameters(&self, host: u8) -> Result<Parameters, Status>
        ensures { result ≡ parameters_of self.now.controller host }
    {
        let caller = Caller::find(host).ok_or(Status::BadHost)?;
        Ok(self.controller.host(caller).parameters)
    }

    /// A host's locks.
    pub fn locks(&self, host: u8) -> Result<Locks, Status>
        ensures { result ≡ locks_of self.now.controller host }
    {
        let caller = Caller::find(host).ok_or(Status::BadHost)?;
        Ok(self.controller.host(caller).locks)
    }

    /// How many blocks segments have asked the store to read or write since power on.
    pub fn activity(&self) -> u64
        ensures { result ≡ self.now.controller.activity }
    {
        self.controller.activity
    }

    /// How many blocks the store has.
    pub fn size(&self) -> u32
        ensures { result ≡ length (S.blocks self.now.store) }
    {
        self.store.size()
    }

    /// Settles the store, ends the device, and hands the store back.
    pub fn power_off(self) -> S
        ensures same { S.blocks result ≡ S.blocks self.store }
        ensures settled { S.settled result }
        ensures holds { S.stored result ≡ S.blocks self.store }
        ensures base { S.base_of result ≡ S.base_of self.store }
    {
        let Device {
            controller: _,
            mut store,
        } = self;
        settle_down(&mut store);
        store
    }
}

/// Builds a device at power on: of that number, which its tickets bear, with the units of that map, over a store of any
/// kind. It refuses nothing: whether the store reaches the map's stated end is checked by each command.
///
/// Its state is the one `made`. Laws of every device so built, after any list of calls:
/// - `isolation`: a host that holds locks and keeps to what they lock is alone there, whatever the others do.
/// - `apartness`: any continuation is such a host's calls and the others' calls, side by side.
/// - `either_order`: such a host's calls and the others' leave one history, however its calls fall between theirs.
/// - `exclusion`: no two hosts hold what excludes one another.
/// - `waits`: a host that waits has something in its way.
/// - `notices`: when a wait begins and ends, and when a notice comes and goes, with which code.
/// - `faults`: the fault call answers the first store fault that the host's segments met since its latest accepted message
///   or clear.
/// - `refusals`: what a refused call leaves.
/// - `moving`: a segment is refused for nothing but its ticket or its buffer.
/// - `transfers`: what the segments of a whole transaction come to, however they are cut.
/// - `describing`: an Extended Describe hands over the description of the units, and changes nothing else.
///
/// And runs, with what they come to:
/// - `sampled`, `sampled_by_device`: all that isolation asks for holds, by a unit's lock and by the device's lock.
/// - `needed`: for each thing that isolation asks for, a run that lacks it alone, of which the conclusion is false.
/// - `either_sampled`: two guests in two orders, each keeping to its units.
/// - `either_needed`: for each thing that either order asks for, two runs that lack it alone, and end differently.
/// - `table`: what messages come to on a small device.
pub fn power_on<S: Store>(number: u32, map: UnitMap, store: S) -> Device<S>
    ensures made { state S.blocks result ≡ at_power_on number map (S.blocks store) }
    ensures isolation { IsolationFrom (state S.blocks result) }
    ensures apartness { ApartnessFrom (state S.blocks result) }
    ensures either_order { EitherOrderFrom (state S.blocks result) }
    ensures exclusion { ExclusionFrom (state S.blocks result) }
    ensures waits { WaitsFrom (state S.blocks result) }
    ensures notices { NoticesFrom (state S.blocks result) }
    ensures faults { FaultsFrom (state S.blocks result) }
    ensures refusals { RefusalsFrom (state S.blocks result) }
    ensures moving { MovingFrom (state S.blocks result) }
    ensures transfers { TransfersFrom (state S.blocks result) }
    ensures describing { DescribingFrom (state S.blocks result) }
    ensures sampled { Sampled }
    ensures sampled_by_device { SampledByDevice }
    ensures needed { Needed }
    ensures either_sampled { EitherSampled }
    ensures either_needed { EitherNeeded }
    ensures table { Table }
    ensures base { S.base_of result.store ≡ S.base_of store }
{
    let controller = Controller {
        number,
        map,
        hosts: [Host::at_start(); HOSTS],
        mail: [Mail::powered(); HOSTS],
        activity: 0,
    };
    Device { controller, store }
}
