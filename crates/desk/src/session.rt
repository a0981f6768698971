ghost use Rattle.desk.specs.Fits.{AllFit};

use super::answer::Answer;
use super::desk::Desk;
use device::controller::HOSTS;
use device::device::Device;
use device::ticket::{Returned, Ticket};
use store::store::Store;

/// A device that is on, and the tickets that its hosts hold: each is its host's own, and fits the open transaction that the
/// host has. It is not `Drop`: `power_off` ends both.
pub struct Session<S> {
    device: Device<S>,
    desk: Desk,
    ghost fits: { AllFit device.controller.number device.controller.hosts desk },
}

impl<S: Store> Session<S> {
    ghost use Rattle.std.specs.Prelude.{◌≡◌, length};
    ghost use Rattle.device.specs.Calls as calls;
    ghost use Rattle.device.specs.Device.{locks_of, parameters_of, state};
    ghost use Rattle.desk.specs.Desks.{empty_desk, held};
    ghost use Rattle.desk.specs.Worlds.{at_end, by_call, by_cancel, by_report, by_segment, comes_to, locks_told, parameters_told, world};

    /// A device whose hosts hold no ticket here.
    pub fn new(device: Device<S>) -> Session<S>
        ensures is { world S.blocks result ≡ record { state = state S.blocks device; desk = empty_desk } }
        ensures base { S.base_of result.device.store ≡ S.base_of device.store }
    {
        Session {
            device,
            desk: Desk::new(),
        }
    }

    /// Cancels the tickets that are still open, powers the device off, and hands back its store.
    pub fn power_off(mut self) -> S
        ensures same { S.blocks result ≡ (at_end (world S.blocks self)).blocks }
        ensures settled { S.settled result }
        ensures holds { S.stored result ≡ (at_end (world S.blocks self)).blocks }
        ensures base { S.base_of result ≡ S.base_of self.device.store }
    {
        for host in 0..HOSTS as u8 {
            self.cancel(host);
        }
        let Session { device, desk } = self;
        desk.end();
        device.power_off()
    }

    /// Sends a host's command message. A ticket that it is given is kept for it.
    pub fn command(&mut self, host: u8, message: &[u8]) -> Answer
        ensures is { (result, world S.blocks self.new) ≡ by_call (world S.blocks self.old) host (calls.command host message.now) }
        ensures base { S.base_of self.new.device.store ≡ S.base_of self.old.device.store }
    {
        match self.device.command(host, message) {
            Ok(ticket) => {
                let answer = Answer::handed(&ticket);
                self.desk.put(host, ticket);
                answer
            }
            Err(status) => Answer::Refused(status),
        }
    }

    /// Moves the next segment with the execution ticket that a host has. The ticket that comes back is kept for it.
    pub fn segment(&mut self, host: u8, buffer: &mut [u8]) -> Answer
        ensures is { comes_to result buffer.new (world S.blocks self.new) ≡ by_segment (world S.blocks self.old) host (held self.old.desk host) buffer.old }
        ensures base { S.base_of self.new.device.store ≡ S.base_of self.old.device.store }
    {
        match self.desk.take(host) {
            Some(Ticket::Execution(ticket)) => match self.device.segment(ticket, buffer) {
                Ok(ticket) => {
                    let answer = Answer::handed(&ticket);
                    self.desk.put(host, ticket);
                    answer
                }
                Err(Returned { status, ticket }) => {
                    self.desk.put(host, Ticket::Execution(ticket));
                    Answer::Refused(status)
                }
            },
            Some(Ticket::Report(ticket)) => {
                self.desk.put(host, Ticket::Report(ticket));
                Answer::NoTicket
            }
            None => Answer::NoTicket,
        }
    }

    /// Asks for the report with the report ticket that a host has.
    pub fn report(&mut self, host: u8, buffer: &mut [u8]) -> Answer
        ensures is { comes_to result buffer.new (world S.blocks self.new) ≡ by_report (world S.blocks self.old) host (held self.old.desk host) buffer.old }
        ensures base { S.base_of self.new.device.store ≡ S.base_of self.old.device.store }
    {
        match self.desk.take(host) {
            Some(Ticket::Report(ticket)) => match self.device.report(ticket, buffer) {
                Ok(()) => Answer::Done,
                Err(Returned { status, ticket }) => {
                    self.desk.put(host, Ticket::Report(ticket));
                    Answer::Refused(status)
                }
            },
            Some(Ticket::Execution(ticket)) => {
                self.desk.put(host, Ticket::Execution(ticket));
                Answer::NoTicket
            }
            None => Answer::NoTicket,
        }
    }

    /// Gives back the ticket that a host has. It is the host's own, so the device accepts it.
    pub fn cancel(&mut self, host: u8) -> Answer
        ensures is { (result, world S.blocks self.new) ≡ by_cancel (world S.blocks self.old) host (held self.old.desk host) }
        ensures base { S.base_of self.new.device.store ≡ S.base_of self.old.device.store }
    {
        let Some(ticket) = self.desk.take(host) else {
            return Answer::NoTicket;
        };
        match self.device.cancel(ticket) {
            Ok(()) => Answer::Done,
            Err(_returned) => unreachable!(),
        }
    }

    /// Clears a host.
    pub fn clear(&mut self, host: u8) -> Answer
        ensures is { (result, world S.blocks self.new) ≡ by_call (world S.blocks self.old) host (calls.clear host) }
        ensures base { S.base_of self.new.device.store ≡ S.base_of self.old.device.store }
    {
        match self.device.clear(host) {
            Ok(()) => Answer::Done,
            Err(status) => Answer::Refused(status),
        }
    }

    /// Takes a host's notice; without one the answer is `Done`.
    pub fn notice(&mut self, host: u8) -> Answer
        ensures is { (result, world S.blocks self.new) ≡ by_call (world S.blocks self.old) host (calls.notice host) }
        ensures base { S.base_of self.new.device.store ≡ S.base_of self.old.device.store }
    {
        match self.device.notice(host) {
            Ok(Some(status)) => Answer::Notice(status),
            Ok(None) => Answer::Done,
            Err(status) => Answer::Refused(status),
        }
    }

    /// Looks at a host's fault; without one the answer is `Done`.
    pub fn fault(&mut self, host: u8) -> Answer
        ensures is { (result, world S.blocks self.new) ≡ by_call (world S.blocks self.old) host (calls.fault host) }
        ensures base { S.base_of self.new.device.store ≡ S.base_of self.old.device.store }
    {
        match self.device.fault(host) {
            Ok(Some(fault)) => Answer::Fault(fault),
            Ok(None) => Answer::Done,
            Err(status) => Answer::Refused(status),
        }
    }

    /// Looks at a host's parameters.
    pub fn parameters(&self, host: u8) -> Answer
        ensures { result ≡ parameters_told (parameters_of self.now.device.controller host) }
    {
        match self.device.parameters(host) {
            Ok(parameters) => Answer::Parameters(parameters),
            Err(status) => Answer::Refused(status),
        }
    }

    /// Looks at a host's locks.
    pub fn locks(&self, host: u8) -> Answer
        ensures { result ≡ locks_told (locks_of self.now.device.controller host) }
    {
        match self.device.locks(host) {
            Ok(locks) => Answer::Locks(locks),
            Err(status) => Answer::Refused(status),
        }
    }

    /// How many blocks segments have asked for since power on.
    pub fn activity(&self) -> u64
        ensures { result ≡ (world S.blocks self.now).state.activity }
    {
        self.device.activity()
    }

    /// How many blocks the device has.
    pub fn size(&self) -> u32
        ensures { result ≡ length (world S.blocks self.now).state.blocks }
    {
        self.device.size()
    }
}
