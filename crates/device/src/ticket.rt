ghost use Rattle.std.specs.Prelude.{◌≡◌};
ghost use Rattle.device.specs.declared.ticket.Ticket.TheVariants.{Execution, Report};
ghost use Rattle.device.specs.Callers.{pass_on};
ghost use Rattle.device.specs.Device.{ticket_for};

use flex::status::Status;
use host::transaction::Phase;

/// Permission for the segments of one transaction. Like every ticket it is spent by a call, and cannot be copied or let go.
// It and `ReportTicket` are two types so that neither passes for the other. One type with a parameter would be no plainer:
// a const one names the phase by a bool or a number, a type two empty types and a field that holds nothing, and either
// has an alias for each.
pub struct ExecutionTicket {
    pub(super) device: u32,
    pub(super) host: u8,
}

/// Permission for the report of one transaction.
// A type of its own: see `ExecutionTicket`.
pub struct ReportTicket {
    pub(super) device: u32,
    pub(super) host: u8,
}

/// A ticket of either kind: its type is the phase that it is for.
pub enum Ticket {
    Execution(ExecutionTicket),
    Report(ReportTicket),
}

/// A refused call's status, and the ticket that it hands back.
pub struct Returned<T> {
    pub status: Status,
    pub ticket: T,
}

/// What a ticket bears: the number of its device, its host, and the phase that it is for.
#[derive(Drop)]
pub(super) struct Pass {
    pub(super) device: u32,
    pub(super) host: u8,
    pub(super) phase: Phase,
}

impl ExecutionTicket {
    /// What it bears.
    pub(super) fn pass(&self) -> Pass
        ensures { result ≡ pass_on (Execution self.now) }
    {
        Pass {
            device: self.device,
            host: self.host,
            phase: Phase::Execution,
        }
    }
}

impl ReportTicket {
    /// What it bears.
    pub(super) fn pass(&self) -> Pass
        ensures { result ≡ pass_on (Report self.now) }
    {
        Pass {
            device: self.device,
            host: self.host,
            phase: Phase::Report,
        }
    }
}

impl Ticket {
    /// What it bears.
    pub(super) fn pass(&self) -> Pass
        ensures { result ≡ pass_on self.now }
    {
        match self {
            Ticket::Execution(ticket) => ticket.pass(),
            Ticket::Report(ticket) => ticket.pass(),
        }
    }

    /// Ends a ticket that has served.
    pub(super) fn spend(self) {
        match self {
            Ticket::Execution(ExecutionTicket { device: _, host: _ }) => {}
            Ticket::Report(ReportTicket { device: _, host: _ }) => {}
        }
    }

    /// The ticket that a host gets for a phase.
    pub(super) fn of(device: u32, host: u8, phase: Phase) -> Ticket
        ensures { result ≡ ticket_for device host phase }
    {
        match phase {
            Phase::Execution => Ticket::Execution(ExecutionTicket { device, host }),
            Phase::Report => Ticket::Report(ReportTicket { device, host }),
        }
    }
}
