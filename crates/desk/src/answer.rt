ghost use Rattle.std.specs.Prelude.{◌≡◌};
ghost use Rattle.desk.specs.Answers.{handed};

use device::ticket::Ticket;
use flex::status::Status;
use host::fault::HostFault;
use host::locks::Locks;
use message::parameters::Parameters;

/// What a call of a session answers.
#[derive(Clone, Copy)]
pub enum Answer {
    Refused(Status),
    Done,
    /// the host now has an execution ticket
    Execution,
    /// the host now has a report ticket
    Report,
    /// the host has no ticket of the kind that the call takes
    NoTicket,
    Notice(Status),
    Fault(HostFault),
    Parameters(Parameters),
    Locks(Locks),
    Activity(u64),
}

impl Answer {
    /// The host now has this ticket.
    pub(super) fn handed(ticket: &Ticket) -> Answer
        ensures { result ≡ handed ticket.now }
    {
        match ticket {
            Ticket::Execution(_) => Answer::Execution,
            Ticket::Report(_) => Answer::Report,
        }
    }
}
