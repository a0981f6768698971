ghost use Rattle.std.specs.Prelude.{◌≡◌, Ok};
ghost use Rattle.host.specs.Hosts.{another, at_start, cleared, has_anything, has_locked, has_taken, on, stands};
ghost use Rattle.host.specs.Messages.{accepted, judged, on_its_unit, opened, ready, refused};
ghost use Rattle.host.specs.Progress.{ended, moved_by};

use super::fault::HostFault;
use super::locks::Locks;
use super::progress::Progress;
use super::transaction::{Phase, Transaction};
use super::want::Want;
use flex::status::Status;
use flex::unit_map::{CONTROLLER, UnitMap};
use message::decode::decode;
use message::message::Message;
use message::parameters::Parameters;

/// All that the device keeps of one host, but for its mail.
#[derive(Clone, Copy)]
pub struct Host {
    pub parameters: Parameters,
    /// From power on until the host's first clear.
    pub interlocked: bool,
    pub locks: Locks,
    pub transaction: Option<Transaction>,
    /// The first store fault since the latest accepted message.
    pub fault: Option<HostFault>,
}

impl Host {
    /// A host at power on.
    pub fn at_start() -> Host
        ensures { result ≡ at_start }
    {
        Host {
            interlocked: true,
            ..Host::cleared()
        }
    }

    /// A host after its clear.
    pub fn cleared() -> Host
        ensures { result ≡ cleared }
    {
        Host {
            parameters: Parameters::power_on(),
            interlocked: false,
            locks: Locks::default(),
            transaction: None,
            fault: None,
        }
    }

    /// Whether it has an open transaction on that unit.
    fn is_on(&self, unit: u8) -> bool
        ensures { result ≡ on self.now unit }
    {
        self.transaction
            .is_some_and(|transaction| transaction.is_on(unit))
    }

    /// Whether it has any lock or an open transaction.
    fn has_anything(&self) -> bool
        ensures { result ≡ has_anything self.now }
    {
        self.locks.device || self.locks.has_any_unit() || self.transaction.is_some()
    }

    /// Whether it has locked that unit.
    fn has_locked(&self, unit: u8) -> bool
        ensures { result ≡ has_locked self.now unit }
    {
        self.locks.device || self.locks.has_unit(unit)
    }

    /// Whether it has locked that unit, or has an open transaction there.
    fn has_taken(&self, unit: u8) -> bool
        ensures { result ≡ has_taken self.now unit }
    {
        self.has_locked(unit) || self.is_on(unit)
    }

    /// Whether it stands in the way of what another host asks for.
    #[tactic(auto, unfolding(crate::specs::Hosts::stands))]
    pub fn stands_in_way(&self, want: Want) -> bool
        ensures { result ≡ stands want self.now }
    {
        match want {
            Want::Pass => self.locks.device,
            Want::Device => self.has_anything(),
            Want::Lock(unit) => self.has_taken(unit),
            Want::Unit(unit) => self.has_locked(unit),
        }
    }

    /// Whether a message may be read at all, or the first status that stops it.
    fn ready(&self, reaches: bool) -> Result<(), Status>
        ensures { result ≡ ready reaches self.now }
    {
        if !reaches {
            return Err(Status::StoreTooSmall);
        }
        if self.transaction.is_some() {
            return Err(Status::MessageSequence);
        }
        if self.interlocked {
            return Err(Status::PowerOn);
        }
        Ok(())
    }

    /// What of a command message comes to the lock check, or the first status before it.
    #[tactic(auto, unfolding(crate::specs::Messages::judged))]
    pub fn judge(&self, map: &UnitMap, reaches: bool, bytes: &[u8]) -> Result<Message, Status>
        ensures { result ≡ judged map.now reaches self.now bytes.now }
    {
        self.ready(reaches)?;
        on_its_unit(decode(map, self.parameters, bytes)?)
    }

    /// What a refused message leaves.
    #[tactic(auto, unfolding(crate::specs::Messages::refused))]
    pub fn refuse(&mut self, status: Status)
        ensures { self.new ≡ refused status self.old }
    {
        if status == Status::AddressBounds {
            self.parameters.address = 0;
        }
    }

    /// Takes a message with nothing in its way, and says what the transaction that it opens waits for.
    #[tactic(auto, unfolding(crate::specs::Messages::accepted))]
    pub fn accept(&mut self, map: &UnitMap, message: Message) -> Phase
        ensures waits { result ≡ (opened map.now message).phase }
        ensures left { self.new ≡ accepted map.now message self.old }
    {
        let Message {
            parameters,
            command,
        } = message;
        let transaction = Transaction::opened(map, message);
        self.parameters = Parameters {
            address: transaction.address_after(parameters.address),
            ..parameters
        };
        self.locks.accept(command, parameters.unit);
        self.transaction = Some(transaction);
        self.fault = None;
        transaction.phase
    }

    /// Takes what a segment of its transaction came to.
    pub fn advance(&mut self, transaction: Transaction, progress: Progress)
        ensures { self.new ≡ moved_by transaction progress self.old }
    {
        if progress.tried > 0 {
            self.parameters.address = transaction.address_past(progress.tried);
        }
        self.transaction = Some(transaction.advanced(progress));
        // not by `or`, which would copy a fault where there is none
        if self.fault.is_none() && progress.fault.is_some() {
            self.fault = progress.fault;
        }
    }

    /// Ends its transaction.
    pub fn end(&mut self)
        ensures { self.new ≡ ended self.old }
    {
        self.transaction = None;
    }
}

/// Refuses a command on a unit where the controller is in effect.
fn on_its_unit(message: Message) -> Result<Message, Status>
    ensures { result ≡ on_its_unit (Ok message) }
{
    let on_unit = message.command.is_some_and(|command| command.on_unit());
    if on_unit && message.parameters.unit == CONTROLLER {
        return Err(Status::ModuleAddressing);
    }
    Ok(message)
}

/// Whether a host other than the one at that place stands in the way of what that one asks for.
pub(super) fn another_stands(hosts: &[Host], place: usize, want: Want) -> bool
    ensures { result ≡ another (stands want) place hosts.now }
{
    hosts
        .iter()
        .enumerate()
        .any(|(other, host)| other != place && host.stands_in_way(want))
}

/// Whether something stands in the way of what a host asks for.
pub fn is_blocked(hosts: &[Host], host: u8, want: Want) -> bool
    ensures { result ≡ another (stands want) host hosts.now }
{
    another_stands(hosts, usize::from(host), want)
}
