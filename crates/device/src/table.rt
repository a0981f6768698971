ghost use Rattle.std.specs.Prelude.{◌≡◌, if◌then◌else◌, is_some};
ghost use Rattle.std.specs.Option.{option_map};
ghost use Rattle.host.specs.Messages.{judged, refused};
ghost use Rattle.host.specs.Hosts.{cleared, host_at};
ghost use Rattle.host.specs.Waits.{mail_at, silent, without_notice};
ghost use Rattle.host.specs.Progress.{ended};
ghost use Rattle.device.specs.Answers.{command_answer};
ghost use Rattle.device.specs.Callers.{numbered, number_or, kept, with_record, commanded, borne};
ghost use Rattle.device.specs.Device.{with_host, with_activity, with_waits, taken, gone_on};

use super::caller::Caller;
use super::controller::Controller;
use super::ticket::{Pass, Ticket};
use flex::status::Status;
use host::mail::{Mail, settle};
use host::progress::Progress;
use host::record::{Host, is_blocked};
use host::transaction::Transaction;
use host::want::Want;
use message::message::Message;

impl Controller {
    /// The host of that number; or 128/4, and every wait is judged.
    pub(super) fn caller(&mut self, number: u8) -> Result<Caller, Status>
        ensures { (numbered result, self.new) ≡ number_or self.old number }
    {
        let found = Caller::find(number);
        if found.is_none() {
            self.judge_waits();
        }
        found.ok_or(Status::BadHost)
    }

    /// What is kept of a host, but for its mail.
    pub(super) fn host(&self, caller: Caller) -> &Host
        ensures { result.now ≡ host_at self.now.hosts caller.number }
    {
        &self.hosts[caller.place()]
    }

    /// The host that a ticket bears and the open transaction that it fits: the ticket bears this device's number, and the
    /// transaction is in its phase.
    fn fit(&self, pass: Pass) -> Option<(Caller, Transaction)>
        ensures { option_map (λ p. (p.0.number, p.1)) result ≡ borne self.now pass }
    {
        let caller = Caller::find(pass.host)?;
        let transaction = self.host(caller).transaction?;
        let fits = pass.device == self.number && pass.phase == transaction.phase;
        fits.then_some((caller, transaction))
    }

    /// The host that a ticket bears and the open transaction that it fits; or none, and every wait is judged.
    pub(super) fn fitting(&mut self, pass: Pass) -> Option<(Caller, Transaction)>
        ensures found { option_map (λ p. (p.0.number, p.1)) result ≡ borne self.old pass }
        ensures left { self.new ≡ (if is_some result then self.old else with_waits self.old) }
    {
        let found = self.fit(pass);
        if found.is_none() {
            self.judge_waits();
        }
        found
    }

    /// Judges every host's wait.
    pub(super) fn judge_waits(&mut self)
        ensures { self.new ≡ with_waits self.old }
    {
        settle(&self.hosts, &mut self.mail);
    }

    /// Counts blocks that were tried; the count stays at its largest.
    fn count(&mut self, tried: u32)
        ensures { self.new ≡ with_activity self.old tried }
    {
        self.activity = self.activity.saturating_add(u64::from(tried));
    }

    /// A host's command message; `reaches` says whether the store's count reaches the map's end.
    pub(super) fn command(
        &mut self,
        caller: Caller,
        reaches: bool,
        bytes: &[u8],
    ) -> Result<Ticket, Status>
        ensures { (command_answer result, self.new) ≡ commanded self.old caller.number (judged self.old.map reaches (host_at self.old.hosts caller.number) bytes.now) }
    {
        match self.host(caller).judge(&self.map, reaches, bytes) {
            Err(status) => {
                self.refuse(caller, status);
                Err(status)
            }
            Ok(message) => self.take(caller, message),
        }
    }

    /// Takes a message at the lock check: it is waited for where something stands in its way, and accepted otherwise.
    fn take(&mut self, caller: Caller, message: Message) -> Result<Ticket, Status>
        ensures { (command_answer result, self.new) ≡ taken self.old caller.number (kept self.old caller.number) message }
    {
        let want = Want::of(message);
        if is_blocked(&self.hosts, caller.number, want) {
            self.mail[caller.place()].wait_for(want);
            self.judge_waits();
            return Err(Status::ResourceUnavailable);
        }
        let phase = self.hosts[caller.place()].accept(&self.map, message);
        self.judge_waits();
        Ok(Ticket::of(self.number, caller.number, phase))
    }

    /// Refuses a host's message.
    fn refuse(&mut self, caller: Caller, status: Status)
        ensures { self.new ≡ with_record self.old caller.number (refused status (host_at self.old.hosts caller.number)) }
    {
        self.hosts[caller.place()].refuse(status);
        self.judge_waits();
    }

    /// Ends a host's interlock and restores its values; its locks, notice, wait and fault are dropped.
    pub(super) fn clear(&mut self, caller: Caller)
        ensures { self.new ≡ with_host self.old caller.number (record { host = cleared; mail = silent }) }
    {
        self.hosts[caller.place()] = Host::cleared();
        self.mail[caller.place()] = Mail::silent();
        self.judge_waits();
    }

    /// A host's notice, which is then there no more.
    pub(super) fn take_notice(&mut self, caller: Caller) -> Option<Status>
        ensures told { result ≡ (mail_at self.old.mail caller.number).notice }
        ensures left { self.new ≡ with_host self.old caller.number (record { host = host_at self.old.hosts caller.number; mail = without_notice (mail_at self.old.mail caller.number) }) }
    {
        let told = self.mail[caller.place()].take_notice();
        self.judge_waits();
        told
    }

    /// Ends a host's transaction.
    pub(super) fn close(&mut self, caller: Caller)
        ensures { self.new ≡ with_record self.old caller.number (ended (host_at self.old.hosts caller.number)) }
    {
        self.hosts[caller.place()].end();
        self.judge_waits();
    }

    /// Takes what a segment of a host's transaction came to, and hands out the ticket for what follows.
    pub(super) fn go_on(
        &mut self,
        caller: Caller,
        transaction: Transaction,
        progress: Progress,
    ) -> Ticket
        ensures { (result, self.new) ≡ gone_on self.old caller.number (kept self.old caller.number) transaction progress }
    {
        self.hosts[caller.place()].advance(transaction, progress);
        self.count(progress.tried);
        self.judge_waits();
        Ticket::of(self.number, caller.number, transaction.phase_after())
    }
}
