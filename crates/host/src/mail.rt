ghost use Rattle.std.specs.Prelude.{◌≡◌};
ghost use Rattle.host.specs.Waits.{powered, settle, settled, silent, waiting_for, without_notice};

use super::record::{Host, another_stands};
use super::want::Want;
use flex::status::Status;

/// What a host waits for, and what it is to be told.
#[derive(Clone, Copy)]
pub struct Mail {
    pub wait: Option<Want>,
    pub notice: Option<Status>,
}

impl Mail {
    /// No wait and no notice.
    // The derived Default would be no plainer: a clear that leaves it says by this name what it leaves.
    pub fn silent() -> Mail
        ensures { result ≡ silent }
    {
        Mail {
            wait: None,
            notice: None,
        }
    }

    /// A host's mail at power on.
    pub fn powered() -> Mail
        ensures { result ≡ powered }
    {
        Mail {
            wait: None,
            notice: Some(Status::PowerOn),
        }
    }

    /// From now on the host waits for this, and for nothing else.
    pub fn wait_for(&mut self, want: Want)
        ensures { self.new ≡ waiting_for want self.old }
    {
        self.wait = Some(want);
    }

    /// The notice, which is then there no more.
    pub fn take_notice(&mut self) -> Option<Status>
        ensures told { result ≡ self.old.notice }
        ensures left { self.new ≡ without_notice self.old }
    {
        self.notice.take()
    }

    /// Judges the wait of the host at a place of the table.
    fn settle(&mut self, hosts: &[Host], place: usize)
        ensures { self.new ≡ settled hosts.now place self.old }
    {
        if let Some(want) = self.wait
            && !another_stands(hosts, place, want)
        {
            self.wait = None;
            self.notice = Some(want.notice());
        }
    }
}

/// Judges the waits of all hosts.
pub fn settle(hosts: &[Host], mail: &mut [Mail])
    ensures { mail.new ≡ settle hosts.now mail.old }
{
    for (place, mail) in mail.iter_mut().enumerate() {
        mail.settle(hosts, place);
    }
}
