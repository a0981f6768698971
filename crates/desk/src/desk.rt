ghost use Rattle.std.specs.Prelude.{◌≡◌, ◌<◌, ℕ, Some, None};
ghost use Rattle.desk.specs.Desks.{empty_desk, held, with_slot};

use device::controller::HOSTS;
use device::ticket::Ticket;
use std::array;

/// The ticket that each host holds, if any. It is not `Drop`: `end` takes one that holds none.
pub(super) struct Desk {
    slots: [Option<Ticket>; HOSTS],
}

impl Desk {
    /// No ticket.
    pub(super) fn new() -> Desk
        ensures { result ≡ empty_desk }
    {
        Desk {
            slots: array::from_fn(|_| None),
        }
    }

    /// Takes a host's ticket.
    // By index, here and in `put`: `get_mut` was tried, and the proof doesn't close, since its contract doesn't say what the
    // array is after.
    pub(super) fn take(&mut self, host: u8) -> Option<Ticket>
        ensures value { result ≡ held self.old host }
        ensures after { self.new ≡ with_slot self.old host None }
    {
        let place = usize::from(host);
        if place < HOSTS {
            self.slots[place].take()
        } else {
            None
        }
    }

    /// Keeps a ticket for a host that has none.
    pub(super) fn put(&mut self, host: u8, ticket: Ticket)
        requires place { host < 8 }
        requires free { held self.old host ≡ None }
        ensures { self.new ≡ with_slot self.old host (Some ticket) }
    {
        vacant(self.slots[usize::from(host)].replace(ticket));
    }

    /// Ends a desk that holds no ticket.
    pub(super) fn end(self)
        requires { (h : ℕ) → h < 8 → held self h ≡ None }
    {
        let Desk { slots } = self;
        // by name: a loop was tried, and the check refuses it, since it could end early and let tickets go
        let [a, b, c, d, e, f, g, h] = slots;
        vacant(a);
        vacant(b);
        vacant(c);
        vacant(d);
        vacant(e);
        vacant(f);
        vacant(g);
        vacant(h);
    }
}

/// Ends a place with no ticket.
fn vacant(place: Option<Ticket>)
    requires { place ≡ None }
{
    match place {
        None => {}
        Some(_ticket) => unreachable!(),
    }
}
