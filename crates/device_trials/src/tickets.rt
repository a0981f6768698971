use device::device::{Device, power_on};
use device::ticket::{ExecutionTicket, ReportTicket, Returned, Ticket};
use flat::flat::FlatImage;
use flex::geometry::Geometry;
use flex::status::Status;
use flex::unit::Unit;
use flex::unit_map::UnitMap;
use std::process::Abort;
use std::test::Fail;
use store::fault::Protection;
use store::store::Store;

/// One unit of two blocks.
fn two_blocks() -> Result<UnitMap, Status> {
    let geometry = Geometry {
        cylinders: 1,
        heads: 1,
        sectors: 2,
    };
    UnitMap::new(&[Unit { first: 0, geometry }], 2)
}

/// The status of a ticket that does not fit.
fn does_not_fit(status: Status) -> bool {
    status.group() == 1 && status.code() == 6
}

/// Host 0's ticket for a Read. A ticket cannot be let go, so here and below a wrong answer ends the test at once.
fn read<A: Abort, S: Store>(rt: &A, device: &mut Device<S>) -> Ticket {
    match device.command(0, &[0x00]) {
        Ok(ticket) => ticket,
        Err(_) => panic!(rt; "the Read is refused"),
    }
}

/// Gives a ticket back to the device that it is of.
fn give_back<A: Abort, S: Store>(rt: &A, device: &mut Device<S>, ticket: Ticket) {
    match device.cancel(ticket) {
        Ok(()) => {}
        Err(_returned) => panic!(rt; "the cancel is refused"),
    }
}

/// A report ticket is refused by the other device, with its buffer as it was, and then serves at its own.
fn report_comes_back<A: Abort, S: Store, T: Store>(
    rt: &A,
    own: &mut Device<S>,
    other: &mut Device<T>,
    ticket: ReportTicket,
) {
    let mut buffer = [9u8; 13];
    let Err(Returned { status, ticket }) = other.report(ticket, &mut buffer) else {
        panic!(rt; "the other device takes the report ticket");
    };
    assert!(rt; does_not_fit(status));
    assert!(rt; buffer[0] == 9 && buffer[12] == 9);
    match own.report(ticket, &mut buffer) {
        Ok(()) => assert!(rt; buffer[0] == 0 && buffer[12] == 0),
        Err(_returned) => panic!(rt; "the report is refused"),
    }
}

/// So is an execution ticket.
fn segment_comes_back<A: Abort, S: Store, T: Store>(
    rt: &A,
    own: &mut Device<S>,
    other: &mut Device<T>,
    ticket: ExecutionTicket,
) -> ReportTicket {
    let mut buffer = [9u8; 512];
    match other.segment(ticket, &mut buffer) {
        Ok(_next) => panic!(rt; "the other device takes the execution ticket"),
        Err(Returned { status, ticket }) => {
            assert!(rt; does_not_fit(status));
            assert!(rt; buffer[0] == 9 && buffer[511] == 9);
            match own.segment(ticket, &mut buffer) {
                Ok(Ticket::Report(next)) => {
                    assert!(rt; buffer[0] == 1 && buffer[511] == 1);
                    next
                }
                _other => panic!(rt; "the segment does not lead to the report"),
            }
        }
    }
}

/// A Read at one device; its tickets are offered to the other.
fn read_comes_back<A: Abort, S: Store, T: Store>(
    rt: &A,
    own: &mut Device<S>,
    other: &mut Device<T>,
) {
    match read(rt, own) {
        Ticket::Execution(ticket) => {
            let ticket = segment_comes_back(rt, own, other, ticket);
            report_comes_back(rt, own, other, ticket);
        }
        Ticket::Report(_ticket) => panic!(rt; "the Read has no segment"),
    }
}

/// A cancel at the other device is refused too, and the ticket comes back.
fn cancel_comes_back<A: Abort, S: Store, T: Store>(
    rt: &A,
    own: &mut Device<S>,
    other: &mut Device<T>,
) {
    let ticket = read(rt, own);
    let Err(Returned { status, ticket }) = other.cancel(ticket) else {
        panic!(rt; "the other device takes the ticket");
    };
    assert!(rt; does_not_fit(status));
    give_back(rt, own, ticket);
}

/// The other device has a transaction in the same phase for the same host: only its number differs.
fn foreign_tickets<A: Abort, S: Store, T: Store>(
    rt: &A,
    own: &mut Device<S>,
    other: &mut Device<T>,
) {
    assert!(rt; own.clear(0).is_ok() && other.clear(0).is_ok());
    let theirs = read(rt, other);
    cancel_comes_back(rt, own, other);
    read_comes_back(rt, own, other);
    give_back(rt, other, theirs);
    // no transaction was left open
    assert!(rt; own.clear(0).is_ok() && other.clear(0).is_ok());
}

#[test]
fn a_foreign_ticket(rt: HostRuntime) -> Result<(), Fail> {
    let mut bytes = [1u8; 512];
    let mut damage = [0u8; 1];
    let mut others = [2u8; 512];
    let mut marks = [0u8; 1];
    let Ok(map) = two_blocks() else {
        return Err(Fail::new("no map"));
    };
    let image = FlatImage::over(&mut bytes, &mut damage, Protection::Open);
    let second = FlatImage::over(&mut others, &mut marks, Protection::Open);
    let mut own = power_on(1, map, image);
    let mut other = power_on(2, map, second);
    foreign_tickets(&rt, &mut own, &mut other);
    drop(own.power_off());
    drop(other.power_off());
    Ok(())
}
