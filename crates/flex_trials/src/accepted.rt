use crate::small::two_units;
use message::command::Command;
use message::decode::decode;
use message::message::Message;
use message::parameters::Parameters;
use std::process::Abort;
use std::test::Fail;

/// A host on unit 1, at address 7, with a length of one block.
const OWN: Parameters = Parameters {
    unit: 1,
    address: 7,
    length: 256,
};

/// Each message sets these parameters, unit, address and length, and asks for this command.
fn accepts(rt: &impl Abort, rows: &[(&[u8], u8, u32, u32, Option<Command>)]) -> Result<(), Fail> {
    let map = two_units()?;
    for (bytes, unit, address, length, command) in rows {
        let parameters = Parameters {
            unit: *unit,
            address: *address,
            length: *length,
        };
        let message = Message {
            parameters,
            command: *command,
        };
        assert_eq!(rt; decode(&map, OWN, bytes), Ok(message));
    }
    Ok(())
}

#[test]
fn at_power_on(rt: HostRuntime) {
    let own = Parameters::power_on();
    assert_eq!(rt; own.unit, 0);
    assert_eq!(rt; own.address, 0);
    assert_eq!(rt; own.length, 0xffff_ffff);
}

#[test]
fn each_command(rt: HostRuntime) -> Result<(), Fail> {
    accepts(
        &rt,
        &[
            (&[0x34], 1, 7, 256, None),
            (&[0x00], 1, 7, 256, Some(Command::Read)),
            (&[0x02], 1, 7, 256, Some(Command::Write)),
            (&[0x04], 1, 7, 256, Some(Command::Verify)),
            (&[0x0c], 1, 7, 256, Some(Command::ExtendedDescribe)),
            (&[0x63], 1, 7, 256, Some(Command::SetDeviceLock)),
            (&[0x6b], 1, 7, 256, Some(Command::DeleteDeviceLock)),
            (&[0x73], 1, 7, 256, Some(Command::SetUnitLock)),
            (&[0x7b], 1, 7, 256, Some(Command::DeleteUnitLock)),
            (&[0x34, 0x00, 0x34, 0x34], 1, 7, 256, Some(Command::Read)),
        ],
    )
}

#[test]
fn units_and_what_becomes_of_the_address(rt: HostRuntime) -> Result<(), Fail> {
    accepts(
        &rt,
        &[
            (&[0x20], 0, 0, 256, None),
            (&[0x21], 1, 7, 256, None),
            (&[0x2f], 15, 0, 256, None),
            (&[0x2f, 0x00], 15, 0, 256, Some(Command::Read)),
            (&[0x34, 0x34, 0x20, 0x34], 0, 0, 256, None),
        ],
    )
}

#[test]
fn addresses_and_lengths(rt: HostRuntime) -> Result<(), Fail> {
    accepts(
        &rt,
        &[
            (&[0x10, 0, 0, 0, 0, 0, 23], 1, 23, 256, None),
            (&[0x20, 0x10, 0, 0, 0, 0, 0, 39], 0, 39, 256, None),
            (&[0x20, 0x11, 0, 0, 2, 1, 0, 3], 0, 28, 256, None),
            (&[0x20, 0x11, 0, 0, 3, 1, 0, 4], 0, 39, 256, None),
            (&[0x18, 0, 0, 0, 0], 1, 7, 0, None),
            (&[0x18, 1, 2, 3, 0], 1, 7, 0x0102_0300, None),
            (&[0x18, 255, 255, 255, 0], 1, 7, 0xffff_ff00, None),
            (&[0x18, 255, 255, 255, 255], 1, 7, 0xffff_ffff, None),
        ],
    )
}

#[test]
fn either_order(rt: HostRuntime) -> Result<(), Fail> {
    let read = Some(Command::Read);
    accepts(
        &rt,
        &[
            (
                &[0x20, 0x10, 0, 0, 0, 0, 0, 9, 0x18, 0, 0, 2, 0, 0x00],
                0,
                9,
                512,
                read,
            ),
            (
                &[0x20, 0x18, 0, 0, 2, 0, 0x10, 0, 0, 0, 0, 0, 9, 0x00],
                0,
                9,
                512,
                read,
            ),
            (
                &[0x18, 0, 0, 2, 0, 0x34, 0x11, 0, 0, 2, 0, 0, 7, 0x00],
                1,
                23,
                512,
                read,
            ),
        ],
    )
}
