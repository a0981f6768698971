use crate::small::two_units;
use flex::status::Status;
use message::decode::decode;
use message::message::Message;
use message::parameters::Parameters;
use std::process::Abort;
use std::test::Fail;

/// Each message is refused with its status, from a host at power on.
fn refuses(rt: &impl Abort, rows: &[(&[u8], Status)]) -> Result<(), Fail> {
    let map = two_units()?;
    for (bytes, status) in rows {
        assert_eq!(rt; decode(&map, Parameters::power_on(), bytes), Err(*status));
    }
    Ok(())
}

#[test]
fn unknown_codes(rt: HostRuntime) -> Result<(), Fail> {
    let map = two_units()?;
    let codes = [
        0x01u8, 0x03, 0x05, 0x0b, 0x0d, 0x0f, 0x12, 0x17, 0x19, 0x1f, 0x30, 0x33, 0x35, 0x62, 0x64,
        0x6a, 0x6c, 0x72, 0x74, 0x7a, 0x7c, 0xff,
    ];
    for code in codes {
        let refused = Err(Status::IllegalOpcode);
        assert_eq!(rt; decode(&map, Parameters::power_on(), &[code]), refused);
    }
    Ok(())
}

#[test]
fn units_that_are_not_in_the_map(rt: HostRuntime) -> Result<(), Fail> {
    let map = two_units()?;
    for code in 0x22u8..0x2f {
        let refused = Err(Status::ModuleAddressing);
        assert_eq!(rt; decode(&map, Parameters::power_on(), &[code]), refused);
    }
    Ok(())
}

#[test]
fn codes_out_of_place(rt: HostRuntime) -> Result<(), Fail> {
    refuses(
        &rt,
        &[
            (&[0x20, 0x20], Status::MessageSequence),
            (&[0x20, 0x34, 0x21], Status::MessageSequence),
            (&[0x10, 0, 0, 0, 0, 0, 0, 0x20], Status::MessageSequence),
            (&[0x18, 0, 0, 1, 0, 0x20], Status::MessageSequence),
            (&[0x00, 0x20], Status::MessageSequence),
            (&[0x10, 0, 0, 0, 0, 0, 0, 0x10], Status::MessageSequence),
            (&[0x10, 0, 0, 0, 0, 0, 0, 0x11], Status::MessageSequence),
            (&[0x11, 0, 0, 0, 0, 0, 0, 0x10], Status::MessageSequence),
            (&[0x11, 0, 0, 0, 0, 0, 0, 0x11], Status::MessageSequence),
            (&[0x18, 0, 0, 1, 0, 0x18], Status::MessageSequence),
            (&[0x02, 0x10, 0, 0, 0, 0, 0, 0], Status::MessageSequence),
            (&[0x04, 0x18, 0, 0, 1, 0], Status::MessageSequence),
            (&[0x63, 0x6b], Status::MessageSequence),
            (&[0x73, 0x34, 0x7b], Status::MessageSequence),
        ],
    )
}

#[test]
fn values_out_of_bounds(rt: HostRuntime) -> Result<(), Fail> {
    refuses(
        &rt,
        &[
            (&[0x10, 0, 0, 0, 0, 0, 40], Status::AddressBounds),
            (&[0x21, 0x10, 0, 0, 0, 0, 0, 24], Status::AddressBounds),
            (&[0x10, 0, 1, 0, 0, 0, 3], Status::AddressBounds),
            (&[0x10, 1, 0, 0, 0, 0, 3], Status::AddressBounds),
            (&[0x11, 0, 0, 4, 0, 0, 0], Status::AddressBounds),
            (&[0x11, 1, 0, 0, 0, 0, 0], Status::AddressBounds),
            (&[0x11, 0, 0, 0, 2, 0, 0], Status::AddressBounds),
            (&[0x11, 0, 0, 0, 0, 0, 5], Status::AddressBounds),
            (&[0x11, 0, 0, 0, 0, 1, 0], Status::AddressBounds),
            (&[0x2f, 0x10, 0, 0, 0, 0, 0, 0], Status::AddressBounds),
            (&[0x2f, 0x11, 0, 0, 0, 0, 0, 0], Status::AddressBounds),
            (&[0x18, 0, 0, 1, 1], Status::ParameterBounds),
            (&[0x18, 0, 0, 0, 255], Status::ParameterBounds),
            (&[0x18, 255, 255, 255, 254], Status::ParameterBounds),
        ],
    )
}

#[test]
fn the_first_fault_counts(rt: HostRuntime) -> Result<(), Fail> {
    refuses(
        &rt,
        &[
            (&[0x22, 0xff], Status::ModuleAddressing),
            (&[0xff, 0x22], Status::IllegalOpcode),
            (&[0x22, 0x22], Status::ModuleAddressing),
            (&[0x20, 0x22], Status::MessageSequence),
            (&[0x00, 0x10, 0], Status::MessageSequence),
            (&[0x10, 0, 0, 0, 0, 0, 40, 0xff], Status::AddressBounds),
            (&[0x18, 0, 0, 0, 1, 0x18], Status::ParameterBounds),
            (&[0x20, 0x00, 0x0d], Status::IllegalOpcode),
            (&[0x20, 0x00, 0x0c], Status::MessageSequence),
        ],
    )
}

#[test]
fn short_operands(rt: HostRuntime) -> Result<(), Fail> {
    let map = two_units()?;
    let own = Parameters::power_on();
    let messages: [&[u8]; 3] = [
        &[0x10, 0, 0, 0, 0, 0, 0],
        &[0x11, 0, 0, 0, 0, 0, 0],
        &[0x18, 0, 0, 1, 0],
    ];
    for message in messages {
        for n in 1..message.len() {
            let refused = Err(Status::MessageLength);
            assert_eq!(rt; decode(&map, own, &message[..n]), refused);
        }
    }
    Ok(())
}

#[test]
fn lengths_of_a_message(rt: HostRuntime) -> Result<(), Fail> {
    let map = two_units()?;
    let own = Parameters::power_on();
    let message = Message {
        parameters: own,
        command: None,
    };
    let refused = Err(Status::MessageLength);
    assert_eq!(rt; decode(&map, own, &[]), refused);
    assert_eq!(rt; decode(&map, own, &[0x34]), Ok(message));
    assert_eq!(rt; decode(&map, own, &[0x34; 1024]), Ok(message));
    assert_eq!(rt; decode(&map, own, &[0x34; 1025]), refused);
    Ok(())
}
