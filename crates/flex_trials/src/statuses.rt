use flex::status::Status;
use message::command::Command;
use std::test::Fail;

#[test]
fn each_status_has_its_group_and_code(rt: HostRuntime) -> Result<(), Fail> {
    let rows: &[(Status, u8, u8, &str)] = &[
        (Status::IllegalOpcode, 1, 1, "1/1"),
        (Status::ModuleAddressing, 1, 2, "1/2"),
        (Status::AddressBounds, 1, 3, "1/3"),
        (Status::ParameterBounds, 1, 4, "1/4"),
        (Status::MessageSequence, 1, 6, "1/6"),
        (Status::MessageLength, 2, 0, "2/0"),
        (Status::PowerOn, 3, 1, "3/1"),
        (Status::DeviceAvailable, 4, 1, "4/1"),
        (Status::ResourceUnavailable, 4, 3, "4/3"),
        (Status::UnitAvailable, 4, 8, "4/8"),
        (Status::UnitFault, 5, 4, "5/4"),
        (Status::UnrecoverableData, 8, 4, "8/4"),
        (Status::EndOfVolume, 8, 5, "8/5"),
        (Status::BadUnitMap, 128, 1, "128/1"),
        (Status::StoreTooSmall, 128, 2, "128/2"),
        (Status::BadHost, 128, 4, "128/4"),
        (Status::BadBuffer, 128, 5, "128/5"),
    ];
    for (status, group, code, text) in rows {
        assert_eq!(rt; status.group(), *group);
        assert_eq!(rt; status.code(), *code);
        let written = status.to_string(rt.alloc())?;
        assert_eq!(rt; written.as_str(), *text);
    }
    Ok(())
}

#[test]
fn five_commands_are_on_a_unit(rt: HostRuntime) {
    let rows = [
        (Command::Read, true),
        (Command::Write, true),
        (Command::Verify, true),
        (Command::ExtendedDescribe, false),
        (Command::SetDeviceLock, false),
        (Command::DeleteDeviceLock, false),
        (Command::SetUnitLock, true),
        (Command::DeleteUnitLock, true),
    ];
    for (command, on_unit) in rows {
        assert_eq!(rt; command.on_unit(), on_unit);
    }
}
