use fzn_domain::Memory;
use fzn_fault::Stop;
use std::alloc::Global;
use std::test::*;

/// Whether the fault has this name, number, line and status.
fn is_told(
    alloc: Global,
    stop: Stop,
    name: &str,
    number: u8,
    line: &str,
    status: u8,
) -> Result<bool, Memory> {
    let text = format!(in alloc; "{stop}")?;
    Ok(
        stop.name() == name
            && stop.number() == number
            && stop.status() == status
            && text.as_str() == line,
    )
}

#[test]
fn lines_and_statuses(rt: HostRuntime) -> Result<(), Fail> {
    let alloc = rt.alloc();
    assert!(rt; is_told(alloc, Stop::Read, "Read", 20, "fault 20 Read", 4)?);
    assert!(rt;
        is_told(
            alloc,
            Stop::CommandLine,
            "CommandLine",
            23,
            "fault 23 CommandLine",
            3
        )?
    );
    Ok(())
}
