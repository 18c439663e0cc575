//! The texts of faults.

use roster_instants::ZoneFault;
use roster_report::TextFault;
use std::alloc::Global;
use std::fmt::Display;
use std::process::Abort;
use std::test::Fail;

/// The text of a fault.
fn has_text(rt: &impl Abort, alloc: Global, fault: &impl Display, text: &str) -> Result<(), Fail> {
    let told = format!(in alloc; "{fault}")?;
    assert!(rt; told.as_str() == text);
    Ok(())
}

#[test]
fn faults_have_texts(rt: HostRuntime) -> Result<(), Fail> {
    for (fault, text) in [
        (ZoneFault::Refused, "the text is no zone that is read here"),
        (
            ZoneFault::NotMinutes,
            "the zone's clocks are not ahead of UTC by whole minutes",
        ),
        (
            ZoneFault::NotRising,
            "the zone's clocks are shifted too far within a day",
        ),
        (ZoneFault::Memory, "out of memory"),
    ] {
        has_text(&rt, rt.alloc(), &fault, text)?;
    }
    has_text(&rt, rt.alloc(), &TextFault::Memory, "out of memory")?;
    has_text(&rt, rt.alloc(), &TextFault::Device, "the writer failed")
}
