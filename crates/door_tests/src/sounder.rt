use crate::fixture::{accepted, refused};
use board::refusal::Cause;
use slots::sounder::Sounder;
use std::test::*;

fn after(sounder: Sounder, priority: u64, value: Option<u64>) -> Result<Sounder, Fail> {
    accepted(sounder.command(priority, value))
}

#[test]
fn the_same_rule_serves_the_sounder(rt: HostRuntime) -> Result<(), Fail> {
    let made = Sounder::at_making();
    assert_eq!(rt; made.present().number(), 0);
    let active = after(made, 16, Some(1))?;
    assert_eq!(rt; active.present().number(), 1);
    let silenced = after(active, 1, Some(0))?;
    assert_eq!(rt; silenced.present().number(), 0);
    let again = after(silenced, 1, None)?;
    assert_eq!(rt; again.present().number(), 1);
    refused(
        &rt,
        &[6, 1],
        made.command(6, Some(1)),
        Cause::NoSuchPriority,
    )?;
    refused(
        &rt,
        &[17, 2],
        made.command(17, Some(2)),
        Cause::NoSuchPriority,
    )?;
    refused(
        &rt,
        &[5, 2],
        made.command(5, Some(2)),
        Cause::ValueOutOfRange,
    )
}
