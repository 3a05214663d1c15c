use board::refusal::{Cause, Layer};

const CAUSES: [Cause; 14] = [
    Cause::NoSuchDoor,
    Cause::NoSuchPriority,
    Cause::ValueOutOfRange,
    Cause::NoSuchItem,
    Cause::WrongTickLength,
    Cause::RecordCut,
    Cause::BadRecord,
    Cause::SimulateInService,
    Cause::AlarmStateMasked,
    Cause::NoNoticeWaiting,
    Cause::SlipIsOut,
    Cause::NoSuchSlip,
    Cause::ReportTooLong,
    Cause::LastTenth,
];

#[test]
fn causes_are_numbered_from_1(rt: HostRuntime) {
    let mut number = 0u8;
    for cause in CAUSES {
        number = number.saturating_add(1);
        assert_eq!(rt; cause.number(), number);
    }
    assert_eq!(rt; number, 14);
}

#[test]
fn an_earlier_cause_goes_first(rt: HostRuntime) {
    for (i, a) in CAUSES.iter().enumerate() {
        for (j, b) in CAUSES.iter().enumerate() {
            assert_eq!(rt; a.goes_before(*b), i < j);
        }
    }
}

#[test]
fn layers_are_numbered_from_1(rt: HostRuntime) {
    assert_eq!(rt; Layer::Board.number(), 1);
    assert_eq!(rt; Layer::Panel.number(), 2);
    assert_eq!(rt; Layer::Records.number(), 3);
}
