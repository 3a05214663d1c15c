use board::board::Board;
use board::refusal::Refusal;
use board::status::{DoorStatus, Output};
use boards::loop_board::LoopBoard;
use boards::plain_board::PlainBoard;
use std::process::Abort;
use steady::steady::Steady;

fn outputs<B: Board>(rt: &impl Abort, board: &B, wanted: [Output; 3]) {
    for (i, output) in wanted.iter().enumerate() {
        assert_eq!(rt; board.output(i), Ok(*output), "{}", i);
    }
}

// Two doors and the sounder, driven one at a time; a tick and a refused drive leave the outputs.
fn drives_alone<B: Board>(rt: &impl Abort, board: &mut B, bytes: &[u8]) {
    assert_eq!(rt; board.drive(1, Output::Released), Ok(()));
    outputs(rt, board, [Output::Held, Output::Released, Output::Held]);
    assert_eq!(rt; board.drive(2, Output::Released), Ok(()));
    outputs(
        rt,
        board,
        [Output::Held, Output::Released, Output::Released],
    );
    assert_eq!(rt;
        board.drive(3, Output::Released),
        Err(Refusal::no_such_output(3))
    );
    assert_eq!(rt; board.drive(1, Output::Held), Ok(()));
    assert_eq!(rt; board.tick(bytes), Ok(()));
    outputs(rt, board, [Output::Held, Output::Held, Output::Released]);
}

#[test]
fn an_output_is_set_alone(rt: HostRuntime) {
    drives_alone(&rt, &mut PlainBoard::new(2), &[0, 31]);
    drives_alone(&rt, &mut LoopBoard::new(2), &[32, 32, 32, 32]);
    drives_alone(&rt, &mut Steady::new(PlainBoard::new(2), 2), &[1, 3]);
}

// One door that is closed, then a tick of a wrong length, which is refused and changes nothing.
fn keeps_after_wrong_length<B: Board>(rt: &impl Abort, board: &mut B, closed: &[u8], wrong: &[u8]) {
    assert_eq!(rt; board.tick(closed), Ok(()));
    assert_eq!(rt; board.contact(0), Ok(DoorStatus::Closed));
    assert_eq!(rt;
        board.tick(wrong),
        Err(Refusal::wrong_tick_length(wrong.len()))
    );
    assert_eq!(rt; board.contact(0), Ok(DoorStatus::Closed));
}

#[test]
fn a_wrong_length_is_refused(rt: HostRuntime) {
    keeps_after_wrong_length(&rt, &mut PlainBoard::new(1), &[1], &[]);
    keeps_after_wrong_length(&rt, &mut PlainBoard::new(1), &[1], &[3, 3]);
    keeps_after_wrong_length(&rt, &mut LoopBoard::new(1), &[32, 32], &[128]);
    keeps_after_wrong_length(&rt, &mut LoopBoard::new(1), &[32, 32], &[128, 128, 128]);
    keeps_after_wrong_length(&rt, &mut Steady::new(PlainBoard::new(1), 1), &[1], &[3, 3]);
}
