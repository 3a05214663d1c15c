use board::board::Board;
use board::refusal::Refusal;
use board::status::{DoorStatus, LockStatus, Output};
use boards::loop_board::LoopBoard;
use boards::plain_board::PlainBoard;
use std::process::Abort;
use steady::steady::Steady;

// A new board has that many doors and that width, holds its outputs and knows nothing; past its end it refuses.
fn is_new<B: Board>(rt: &impl Abort, board: &B, wished: usize, doors: usize, width: usize) {
    assert_eq!(rt; board.doors(), doors, "wished {wished}");
    assert_eq!(rt; board.width(), width, "wished {wished}");
    // By number, as the trait `Board` asks for a door.
    for door in 0..doors {
        assert_eq!(rt; board.output(door), Ok(Output::Held), "wished {wished}");
        assert_eq!(rt;
            board.contact(door),
            Ok(DoorStatus::Unknown),
            "wished {wished}"
        );
        assert_eq!(rt;
            board.reading(door),
            Ok(LockStatus::Unknown),
            "wished {wished}"
        );
    }
    assert_eq!(rt; board.output(doors), Ok(Output::Held), "wished {wished}");
    assert_eq!(rt;
        board.contact(doors),
        Err(Refusal::no_such_output(doors)),
        "wished {wished}"
    );
    assert_eq!(rt;
        board.reading(doors),
        Err(Refusal::no_such_output(doors)),
        "wished {wished}"
    );
    let past = doors.saturating_add(1);
    assert_eq!(rt;
        board.output(past),
        Err(Refusal::no_such_output(past)),
        "wished {wished}"
    );
}

#[test]
fn wished_doors(rt: HostRuntime) {
    for (wished, doors) in [
        (0usize, 1usize),
        (1, 1),
        (2, 2),
        (63, 63),
        (64, 64),
        (65, 64),
        (usize::MAX, 64),
    ] {
        is_new(&rt, &PlainBoard::new(wished), wished, doors, doors);
        is_new(
            &rt,
            &LoopBoard::new(wished),
            wished,
            doors,
            doors.saturating_mul(2),
        );
        is_new(
            &rt,
            &Steady::new(LoopBoard::new(wished), 3),
            wished,
            doors,
            doors.saturating_mul(2),
        );
    }
}
