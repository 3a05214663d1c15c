ghost use Rattle.std.specs.Prelude.{◌≡◌, ◌<◌, ◌++◌, IfOk, string_bytes, OnOk};
ghost use Rattle.wiring_answers.specs.Answer.{made_text, door_text, sounder_text, asked_text, call_text, call_after};

use board::board::Board;
use outcome::outcome::outcome_text;
use std::alloc::{AllocError, Global};
use wiring::step::Call;

/// The line that tells of a new board.
pub fn board_line<B: Board>(heap: Global, board: &B) -> Result<String, AllocError>
    ensures { IfOk result (λ s. string_bytes s ≡ made_text (B.held (B.memory board.now))) }
{
    let doors = board.doors();
    let width = board.width();
    format!(in heap; "board doors={doors} width={width}")
}

fn push_door<B: Board>(board: &B, door: usize, out: &mut String) -> Result<(), AllocError>
    requires { door < (B.held (B.memory board.now)).doors }
    ensures { OnOk result (string_bytes out.new ≡ string_bytes out.old ++ door_text (B.held (B.memory board.now)) door) }
{
    let output = board.output(door).unwrap();
    let contact = board.contact(door).unwrap();
    let reading = board.reading(door).unwrap();
    write!(out, "{door}={output}/{contact}/{reading} ")
}

#[tactic(auto, using(crate::proofs::Texts::one_piece_more))]
fn asked_line<B: Board>(heap: Global, board: &B) -> Result<String, AllocError>
    ensures { IfOk result (λ s. string_bytes s ≡ asked_text (B.held (B.memory board.now))) }
{
    let mut out = String::new(heap);
    let doors = board.doors();
    // By number, as the trait `Board` asks for a door.
    for door in 0..doors {
        push_door(board, door, &mut out)?;
    }
    let sounder = board.output(doors).unwrap();
    write!(out, "sounder={sounder}")?;
    Ok(out)
}

/// Makes one call on a board, and answers the line that tells of it.
pub fn answer<B: Board>(heap: Global, board: &mut B, call: &Call) -> Result<String, AllocError>
    ensures value { IfOk result (λ s. string_bytes s ≡ call_text (B.held (B.memory board.old)) call.now) }
    ensures after { B.memory board.new ≡ call_after B.held B.driven B.told (B.memory board.old) call.now }
{
    match call {
        Call::Drive(drive) => outcome_text(heap, board.drive(drive.output, drive.to)),
        Call::Tick(bytes) => outcome_text(heap, board.tick(bytes.as_slice())),
        Call::Ask => asked_line(heap, board),
    }
}
