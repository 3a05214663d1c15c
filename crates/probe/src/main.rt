//! Reads a wiring list from standard input, makes its calls on boards, and prints what each board answers.
#![tactic(auto)]

use board::board::Board;
use board_words::wanted::{BoardKind, Wanted};
use boards::loop_board::LoopBoard;
use boards::plain_board::PlainBoard;
use std::io::Read;
use std::process::ExitCode;
use steady::steady::Steady;
use wiring::list::{WiringList, read_list};
use wiring::step::Step;
use wiring_answers::answer::{answer, board_line};

/// Makes the calls that stand before the next board line.
fn serve<B: Board>(rt: &HostRuntime, board: &mut B, steps: &[Step]) -> anyhow::Result<()> {
    rt.println(board_line(rt.alloc(), board)?)?;
    for step in steps {
        let Step::Call(call) = step else {
            break;
        };
        rt.println(answer(rt.alloc(), board, call)?)?;
    }
    Ok(())
}

/// Puts a steady contact over a new board where one is asked for, and makes the calls that follow.
fn start_on<B: Board + Drop>(
    rt: &HostRuntime,
    mut board: B,
    steady: Option<u8>,
    steps: &[Step],
) -> anyhow::Result<()> {
    match steady {
        Some(count) => serve(rt, &mut Steady::new(board, count), steps),
        None => serve(rt, &mut board, steps),
    }
}

/// Makes the board that a line asks for, and the calls that follow the line.
fn start(rt: &HostRuntime, wanted: Wanted, steps: &[Step]) -> anyhow::Result<()> {
    match wanted.kind {
        BoardKind::Plain => start_on(rt, PlainBoard::new(wanted.doors), wanted.steady, steps),
        BoardKind::Loop => start_on(rt, LoopBoard::new(wanted.doors), wanted.steady, steps),
    }
}

fn read(rt: &HostRuntime) -> anyhow::Result<WiringList> {
    let mut text = Vec::new(rt.alloc());
    rt.stdin().read_to_end(&mut text)?;
    Ok(read_list(rt.alloc(), text.as_slice())?)
}

fn run(rt: &HostRuntime, steps: &[Step]) -> anyhow::Result<()> {
    for (i, step) in steps.iter().enumerate() {
        if let Step::Board(wanted) = step {
            start(rt, *wanted, &steps[i + 1..])?;
        }
    }
    Ok(())
}

fn main(rt: HostRuntime) -> anyhow::Result<ExitCode> {
    let list = read(&rt)?;
    for wrong in &list.faults {
        eprintln!(rt; "{wrong}")?;
    }
    if !list.faults.is_empty() {
        // The faults are all that is to be said: an error that `main` returns would be printed behind them.
        return Ok(ExitCode::FAILURE);
    }
    run(&rt, list.steps.as_slice())?;
    Ok(ExitCode::SUCCESS)
}
