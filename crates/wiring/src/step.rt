ghost use Rattle.std.specs.Prelude.{◌≡◌, vec_items};
ghost use Rattle.line_words.specs.Read.{rest, Reads};
ghost use Rattle.wiring.specs.Step.{output_said, first_output, drive_says, board_says, tick_says, first_says, line_says};
ghost use Rattle.wiring.specs.Step.{said, step_said};

use board::status::Output;
use board_words::wanted::{Wanted, read_wanted};
use line_words::fault::{ReadFault, WordFault};
use line_words::read::{read_bytes, read_end, read_number};
use std::alloc::Global;
use text::words::Words;

#[derive(Clone, Copy)]
pub struct Drive {
    pub output: usize,
    pub to: Output,
}

/// One call on a board.
#[derive(Drop)]
pub enum Call {
    Drive(Drive),
    Tick(Vec<u8>),
    Ask,
}

/// What a line says: a new board, or a call on the one before.
#[derive(Drop)]
pub enum Step {
    Board(Wanted),
    Call(Call),
}

fn output_of(word: &[u8]) -> Result<Output, WordFault>
    ensures { result ≡ output_said word.now }
{
    match word {
        b"held" => Ok(Output::Held),
        b"released" => Ok(Output::Released),
        _ => Err(WordFault::Unknown),
    }
}

/// The state that an output is driven to.
fn read_output(words: &mut Words<'_>) -> Result<Output, WordFault>
    ensures value { result ≡ first_output words.old }
    ensures after { words.new ≡ rest words.old }
{
    output_of(words.next().ok_or(WordFault::Missing)?)
}

fn read_drive(words: &mut Words<'_>) -> Result<Drive, WordFault>
    ensures { result ≡ drive_says words.old }
{
    let output = read_number(words)? as usize;
    let to = read_output(words)?;
    read_end(words)?;
    Ok(Drive { output, to })
}

fn read_board(words: &mut Words<'_>) -> Result<Wanted, WordFault>
    ensures { result ≡ board_says words.old }
{
    let wanted = read_wanted(words)?;
    read_end(words)?;
    Ok(wanted)
}

fn read_tick(heap: Global, words: &mut Words<'_>) -> Result<Vec<u8>, ReadFault>
    ensures { Reads vec_items result (tick_says words.old) }
{
    let bytes = read_bytes(heap, words)?;
    read_end(words)?;
    Ok(bytes)
}

/// The step that `first` and the words after it ask for.
fn step_of(heap: Global, first: &[u8], words: &mut Words<'_>) -> Result<Step, ReadFault>
    ensures { Reads said result (first_says first.now words.old) }
{
    match first {
        b"board" => Ok(Step::Board(read_board(words)?)),
        b"drive" => Ok(Step::Call(Call::Drive(read_drive(words)?))),
        b"tick" => Ok(Step::Call(Call::Tick(read_tick(heap, words)?))),
        b"ask" => {
            read_end(words)?;
            Ok(Step::Call(Call::Ask))
        }
        _ => Err(ReadFault::Word(WordFault::Unknown)),
    }
}

/// What a line says, `None` where it has no word, or its fault.
pub fn read_step(heap: Global, line: &[u8]) -> Result<Option<Step>, ReadFault>
    ensures { Reads step_said result (line_says line.now) }
{
    let mut words = Words::of(line);
    let Some(first) = words.next() else {
        return Ok(None);
    };
    Ok(Some(step_of(heap, first, &mut words)?))
}
