ghost use Rattle.std.specs.Prelude.{◌≡◌, OnOk};
ghost use Rattle.line_words.specs.Read.{rest};
ghost use Rattle.board_words.specs.Wanted.{kind_said, first_kind, doors_say, wanted_says, past_wanted};

use line_words::fault::WordFault;
use line_words::read::{read_limited, read_number, spells};
use text::words::Words;

/// The kinds of board that a line can ask for.
#[derive(Clone, Copy)]
pub enum BoardKind {
    Plain,
    Loop,
}

/// The board that a line asks for, and the count of the steady contact over it, if there is one.
#[derive(Clone, Copy)]
pub struct Wanted {
    pub steady: Option<u8>,
    pub kind: BoardKind,
    pub doors: usize,
}

fn kind_of(word: &[u8]) -> Result<BoardKind, WordFault>
    ensures { result ≡ kind_said word.now }
{
    match word {
        b"plain" => Ok(BoardKind::Plain),
        b"loop" => Ok(BoardKind::Loop),
        _ => Err(WordFault::Unknown),
    }
}

fn read_kind(words: &mut Words<'_>) -> Result<BoardKind, WordFault>
    ensures value { result ≡ first_kind words.old }
    ensures after { words.new ≡ rest words.old }
{
    kind_of(words.next().ok_or(WordFault::Missing)?)
}

fn read_doors(
    words: &mut Words<'_>,
    steady: Option<u8>,
    kind: BoardKind,
) -> Result<Wanted, WordFault>
    ensures value { result ≡ doors_say steady kind words.old }
    ensures after { words.new ≡ rest words.old }
{
    let doors = read_number(words)? as usize;
    Ok(Wanted {
        steady,
        kind,
        doors,
    })
}

/// `[steady COUNT] plain|loop DOORS`, and leaves the words behind it.
pub fn read_wanted(words: &mut Words<'_>) -> Result<Wanted, WordFault>
    ensures value { result ≡ wanted_says words.old }
    ensures after { OnOk result (words.new ≡ past_wanted words.old) }
{
    let word = words.next().ok_or(WordFault::Missing)?;
    if spells(word, b"steady") {
        // The count is a byte: at most 255, so that `as` loses nothing.
        let count = read_limited(words, 255)? as u8;
        let kind = read_kind(words)?;
        return read_doors(words, Some(count), kind);
    }
    let kind = kind_of(word)?;
    read_doors(words, None, kind)
}
