//! The next word of a line as a number or bytes, the end of the line, and what one word is.
//! Each reader promises what it leaves, since a caller reads on from there.
ghost use Rattle.std.specs.Prelude.{◌≡◌, ◌≤◌, IfOk, vec_items};
ghost use Rattle.std.specs.Str.{bytes_eq};
ghost use Rattle.line_words.specs.Read.{rest, word_number, first_number, limited, first_bytes, Reads, ended};

use crate::fault::{ReadFault, WordFault};
use numeral::decimal::decimal;
use numeral::hex::hex_bytes;
use std::alloc::Global;
use text::words::Words;

/// The number that `word` is.
pub fn number_of(word: &[u8]) -> Result<u64, WordFault>
    ensures { result ≡ word_number word.now }
{
    Ok(decimal(word)?)
}

/// A number of at most 64 bits.
pub fn read_number(words: &mut Words<'_>) -> Result<u64, WordFault>
    ensures value { result ≡ first_number words.old }
    ensures after { words.new ≡ rest words.old }
{
    number_of(words.next().ok_or(WordFault::Missing)?)
}

/// A number that is at most `limit`.
pub fn read_limited(words: &mut Words<'_>, limit: u64) -> Result<u64, WordFault>
    ensures value { result ≡ limited limit (first_number words.old) }
    ensures small { IfOk result (λ n. n ≤ limit) }
    ensures after { words.new ≡ rest words.old }
{
    let n = read_number(words)?;
    if n > limit {
        return Err(WordFault::TooLarge);
    }
    Ok(n)
}

/// Bytes as pairs of hex digits; `-` stands for none.
pub fn read_bytes(heap: Global, words: &mut Words<'_>) -> Result<Vec<u8>, ReadFault>
    ensures value { Reads vec_items result (first_bytes words.old) }
    ensures after { words.new ≡ rest words.old }
{
    let word = words.next().ok_or(WordFault::Missing)?;
    Ok(hex_bytes(heap, word)?)
}

/// The end of the line: no word is left.
pub fn read_end(words: &mut Words<'_>) -> Result<(), WordFault>
    ensures { result ≡ ended words.old }
{
    match words.next() {
        None => Ok(()),
        Some(_) => Err(WordFault::Extra),
    }
}

/// Whether `word` is `text`, byte for byte.
// A function and not `==` at each place, since it says the same of a word and of an array of bytes; a keyword among several is an arm
// of a `match`.
pub fn spells(word: &[u8], text: &[u8]) -> bool
    ensures { result ≡ bytes_eq word.now text.now }
{
    word == text
}
