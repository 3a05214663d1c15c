//! Bytes written as hex digits, two for each.
ghost use Rattle.std.specs.Prelude.{◌≡◌, ◌<◌, ◌⊎◌, [], ◌∷◌, ◌++◌, IfOk, IsErrAnd, Some, string_bytes, OnOk};
ghost use Rattle.numeral.specs.Hex.{hex_digit, hex_value, all_hex, hex_pairs, hex_answer, bytes_read, IsWantOfMemory, hex_reason, hex_char, hex_text};
ghost use Rattle.numeral.specs.declared.hex.HexFault.TheVariants.{OutOfMemory};

use std::alloc::{AllocError, Global};
use std::error::Error;
use std::fmt;

/// Why a word gives no bytes.
#[derive(Clone, Copy, PartialEq, Eq, Debug)]
pub enum HexFault {
    /// A byte of it is no hex digit.
    NotHex,
    /// One digit has no second.
    OddDigits,
    /// The bytes find no room.
    OutOfMemory(AllocError),
}

impl From<AllocError> for HexFault {
    ghost from_gives = { λ error fault. fault ≡ OutOfMemory error };

    fn from(error: AllocError) -> HexFault {
        HexFault::OutOfMemory(error)
    }
}

impl fmt::Display for HexFault {
    ghost output = { λ fault. Some (hex_reason fault) };

    fn fmt<W: fmt::Write>(&self, f: &mut fmt::Formatter<W>) -> fmt::Result {
        match self {
            HexFault::NotHex => f.write_str("not a hex digit"),
            HexFault::OddDigits => f.write_str("odd number of hex digits"),
            HexFault::OutOfMemory(_) => f.write_str("memory allocation failed"),
        }
    }
}

impl Error for HexFault {}

/// The bytes that `word` writes; a `-` alone writes none.
pub fn hex_bytes(heap: Global, word: &[u8]) -> Result<Vec<u8>, HexFault>
    ensures { IsErrAnd result IsWantOfMemory ⊎ (bytes_read result ≡ hex_answer word.now) }
{
    if word == b"-".as_slice() {
        return Ok(Vec::new(heap));
    }
    // A wrong digit is told before a missing one.
    if !is_all_hex(word) {
        return Err(HexFault::NotHex);
    }
    if word.len() % 2 == 1 {
        return Err(HexFault::OddDigits);
    }
    Ok(pairs(heap, word)?)
}

/// What a hex digit of either case stands for.
pub fn hex_digit(b: u8) -> Option<u8>
    ensures { result ≡ hex_digit b }
{
    match b {
        b'0'..=b'9' => Some(b - b'0'),
        b'a'..=b'f' => Some(b - b'a' + 10),
        b'A'..=b'F' => Some(b - b'A' + 10),
        _ => None,
    }
}

fn is_all_hex(word: &[u8]) -> bool
    ensures { result ≡ all_hex word.now }
{
    word.iter().all(|b| hex_digit(*b).is_some())
}

/// The bytes that `digits` write two by two.
fn pairs(heap: Global, digits: &[u8]) -> Result<Vec<u8>, AllocError>
    ensures { IfOk result (λ v. v.items ≡ hex_pairs digits.now) }
{
    let mut bytes = Vec::new(heap);
    for pair in digits.chunks_exact(2) {
        bytes.push(16 * digit_value(pair[0]) + digit_value(pair[1]))?;
    }
    Ok(bytes)
}

fn digit_value(b: u8) -> u8
    ensures value { result ≡ hex_value b }
    ensures small { result < 16 }
{
    hex_digit(b).unwrap_or(0)
}

/// The text of `bytes`, two digits for each, in lower case.
pub fn hex_text(heap: Global, bytes: &[u8]) -> Result<String, AllocError>
    ensures { IfOk result (λ s. string_bytes s ≡ hex_text bytes.now) }
{
    let mut out = String::new(heap);
    for b in bytes {
        push_byte(&mut out, *b)?;
    }
    Ok(out)
}

fn push_byte(out: &mut String, b: u8) -> Result<(), AllocError>
    ensures { OnOk result (string_bytes out.new ≡ string_bytes out.old ++ hex_text (b ∷ [])) }
{
    out.push(hex_char(b / 16))?;
    out.push(hex_char(b % 16))?;
    Ok(())
}

/// The digit for a number below 16.
fn hex_char(d: u8) -> char
    requires { d < 16 }
    ensures value { result ≡ hex_char d }
    ensures ascii { result < 128 }
{
    char::from(if d < 10 { b'0' + d } else { b'a' + (d - 10) })
}
