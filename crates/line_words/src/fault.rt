ghost use Rattle.std.specs.Prelude.{◌≡◌, Some};
ghost use Rattle.line_words.specs.Fault.{number_fault, hex_read_fault, word_reason, read_reason};
ghost use Rattle.line_words.specs.declared.fault.ReadFault.TheVariants.{Word};

use numeral::decimal::NumberFault;
use numeral::hex::HexFault;
use std::alloc::AllocError;
use std::error::Error;
use std::fmt;

/// What is wrong with a word of a line, or with how many there are.
#[derive(Clone, Copy, PartialEq, Eq, Debug)]
pub enum WordFault {
    Unknown,
    Missing,
    Extra,
    NotANumber,
    TooLarge,
    NotHex,
    OddHex,
}

/// Why nothing was read. Want of memory is no fault of a word.
#[derive(Clone, Copy, PartialEq, Eq, Debug)]
pub enum ReadFault {
    Word(WordFault),
    OutOfMemory(AllocError),
}

impl From<NumberFault> for WordFault {
    ghost from_gives = { λ fault r. r ≡ number_fault fault };

    fn from(fault: NumberFault) -> WordFault {
        match fault {
            NumberFault::NotDigits => WordFault::NotANumber,
            NumberFault::TooLarge => WordFault::TooLarge,
        }
    }
}

impl From<WordFault> for ReadFault {
    ghost from_gives = { λ fault r. r ≡ Word fault };

    fn from(fault: WordFault) -> ReadFault {
        ReadFault::Word(fault)
    }
}

impl From<HexFault> for ReadFault {
    ghost from_gives = { λ fault r. r ≡ hex_read_fault fault };

    fn from(fault: HexFault) -> ReadFault {
        match fault {
            HexFault::NotHex => ReadFault::Word(WordFault::NotHex),
            HexFault::OddDigits => ReadFault::Word(WordFault::OddHex),
            HexFault::OutOfMemory(error) => ReadFault::OutOfMemory(error),
        }
    }
}

impl WordFault {
    pub fn reason(self) -> &'static str
        ensures { result.now ≡ word_reason self }
    {
        match self {
            WordFault::Unknown => "unknown word",
            WordFault::Missing => "a word is missing",
            WordFault::Extra => "a word too many",
            WordFault::NotANumber => "not a number",
            WordFault::TooLarge => "number too large",
            WordFault::NotHex => "not a hex digit",
            WordFault::OddHex => "odd number of hex digits",
        }
    }
}

impl fmt::Display for WordFault {
    ghost output = { λ fault. Some (word_reason fault) };

    fn fmt<W: fmt::Write>(&self, f: &mut fmt::Formatter<W>) -> fmt::Result {
        f.write_str(WordFault::reason(*self))
    }
}

impl fmt::Display for ReadFault {
    ghost output = { λ fault. Some (read_reason fault) };

    fn fmt<W: fmt::Write>(&self, f: &mut fmt::Formatter<W>) -> fmt::Result {
        match self {
            ReadFault::Word(word) => f.write_str(WordFault::reason(*word)),
            ReadFault::OutOfMemory(_) => f.write_str("memory allocation failed"),
        }
    }
}

impl Error for ReadFault {}
