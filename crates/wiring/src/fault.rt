ghost use Rattle.std.specs.Prelude.{◌≡◌, Some};
ghost use Rattle.wiring.specs.Fault.{fault_reason};

use line_words::fault::WordFault;
use std::fmt;

/// What is wrong with a line.
#[derive(Clone, Copy, PartialEq, Eq, Debug)]
pub enum Fault {
    Word(WordFault),
    /// A call that no board line stands before, or a list without one.
    NoBoard,
}

impl Fault {
    pub fn reason(self) -> &'static str
        ensures { result.now ≡ fault_reason self }
    {
        match self {
            Fault::Word(fault) => fault.reason(),
            Fault::NoBoard => "no board line before it",
        }
    }
}

impl fmt::Display for Fault {
    ghost output = { λ fault. Some (fault_reason fault) };

    fn fmt<W: fmt::Write>(&self, f: &mut fmt::Formatter<W>) -> fmt::Result {
        f.write_str(Fault::reason(*self))
    }
}
