//! Decimal numbers.
ghost use Rattle.std.specs.Prelude.{◌≡◌, ◌+◌, ◌-◌, ◌*◌};
ghost use Rattle.numeral.specs.Decimal.{digit, all_digits, decimal_value, if_small, decimal_answer};

/// Why a word is no number.
#[derive(Clone, Copy, PartialEq, Eq, Debug)]
pub enum NumberFault {
    /// It is empty, or a byte of it is no digit.
    NotDigits,
    /// It is 2 ^ 64 or more.
    TooLarge,
}

/// The number that `word` writes. Zeros may stand in front.
pub fn decimal(word: &[u8]) -> Result<u64, NumberFault>
    ensures { result ≡ decimal_answer word.now }
{
    // Tested first, so that a long word with another byte in it is not called too large.
    if word.is_empty() || !all_digits(word) {
        return Err(NumberFault::NotDigits);
    }
    value_of(word).ok_or(NumberFault::TooLarge)
}

fn is_digit(b: u8) -> bool
    ensures { result ≡ digit b }
{
    b.is_ascii_digit()
}

fn all_digits(word: &[u8]) -> bool
    ensures { result ≡ all_digits word.now }
{
    word.iter().all(|b| is_digit(*b))
}

/// The value of `digits`, unless it is too large.
#[tactic(auto, using(crate::proofs::Tens::too_large))]
fn value_of(digits: &[u8]) -> Option<u64>
    ensures { result ≡ if_small (decimal_value digits.now) }
{
    let mut n = 0;
    for b in digits {
        n = with_digit(n, *b)?;
    }
    Some(n)
}

/// `n` with one more digit behind it, unless that is too large.
fn with_digit(n: u64, b: u8) -> Option<u64>
    ensures { result ≡ if_small (10 * n + (b - 48)) }
{
    // The caller's bytes are digits; `saturating_sub` only spares a test.
    let tens = n.checked_mul(10)?;
    tens.checked_add(u64::from(b.saturating_sub(b'0')))
}
