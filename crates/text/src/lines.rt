//! The lines of a text, one at a time.
ghost use Rattle.std.specs.Prelude.{◌≡◌, ◌≤◌, drop, length};
ghost use Rattle.std.specs.Iterator.{YieldsFirstRef, item_count};
ghost use Rattle.text.specs.Lines.{newline, lines};

use super::scan::split_before;
use std::marker::Model;

/// The lines of a text that are still to be read, each without its end. Contracts see it as their list.
#[derive(Drop)]
pub struct Lines<'a> {
    rest: &'a [u8],
}

impl<'a> Model for Lines<'a> {
    ghost use Rattle.std.specs.Prelude.{ℕ, List};
    ghost use Rattle.text.specs.Lines.{lines};

    ghost Value = { List (List ℕ) };

    ghost view = { λ l. lines l.rest.now };
}

impl<'a> Lines<'a> {
    /// All lines of `text`: no more than it has bytes.
    #[tactic(auto, using(crate::proofs::LineCuts::lines_within))]
    pub fn of(text: &'a [u8]) -> Lines<'a>
        ensures all { result ≡ lines text.now }
        ensures few { length result ≤ length text.now }
    {
        Lines { rest: text }
    }
}

impl<'a> Iterator for Lines<'a> {
    type Item = &'a [u8];

    ghost next_gives = { YieldsFirstRef (λ l. l) };

    ghost remaining = { item_count (λ l. l) };

    fn next(&mut self) -> Option<&'a [u8]> {
        if self.rest.is_empty() {
            return None;
        }
        let (line, after) = split_before(self.rest, is_newline);
        // The first byte is the newline, which the last line may lack.
        self.rest = past_first(after);
        Some(line)
    }
}

fn is_newline(b: u8) -> bool
    ensures { result ≡ newline b }
{
    b == b'\n'
}

/// `bytes` without the first, if there is one.
fn past_first(bytes: &[u8]) -> &[u8]
    ensures { result.now ≡ drop 1 bytes.now }
{
    match bytes {
        [] => bytes,
        [_, rest @ ..] => rest,
    }
}
