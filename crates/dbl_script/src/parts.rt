ghost use Rattle.std.specs.Prelude.{◌≡◌, ◌<◌, ◌∷◌, [], length, option_map};
ghost use Rattle.std.specs.Prelude.{IfSome, MatchOption, MatchResult};
ghost use Rattle.dbl_script.specs.Words.{cut_at, parts_at};

use crate::fault::Fault;
use memchr::memchr;
use std::marker::Model;

/// The bytes before the first separator, and those after it.
pub fn cut(separator: u8, bytes: &[u8]) -> Option<(&[u8], &[u8])>
    ensures parts { option_map (λ x. (x.0.now, x.1.now)) result ≡ cut_at separator bytes.now }
    ensures shorter { IfSome result (λ x. length x.1.now < length bytes.now) }
{
    let end = memchr(separator, bytes)?;
    Some((&bytes[..end], &bytes[end + 1..]))
}

/// An iterator over the parts of bytes between separators, as over the words of a line between
/// spaces.
#[derive(Drop)]
pub struct Parts<'a> {
    separator: u8,
    rest: Option<&'a [u8]>,
}

impl<'a> Model for Parts<'a> {
    ghost use Rattle.std.specs.Prelude.{List, ℕ, option_copied};
    ghost use Rattle.dbl_script.specs.Words.{parts_left};

    ghost Value = { List (List ℕ) };

    ghost view = { λ p. parts_left p.separator (option_copied p.rest) };
}

impl<'a> Parts<'a> {
    /// The parts of the bytes between separators.
    pub fn of(separator: u8, bytes: &'a [u8]) -> Parts<'a>
        ensures { result ≡ parts_at separator bytes.now }
    {
        Parts {
            separator,
            rest: Some(bytes),
        }
    }

    /// Takes the next part, if there is one.
    pub fn next_part(&mut self) -> Option<&'a [u8]>
        ensures { MatchOption result ((self.old ≡ []) × (self.new ≡ []))
            (λ part. self.old ≡ part.now ∷ self.new) }
    {
        let bytes = self.rest?;
        match cut(self.separator, bytes) {
            Some((part, rest)) => {
                self.rest = Some(rest);
                Some(part)
            }
            None => {
                self.rest = None;
                Some(bytes)
            }
        }
    }

    /// Takes the next part, which must exist.
    pub fn expect_part(&mut self) -> Result<&'a [u8], Fault>
        ensures { MatchResult result (λ part. self.old ≡ part.now ∷ self.new) (λ _. self.old ≡ []) }
    {
        match self.next_part() {
            Some(part) => Ok(part),
            None => Err(Fault::Bad),
        }
    }
}
