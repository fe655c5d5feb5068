ghost use Rattle.std.specs.Prelude.{◌≡◌, ◌∷◌, [], ◌+◌, ◌*◌, ◌/◌, ◌%◌, ◌^◌, ◌<◌, ◌≤◌, ℕ, List};
ghost use Rattle.std.specs.Prelude.{OnOk, OnErr, MatchOption};
ghost use Rattle.dbl_compact.specs.Marks.{bits, marks_in};

use std::alloc::{AllocError, Global};
use std::marker::Model;

/// Marks of records, of which the last one is taken first. A mark takes a bit.
#[derive(Drop)]
pub struct Marks {
    // Eight marks a byte.
    full: Vec<u8>,
    // So many marks in the low bits, the latest one in the lowest.
    count: u8,
    last: u8,
}

impl Model for Marks {
    ghost use Rattle.std.specs.Prelude.{Bool, List, ◌^◌, ◌<◌, ◌≤◌};
    ghost use Rattle.dbl_compact.specs.Marks.{marks_in};

    ghost Value = { List Bool };

    ghost view = { λ m. marks_in m.count m.last m.full.items };

    ghost invariant = { λ m. (m.count ≤ 8) × (m.last < 2 ^ m.count) };
}

// One more mark in the lowest bit.
#[tactic(auto, using(crate::proofs::MarkLemmas::one_bit))]
fn with_mark(last: u8, count: u8, mark: bool) -> u8
    requires few { count < 8 }
    requires within { last < 2 ^ count }
    ensures within { result < 2 ^ (count + 1) }
    ensures marks { bits (count + 1) result ≡ mark ∷ bits count last }
{
    if mark { last * 2 + 1 } else { last * 2 }
}

impl Marks {
    /// No marks. Takes no memory.
    pub fn new(alloc: Global) -> Marks
        ensures { result ≡ [] }
    {
        Marks {
            full: Vec::new(alloc),
            count: 0,
            last: 0,
        }
    }

    /// Adds a mark.
    pub fn push(&mut self, mark: bool) -> Result<(), AllocError>
        ensures pushed { OnOk result (self.new ≡ mark ∷ self.old) }
        ensures unchanged { OnErr result (self.new ≡ self.old) }
    {
        if self.count == 8 {
            self.full.push(self.last)?;
            self.last = with_mark(0, 0, mark);
            self.count = 1;
            return Ok(());
        }
        self.last = with_mark(self.last, self.count, mark);
        self.count += 1;
        Ok(())
    }

    /// Takes the latest mark, if there is one.
    pub fn pop(&mut self) -> Option<bool>
        ensures { MatchOption result ((self.old ≡ []) × (self.new ≡ []))
            (λ mark. self.old ≡ mark ∷ self.new) }
    {
        if self.count > 0 {
            let mark = self.last % 2 == 1;
            self.last /= 2;
            self.count -= 1;
            return Some(mark);
        }
        match self.full.pop() {
            Some(byte) => {
                self.last = byte / 2;
                self.count = 7;
                Some(byte % 2 == 1)
            }
            None => None,
        }
    }
}
