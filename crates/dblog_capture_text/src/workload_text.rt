//! A generated workload, read as an input.
ghost use Rattle.std.specs.Prelude.{◌≡◌};

use dbl_base::{Failed, Input, Text};
use std::marker::Model;

/// The text of a workload, as the input that `init` reads. No read of it fails.
#[derive(Drop)]
pub struct WorkloadText {
    text: Text,
    place: usize,
}

impl Model for WorkloadText {
    ghost use Rattle.std.specs.Prelude.{List, ℕ, drop, length, ◌≤◌};

    ghost Value = { List ℕ };

    ghost view = { λ w. drop w.place w.text };

    ghost invariant = { λ w. w.place ≤ length w.text };
}

impl WorkloadText {
    /// An input of this text. Takes no memory.
    pub fn make(text: Text) -> WorkloadText
        ensures { result ≡ text }
    {
        WorkloadText { text, place: 0 }
    }
}

impl Input for WorkloadText {
    ghost use Rattle.std.specs.Prelude.{Some};

    ghost left = { λ w. Some w };

    ghost faults = { λ w. 0 };

    fn read(&mut self, buffer: &mut [u8]) -> Result<usize, Failed> {
        let rest = &self.text.as_str().as_bytes()[self.place..];
        let count = rest.len().min(buffer.len());
        buffer[..count].copy_from_slice(&rest[..count]);
        self.place += count;
        Ok(count)
    }
}
