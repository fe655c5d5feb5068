ghost use Rattle.std.specs.Prelude.{◌≡◌};

use crate::{Failed, Input, Output};
use std::io::{ErrorKind, Read, Write};
use std::marker::Model;

/// An input over a std reader, with unknown contents. Each error of the reader counts as a fault; a
/// call interrupted by a signal is retried.
#[derive(Drop)]
pub struct StdInput<R> {
    reader: R,
    faults: u64,
}

impl<R> Model for StdInput<R> {
    ghost use Rattle.std.specs.Prelude.{ℕ};

    ghost Value = { ℕ };

    ghost view = { λ i. i.faults };
}

impl<R: Read> StdInput<R> {
    /// Wraps the reader. The input's value in contracts is its fault count.
    pub fn make(reader: R) -> StdInput<R>
        ensures { result ≡ 0 }
    {
        StdInput { reader, faults: 0 }
    }
}

impl<R: Read> Input for StdInput<R> {
    ghost use Rattle.std.specs.Prelude.{None};

    ghost left = { λ _. None };

    ghost faults = { λ i. i };

    fn read(&mut self, buffer: &mut [u8]) -> Result<usize, Failed> {
        for _ in 0..u64::MAX {
            match self.reader.read(buffer) {
                Ok(count) => return Ok(count),
                Err(error) => {
                    self.faults = self.faults.saturating_add(1);
                    if error.kind() != ErrorKind::Interrupted {
                        return Err(Failed);
                    }
                }
            }
        }
        self.faults = self.faults.saturating_add(1);
        Err(Failed)
    }
}

/// An output over a std writer, with unknown contents. An error, or a write that accepts no byte,
/// counts as a fault; a call interrupted by a signal is retried.
#[derive(Drop)]
pub struct StdOutput<W> {
    writer: W,
    faults: u64,
}

impl<W> Model for StdOutput<W> {
    ghost use Rattle.std.specs.Prelude.{ℕ};

    ghost Value = { ℕ };

    ghost view = { λ o. o.faults };
}

impl<W: Write> StdOutput<W> {
    /// Wraps the writer. The output's value in contracts is its fault count.
    pub fn make(writer: W) -> StdOutput<W>
        ensures { result ≡ 0 }
    {
        StdOutput { writer, faults: 0 }
    }
}

impl<W: Write> Output for StdOutput<W> {
    ghost use Rattle.std.specs.Prelude.{None};

    ghost written = { λ _. None };

    ghost faults = { λ o. o };

    fn write(&mut self, piece: &[u8]) -> Result<(), Failed> {
        let mut rest = piece;
        for _ in 0..u64::MAX {
            if rest.is_empty() {
                return Ok(());
            }
            match self.writer.write(rest) {
                Ok(count) if count > 0 => rest = &rest[count..],
                Err(error) if error.kind() == ErrorKind::Interrupted => {
                    self.faults = self.faults.saturating_add(1);
                }
                _ => break,
            }
        }
        self.faults = self.faults.saturating_add(1);
        Err(Failed)
    }
}
