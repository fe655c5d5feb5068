//! Buffered lines.
ghost use Rattle.std.specs.Prelude.{◌≡◌, ◌++◌, ◌∷◌, ℕ, List, [], Option};
ghost use Rattle.std.specs.Prelude.{Err, map, IfOk, IfErr, OnOk};
ghost use Rattle.dbl_base.specs.Streams.{FailsOnlyIfCounted};
ghost use Rattle.dbl_record.specs.Line.{line_of};
ghost use Rattle.dbl_lines.specs.declared.error.PrintError.TheVariants.{OutputFailed, Memory};
ghost use Rattle.dbl_lines.specs.Writing.{Wrote, WrotePrefix, Prints};
ghost use Rattle.dbl_lines.specs.Gathering.{IsPut, PutsLines, StaysPut};

use crate::{Line, PrintError};
use dbl_base::Output;
use dbl_record::Record;
use std::alloc::{AllocError, Global};
use std::marker::Model;
use std::mem;

/// The approximate length of the pieces that are written, which end at a newline.
const PIECE_LENGTH: usize = 65_536;

/// The initial capacity of the buffer.
const BUFFER_LENGTH: usize = 69_632;

/// A line writer, which contracts see as the buffered text that isn't written yet. It must not be
/// used after an error.
#[derive(Drop)]
pub struct LineWriter {
    alloc: Global,
    gathered: Vec<u8>,
}

impl Model for LineWriter {
    ghost use Rattle.std.specs.Prelude.{List, ℕ};

    ghost Value = { List ℕ };

    ghost view = { λ w. w.gathered.items };
}

impl LineWriter {
    /// Makes a writer with an empty buffer.
    pub fn make(alloc: Global) -> Result<LineWriter, AllocError>
        ensures { IfOk result (λ lines. lines ≡ []) }
    {
        Ok(LineWriter {
            alloc,
            gathered: Vec::with_capacity(alloc, BUFFER_LENGTH)?,
        })
    }

    /// Appends a line, and writes the buffered lines if they are many.
    pub fn put<O: Output, L: Line>(&mut self, output: &mut O, line: &L) -> Result<(), PrintError>
        ensures puts { PutsLines (L.line line.now ∷ []) result self.old self.new
            (O.written output.old) (O.written output.new) }
        ensures unwritten { result ≡ Err Memory → O.written output.new ≡ O.written output.old }
        ensures cause { FailsOnlyIfCounted (result ≡ Err OutputFailed)
            (O.faults output.old) (O.faults output.new) }
    {
        match self.gather(line) {
            Ok(()) => self.flush_if_full(output),
            Err(error) => Err(error),
        }
    }

    /// Appends the lines of records.
    pub fn put_records<O: Output>(
        &mut self,
        output: &mut O,
        records: &Vec<Record>,
    ) -> Result<(), PrintError>
        ensures puts { PutsLines (map line_of records.now.items) result self.old self.new
            (O.written output.old) (O.written output.new) }
        ensures cause { FailsOnlyIfCounted (result ≡ Err OutputFailed)
            (O.faults output.old) (O.faults output.new) }
    {
        'records: for item in records {
            match self.put(output, item) {
                Ok(()) => {}
                Err(error) => return Err(error),
            }
        }
        Ok(())
    }

    /// Writes the buffered lines, if any.
    pub fn finish<O: Output>(mut self, output: &mut O) -> Result<(), PrintError>
        ensures prints { (start : Option (List ℕ)) (lines : List (List ℕ)) →
            IsPut start (O.written output.old) self lines →
            Prints lines result start (O.written output.new) }
        ensures wrote { OnOk result (Wrote (O.written output.old) (O.written output.new) self) }
        ensures prefix { IfErr result (λ error. (error ≡ OutputFailed) ×
            WrotePrefix (O.written output.old) (O.written output.new) self) }
        ensures cause { FailsOnlyIfCounted (result ≡ Err OutputFailed)
            (O.faults output.old) (O.faults output.new) }
    {
        if self.gathered.is_empty() {
            return Ok(());
        }
        flush(output, &mut self.gathered)
    }

    // Buffers one more line.
    fn gather<L: Line>(&mut self, line: &L) -> Result<(), PrintError>
        ensures line { OnOk result (self.new ≡ self.old ++ L.line line.now ++ 10 ∷ []) }
        ensures memory { IfErr result (λ error. error ≡ Memory) }
    {
        let gathered = mem::replace(&mut self.gathered, Vec::new(self.alloc));
        let mut filled = line.append(gathered)?;
        filled.push(b'\n')?;
        self.gathered = filled;
        Ok(())
    }

    // Writes the buffered lines if they are many.
    fn flush_if_full<O: Output>(&mut self, output: &mut O) -> Result<(), PrintError>
        ensures stays { StaysPut result self.old self.new
            (O.written output.old) (O.written output.new) }
        ensures failed { IfErr result (λ error. error ≡ OutputFailed) }
        ensures cause { FailsOnlyIfCounted (result ≡ Err OutputFailed)
            (O.faults output.old) (O.faults output.new) }
    {
        if self.gathered.len() < PIECE_LENGTH {
            return Ok(());
        }
        flush(output, &mut self.gathered)
    }
}

// Writes and empties the buffer.
fn flush<O: Output>(output: &mut O, gathered: &mut Vec<u8>) -> Result<(), PrintError>
    ensures wrote { OnOk result
        (Wrote (O.written output.old) (O.written output.new) gathered.old.items) }
    ensures emptied { OnOk result (gathered.new.items ≡ []) }
    ensures prefix { IfErr result (λ error. (error ≡ OutputFailed) ×
        WrotePrefix (O.written output.old) (O.written output.new) gathered.old.items) }
    ensures cause { FailsOnlyIfCounted (result ≡ Err OutputFailed)
        (O.faults output.old) (O.faults output.new) }
{
    match output.write(gathered.as_slice()) {
        Ok(()) => {
            gathered.clear();
            Ok(())
        }
        Err(_) => Err(PrintError::OutputFailed),
    }
}
