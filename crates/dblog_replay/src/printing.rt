//! The lines of the records of a commit.
ghost use Rattle.std.specs.Prelude.{◌≡◌, map, Err};
ghost use Rattle.dbl_base.specs.Streams.{FailsOnlyIfCounted};
ghost use Rattle.dbl_lines.specs.declared.error.PrintError.TheVariants.{OutputFailed};
ghost use Rattle.dbl_lines.specs.Gathering.{PutsLines};
ghost use Rattle.dbl_record.specs.Line.{line_of};

use dbl_base::Output;
use dbl_envelope::RecordsLeft;
use dbl_lines::{LineWriter, PrintError};
use std::alloc::Global;

/// Appends the lines of the remaining records, in batches.
pub(crate) fn put_left<O: Output>(
    alloc: Global,
    records: RecordsLeft<'_>,
    output: &mut O,
    lines: &mut LineWriter,
) -> Result<(), PrintError>
    ensures puts { PutsLines (map line_of records.entry) result lines.old lines.new
        (O.written output.old) (O.written output.new) }
    ensures cause { FailsOnlyIfCounted (result ≡ Err OutputFailed)
        (O.faults output.old) (O.faults output.new) }
{
    let mut left = records;
    'left: loop {
        let made = match left.next(alloc) {
            Ok(made) => made,
            Err(_) => return Err(PrintError::Memory),
        };
        if made.is_empty() {
            return Ok(());
        }
        match lines.put_records(output, &made) {
            Ok(()) => {}
            Err(error) => return Err(error),
        }
    }
}
