//! `offsets`: the text of the stored offset.
ghost use Rattle.std.specs.Prelude.{◌≡◌, ◌≢◌, ◌⊎◌, ◌++◌, ◌∷◌, ℕ, List, [], Ok, Err, Some};
ghost use Rattle.std.specs.Prelude.{IfOk, IfErr, IfSome, OnOk, length, map, option_map};
ghost use Rattle.std.specs.List.{zip};
ghost use Rattle.std.specs.String.{string_bytes};
ghost use Rattle.dbl_base.specs.Lines.{lines_text};
ghost use Rattle.dbl_base.specs.Streams.{FailsOnlyIfCounted};
ghost use Rattle.dbl_model_history.specs.Cursors.{AreCursorsOf, IsCursorOf};
ghost use Rattle.dbl_offset.specs.Offsets.{IsOffset};
ghost use Rattle.dblog_stores.specs.Answers.{AnswersOffsets, number_lines};
ghost use Rattle.dblog_stores.specs.Answers.{offset_lines, table_line};
ghost use Rattle.dbl_lines.specs.Writing.{Wrote, WrotePrefix};
ghost use Rattle.dblog_stores.specs.Applying.{TellsOffset};
ghost use Rattle.dblog_stores.specs.Ends.{Ends, IsErrorOf, IsRefusal, IsSynced, Runs};
ghost use Rattle.dbl_journal.specs.Calls.{Keeps};

use crate::opening::open_offsets;
use crate::{CommandError, Ended, Store};
use dbl_base::Output;
use dbl_disk::{Disk, Refused};
use dbl_envelope_json::key_text;
use dbl_model_history::Cursor;
use dbl_model_table::TableInfo;
use dbl_offset::Offset;
use std::alloc::{AllocError, Global};

/// Syncs the disk, and writes the text of its offset: its numbers, and the progress of each table's
/// snapshot.
pub fn print_offset<D: Disk, O: Output>(alloc: Global, disk: D, output: &mut O) -> Ended<D>
    // For a disk with known contents, the output and the answer follow from these.
    ensures told { (bytes : List ℕ) → D.seen disk ≡ Some bytes →
        Runs (AnswersOffsets bytes) result.end (O.written output.old) (O.written output.new) }

    // Unless the disk failed, it was synced: a crash leaves only its known contents.
    ensures stable { result.end ≢ Err (CommandError.Failed Store.Offsets) →
        IsSynced D.Disk disk result.disk }

    // The disk is only read, for any contents, and the error is of the disk, the output or memory.
    ensures keeps { Keeps D.Disk
        (result.end ≡ Err (CommandError.Failed Store.Offsets)) disk result.disk }
    ensures kinds { IfErr result.end
        (λ error. (error ≡ CommandError.OutputFailed) ⊎
        ((error ≡ CommandError.NotStarted) ⊎ IsErrorOf Store.Offsets error)) }
    ensures unwritten { IfErr result.end (λ error. IsRefusal error → output.new ≡ output.old) }
    ensures output { FailsOnlyIfCounted (result.end ≡ Err CommandError.OutputFailed)
        (O.faults output.old) (O.faults output.new) }
{
    match open_offsets(alloc, disk) {
        Ok(store) => {
            let end = print_loaded(alloc, store.load(), output);
            Ended {
                disk: store.into_disk(),
                end,
            }
        }
        Err(Refused { disk, error }) => Ended {
            disk,
            end: Err(error),
        },
    }
}

fn print_loaded<O: Output>(
    alloc: Global,
    loaded: Option<&Offset>,
    output: &mut O,
) -> Result<(), CommandError>
    requires { IfSome loaded (λ offset. IsOffset offset.now) }
    ensures told { TellsOffset (option_map (λ offset. offset.now) loaded.entry) result
        (O.written output.old) (O.written output.new) }
    ensures kinds { IfErr result
        (λ error. (error ≡ CommandError.OutputFailed) ⊎
        ((error ≡ CommandError.NotStarted) ⊎ IsErrorOf Store.Offsets error)) }
    ensures running { (store : Store) → result ≢ Err (CommandError.Failed store) }
    ensures unwritten { IfErr result (λ error. IsRefusal error → output.new ≡ output.old) }
    ensures output { FailsOnlyIfCounted (result ≡ Err CommandError.OutputFailed)
        (O.faults output.old) (O.faults output.new) }
{
    match loaded {
        Some(offset) => print_text(alloc, offset, output),
        None => Err(CommandError::NotStarted),
    }
}

fn print_text<O: Output>(alloc: Global, offset: &Offset, output: &mut O) -> Result<(), CommandError>
    requires { IsOffset offset.now }
    ensures told { Ends (Ok (offset_lines offset.now)) result
        (O.written output.old) (O.written output.new) }
    ensures kinds { IfErr result
        (λ error. (error ≡ CommandError.OutputFailed) ⊎ (error ≡ CommandError.Memory)) }
    ensures output { FailsOnlyIfCounted (result ≡ Err CommandError.OutputFailed)
        (O.faults output.old) (O.faults output.new) }
{
    match offset_text(alloc, offset) {
        Ok(text) => write_text(text.as_str(), output),
        Err(_) => Err(CommandError::Memory),
    }
}

fn write_text<O: Output>(text: &str, output: &mut O) -> Result<(), CommandError>
    ensures wrote { OnOk result (Wrote (O.written output.old) (O.written output.new) text.now) }
    ensures prefix { IfErr result
        (λ error. (error ≡ CommandError.OutputFailed) ×
        WrotePrefix (O.written output.old) (O.written output.new) text.now) }
    ensures output { FailsOnlyIfCounted (result ≡ Err CommandError.OutputFailed)
        (O.faults output.old) (O.faults output.new) }
{
    match output.write(text.as_bytes()) {
        Ok(()) => Ok(()),
        Err(_) => Err(CommandError::OutputFailed),
    }
}

fn offset_text(alloc: Global, offset: &Offset) -> Result<String, AllocError>
    requires { IsOffset offset.now }
    ensures { IfOk result (λ text. string_bytes text ≡ lines_text (offset_lines offset.now)) }
{
    match numbers_text(alloc, offset) {
        Ok(numbers) => with_tables(alloc, numbers, offset.infos.items(), offset.cursors.items()),
        Err(error) => Err(error),
    }
}

fn numbers_text(alloc: Global, offset: &Offset) -> Result<String, AllocError>
    ensures { IfOk result (λ text. string_bytes text ≡ lines_text (number_lines offset.now)) }
{
    let incarnation = offset.incarnation;
    let start = offset.start.0;
    let position = offset.lsn.0;
    format!(in alloc; "incarnation {incarnation}\nstart {start}\nposition {position}\n")
}

fn with_tables(
    alloc: Global,
    text: String,
    infos: &[TableInfo],
    cursors: &[Cursor],
) -> Result<String, AllocError>
    requires long { length cursors.now ≡ length infos.now }
    requires are { AreCursorsOf infos.now cursors.now }
    ensures { IfOk result (λ all. string_bytes all ≡
        string_bytes text ++ lines_text (map table_line (zip infos.now cursors.now))) }
{
    let mut all = text;
    'tables: for place in 0..infos.len() {
        let line = table_text(alloc, &infos[place], &cursors[place])?;
        all.push_str(line.as_str())?;
    }
    Ok(all)
}

fn table_text(alloc: Global, info: &TableInfo, cursor: &Cursor) -> Result<String, AllocError>
    requires { IsCursorOf info.now cursor.now }
    ensures { IfOk result
        (λ text. string_bytes text ≡ table_line (info.now, cursor.now) ++ 10 ∷ []) }
{
    let table = &info.name;
    if cursor.done {
        return format!(in alloc; "{table} done\n");
    }
    match &cursor.last {
        Some(key) => {
            let last = key_text(alloc, info, key)?;
            format!(in alloc; "{table} open {last}\n")
        }
        None => format!(in alloc; "{table} open null\n"),
    }
}
