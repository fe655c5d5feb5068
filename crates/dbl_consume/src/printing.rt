//! The text of a consumer's rows.
ghost use Rattle.std.specs.Prelude.{◌≡◌, ◌++◌, ◌∷◌, [], List, ℕ, OnOk, IfOk, IfErr};
ghost use Rattle.std.specs.Prelude.{Err, map, codes, false, if◌then◌else◌};
ghost use Rattle.std.specs.BTreeMap.{IsOrdered};
ghost use Rattle.json.specs.Print.{quoted};
ghost use Rattle.dbl_base.specs.Streams.{FailsOnlyIfCounted};
ghost use Rattle.dbl_base.specs.Texts.{text_cmp};
ghost use Rattle.dbl_lines.specs.declared.error.PrintError.TheVariants.{OutputFailed, Memory};
ghost use Rattle.dbl_lines.specs.Writing.{Prints};
ghost use Rattle.dbl_lines.specs.Gathering.{PutsLines};
ghost use Rattle.dbl_record.specs.Line.{object_text};
ghost use Rattle.dbl_consume.specs.Printing.{cell_text, cell_part, row_line};
ghost use Rattle.dbl_consume.specs.RowTexts.{one_cell, cells_tail, rows_in, all_rows, AreInOrder};

use crate::tables::{Row, Table, Tables};
use dbl_base::{Output, Text};
use dbl_lines::{Line, LineWriter, PrintError};
use dbl_record::{HeldCell, append_quoted};
use std::alloc::{AllocError, Global};
use std::marker::Model;

fn text_of(cell: &HeldCell) -> &str
    ensures { result.now ≡ cell_text cell.now }
{
    match cell {
        HeldCell::Known(text) => text.as_str(),
        HeldCell::Unknown => "{}",
    }
}

fn append_comma(out: &mut Vec<u8>, later: bool) -> Result<(), AllocError>
    ensures { OnOk result (out.new.items ≡ out.old.items ++ (if later then codes "," else [])) }
{
    if later {
        out.extend_from_slice(b",")
    } else {
        Ok(())
    }
}

fn append_cell(
    mut out: Vec<u8>,
    later: bool,
    column: &Text,
    cell: &HeldCell,
) -> Result<Vec<u8>, AllocError>
    ensures { IfOk result (λ done. done.items ≡ out.items ++ one_cell later column.now cell.now) }
{
    append_comma(&mut out, later)?;
    let mut named = append_quoted(out, column.as_str())?;
    named.extend_from_slice(b":")?;
    named.extend_from_slice(text_of(cell).as_bytes())?;
    Ok(named)
}

// Appends the cells of a row, and the closing brace.
fn append_cells(out: Vec<u8>, row: &Row) -> Result<Vec<u8>, AllocError>
    ensures { IfOk result (λ done. done.items ≡ out.items ++ cells_tail false row.now.entries) }
{
    let mut done = out;
    let mut later = false;
    for (column, cell) in row.iter() {
        done = append_cell(done, later, column, cell)?;
        later = true;
    }
    done.extend_from_slice(b"}")?;
    Ok(done)
}

fn append_row(mut out: Vec<u8>, row: &Row) -> Result<Vec<u8>, AllocError>
    ensures { IfOk result
        (λ done. done.items ≡ out.items ++ object_text (map cell_part row.now.entries)) }
{
    out.extend_from_slice(b"{")?;
    append_cells(out, row)
}

// Appends the row's line, without its newline.
fn append_line(mut out: Vec<u8>, topic: &Text, key: &Text, row: &Row) -> Result<Vec<u8>, AllocError>
    ensures { IfOk result
        (λ done. done.items ≡ out.items ++ row_line ((topic.now, key.now), row.now.entries)) }
{
    out.extend_from_slice(topic.as_str().as_bytes())?;
    out.extend_from_slice(b" ")?;
    out.extend_from_slice(key.as_str().as_bytes())?;
    out.extend_from_slice(b" ")?;
    append_row(out, row)
}

/// A row with its topic and key.
#[derive(Drop)]
struct Placed<'a> {
    topic: &'a Text,
    key: &'a Text,
    row: &'a Row,
}

impl<'a> Model for Placed<'a> {
    ghost use Rattle.dbl_consume.specs.Printing.{HeldRow};

    ghost Value = { HeldRow };

    ghost view = { λ p. ((p.topic.now, p.key.now), p.row.now.entries) };
}

impl<'a> Line for Placed<'a> {
    ghost use Rattle.dbl_consume.specs.Printing.{row_line};

    ghost line = { λ row. row_line row };

    fn append(&self, out: Vec<u8>) -> Result<Vec<u8>, PrintError>
        ensures line { IfOk result (λ done. done.items ≡ out.items ++ row_line self.now) }
        ensures memory { IfErr result (λ error. error ≡ Memory) }
    {
        match append_line(out, self.topic, self.key, self.row) {
            Ok(done) => Ok(done),
            Err(_) => Err(PrintError::Memory),
        }
    }
}

// Prints the lines of a topic's rows.
fn put_table<O: Output>(
    output: &mut O,
    lines: &mut LineWriter,
    topic: &Text,
    table: &Table,
) -> Result<(), PrintError>
    ensures puts { PutsLines (map row_line (rows_in topic.now table.now.entries)) result
        lines.old lines.new (O.written output.old) (O.written output.new) }
    ensures cause { FailsOnlyIfCounted (result ≡ Err OutputFailed)
        (O.faults output.old) (O.faults output.new) }
{
    for (key, row) in table.iter() {
        match lines.put(output, &Placed { topic, key, row }) {
            Ok(()) => {}
            Err(error) => return Err(error),
        }
    }
    Ok(())
}

// Prints the lines of all rows.
fn put_tables<O: Output>(
    output: &mut O,
    lines: &mut LineWriter,
    tables: &Tables,
) -> Result<(), PrintError>
    ensures puts { PutsLines (map row_line (all_rows tables.now.entries)) result
        lines.old lines.new (O.written output.old) (O.written output.new) }
    ensures cause { FailsOnlyIfCounted (result ≡ Err OutputFailed)
        (O.faults output.old) (O.faults output.new) }
{
    for (topic, table) in tables.iter() {
        match put_table(output, lines, topic, table) {
            Ok(()) => {}
            Err(error) => return Err(error),
        }
    }
    Ok(())
}

/// For the prover alone: the lengths' contracts say that the topics and each topic's keys ascend.
pub(crate) fn look_at_order(tables: &Tables)
    ensures topics { IsOrdered text_cmp tables.now }
    ensures keys { AreInOrder tables.now.entries }
{
    for entry in tables.iter() {
        let _ = entry.1.len();
    }
    let _ = tables.len();
}

/// Prints the lines of all rows, topics and keys in byte order.
pub(crate) fn print<O: Output>(
    alloc: Global,
    tables: &Tables,
    output: &mut O,
) -> Result<(), PrintError>
    ensures prints { Prints (map row_line (all_rows tables.now.entries)) result
        (O.written output.old) (O.written output.new) }
    ensures cause { FailsOnlyIfCounted (result ≡ Err OutputFailed)
        (O.faults output.old) (O.faults output.new) }
{
    let mut lines = LineWriter::make(alloc)?;
    match put_tables(output, &mut lines, tables) {
        Ok(()) => lines.finish(output),
        Err(error) => Err(error),
    }
}
