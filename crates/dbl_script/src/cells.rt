//! Readers of cells.

ghost use Rattle.std.specs.Prelude.{◌≡◌, OnOk};
ghost use Rattle.dbl_script.specs.Reads.{Reads, Gives, all_of};
ghost use Rattle.dbl_script.specs.Grammar.{cell_of, cells_of, before_set, words_after_set};
ghost use Rattle.dbl_script.specs.Grammar.{null_cell_of, value_cell_of};
ghost use Rattle.dbl_script.specs.Words.{cut_at};

use crate::NamedCell;
use crate::fault::Fault;
use crate::parts::{Parts, cut};
use crate::words::{cell_text, column_name, is_word};
use dbl_base::Seq;
use std::alloc::Global;

#[tactic(auto, unfolding(crate::specs::Grammar::null_cell_of))]
fn null_cell(alloc: Global, word: &[u8]) -> Result<NamedCell, Fault>
    ensures { Reads (null_cell_of (cut_at 126 word.now)) result }
{
    let Some((column, rest)) = cut(b'~', word) else {
        return Err(Fault::Bad);
    };
    if !rest.is_empty() {
        return Err(Fault::Bad);
    }
    let column = column_name(alloc, column)?;
    Ok(NamedCell { column, text: None })
}

#[tactic(auto, unfolding(crate::specs::Grammar::value_cell_of))]
fn value_cell(alloc: Global, column: &[u8], text: &[u8]) -> Result<NamedCell, Fault>
    ensures { Reads (value_cell_of (column.now, text.now)) result }
{
    let column = column_name(alloc, column)?;
    let text = cell_text(alloc, text)?;
    Ok(NamedCell {
        column,
        text: Some(text),
    })
}

#[tactic(auto, unfolding(crate::specs::Grammar::cell_of, crate::specs::Grammar::cell_in))]
fn cell(alloc: Global, word: &[u8]) -> Result<NamedCell, Fault>
    ensures { Reads (cell_of word.now) result }
{
    match cut(b'=', word) {
        Some((column, text)) => value_cell(alloc, column, text),
        None => null_cell(alloc, word),
    }
}

fn all_cells(alloc: Global, words: &mut Parts<'_>) -> Result<Vec<NamedCell>, Fault>
    ensures { Gives (λ v. v.items) result (all_of cell_of words.old) }
{
    let mut cells = Vec::new(alloc);
    'words: while let Some(word) = words.next_part() {
        let cell = cell(alloc, word)?;
        cells.push(cell)?;
    }
    Ok(cells)
}

/// Reads the remaining words as one or more cells.
#[tactic(auto, unfolding(crate::specs::Reads::some_of))]
pub fn cells(alloc: Global, words: &mut Parts<'_>) -> Result<Seq<NamedCell>, Fault>
    ensures { Reads (cells_of words.old) result }
{
    let cells = all_cells(alloc, words)?;
    if cells.is_empty() {
        return Err(Fault::Bad);
    }
    Ok(Seq::make(cells))
}

fn all_key_cells(alloc: Global, words: &mut Parts<'_>) -> Result<Vec<NamedCell>, Fault>
    ensures read { Gives (λ v. v.items) result (all_of cell_of (before_set words.old)) }
    ensures left { OnOk result (words.new ≡ words_after_set words.old) }
{
    let mut cells = Vec::new(alloc);
    'words: while let Some(word) = words.next_part() {
        if is_word(word, "set") {
            return Ok(cells);
        }
        let cell = cell(alloc, word)?;
        cells.push(cell)?;
    }
    Ok(cells)
}

/// Reads one or more cells up to and including the word `set`.
#[tactic(auto, unfolding(crate::specs::Reads::some_of))]
pub fn key_cells(alloc: Global, words: &mut Parts<'_>) -> Result<Seq<NamedCell>, Fault>
    ensures read { Reads (cells_of (before_set words.old)) result }
    ensures left { OnOk result (words.new ≡ words_after_set words.old) }
{
    let cells = all_key_cells(alloc, words)?;
    if cells.is_empty() {
        return Err(Fault::Bad);
    }
    Ok(Seq::make(cells))
}
