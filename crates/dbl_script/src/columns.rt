//! Readers of tables and their columns.

ghost use Rattle.std.specs.Prelude.{◌≡◌, ◌++◌, ◌∷◌, [], OnOk, option_map};
ghost use Rattle.dbl_script.specs.Reads.{Reads, Gives, all_of};
ghost use Rattle.dbl_script.specs.Words.{cut_at};
ghost use Rattle.dbl_script.specs.Columns.{columns_in, key_in, named_column, typed_column};
ghost use Rattle.dbl_script.specs.Columns.{column_with, column_of, columns_of, split_columns};
ghost use Rattle.dbl_script.specs.Grammar.{identity_of, toast_of, table_in};

use crate::ScriptTable;
use crate::fault::Fault;
use crate::parts::{Parts, cut};
use crate::words::{column_name, is_word, number, oid, table_name};
use dbl_base::{Seq, Text};
use dbl_model_table::{RawColumn, RawTable};
use std::alloc::{AllocError, Global};

/// The maximum number of columns of a PostgreSQL table.
const COLUMNS: usize = 1600;

/// A column, and whether it is a key column.
#[derive(Drop)]
pub struct ColumnWord {
    pub column: RawColumn,
    pub is_key: bool,
}

fn column_with(alloc: Global, name: &[u8], kind: &[u8], is_key: bool) -> Result<ColumnWord, Fault>
    ensures { Reads (column_with name.now kind.now is_key) result }
{
    let name = column_name(alloc, name)?;
    let Some(oid) = oid(kind) else {
        return Err(Fault::Bad);
    };
    Ok(ColumnWord {
        column: RawColumn { name, oid },
        is_key,
    })
}

#[tactic(auto, unfolding(crate::specs::Columns::typed_column))]
fn typed_column(alloc: Global, name: &[u8], rest: &[u8]) -> Result<ColumnWord, Fault>
    ensures { Reads (typed_column name.now rest.now (cut_at 58 rest.now)) result }
{
    match cut(b':', rest) {
        None => column_with(alloc, name, rest, false),
        Some((kind, key)) => {
            if !is_word(key, "key") {
                return Err(Fault::Bad);
            }
            column_with(alloc, name, kind, true)
        }
    }
}

#[tactic(auto, unfolding(crate::specs::Columns::column_of, crate::specs::Columns::named_column))]
fn column(alloc: Global, word: &[u8]) -> Result<ColumnWord, Fault>
    ensures { Reads (column_of word.now) result }
{
    match cut(b':', word) {
        None => Err(Fault::Bad),
        Some((name, rest)) => typed_column(alloc, name, rest),
    }
}

fn push_key(alloc: Global, word: &ColumnWord, key: &mut Vec<Text>) -> Result<(), AllocError>
    ensures { OnOk result (key.new.items ≡ key.old.items ++ key_in (word.now ∷ [])) }
{
    if word.is_key {
        let name = word.column.name.copy(alloc)?;
        key.push(name)?;
    }
    Ok(())
}

fn all_columns(alloc: Global, words: &mut Parts<'_>) -> Result<(Vec<RawColumn>, Vec<Text>), Fault>
    ensures { Gives (λ x. (x.0.items, x.1.items)) result
        (option_map split_columns (all_of column_of words.old)) }
{
    let mut columns = Vec::new(alloc);
    let mut key = Vec::new(alloc);
    'words: while let Some(word) = words.next_part() {
        let word = column(alloc, word)?;
        push_key(alloc, &word, &mut key)?;
        columns.push(word.column)?;
    }
    Ok((columns, key))
}

/// Reads the remaining words as one or more columns, and returns them with the names of the key
/// columns.
#[tactic(auto, unfolding(crate::specs::Reads::some_of, crate::specs::Columns::columns_of))]
fn columns(alloc: Global, words: &mut Parts<'_>) -> Result<(Seq<RawColumn>, Seq<Text>), Fault>
    ensures { Gives (λ x. (x.0, x.1)) result (option_map split_columns (columns_of words.old)) }
{
    let (columns, key) = all_columns(alloc, words)?;
    if columns.is_empty() {
        return Err(Fault::Bad);
    }
    if columns.len() > COLUMNS {
        return Err(Fault::Bad);
    }
    Ok((Seq::make(columns), Seq::make(key)))
}

#[tactic(auto, unfolding(crate::specs::Grammar::identity_of))]
fn is_full(word: &[u8]) -> Option<bool>
    ensures { result ≡ identity_of word.now }
{
    if is_word(word, "default") {
        Some(false)
    } else if is_word(word, "full") {
        Some(true)
    } else {
        None
    }
}

#[tactic(auto, unfolding(crate::specs::Grammar::toast_of))]
fn toast(word: &[u8], size: &[u8]) -> Option<u32>
    ensures { result ≡ toast_of word.now size.now }
{
    if !is_word(word, "toast") {
        return None;
    }
    number(size)
}

/// Reads a table from the words after `table`.
#[tactic(auto, unfolding(crate::specs::Grammar::table_in))]
pub fn table(alloc: Global, line: u32, words: &mut Parts<'_>) -> Result<ScriptTable, Fault>
    ensures { Reads (table_in line words.old) result }
{
    let name = words.expect_part()?;
    let identity = words.expect_part()?;
    let word = words.expect_part()?;
    let size = words.expect_part()?;
    let name = table_name(alloc, name)?;
    let Some(full) = is_full(identity) else {
        return Err(Fault::Bad);
    };
    let Some(toast) = toast(word, size) else {
        return Err(Fault::Bad);
    };
    let (columns, key) = columns(alloc, words)?;
    Ok(ScriptTable {
        raw: RawTable {
            name,
            columns,
            key,
            version: 1,
        },
        full,
        toast,
        line,
    })
}
