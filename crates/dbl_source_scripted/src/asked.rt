ghost use Rattle.std.specs.Prelude.{◌≡◌, option_copied, IfOk, slice_index_or};
ghost use Rattle.dbl_source_scripted.specs.Fairness.{no_rows_selected};
ghost use Rattle.dbl_source_scripted.specs.Played.{question_of};

use dbl_base::{Lsn, Seq};
use dbl_model_table::{Key, TableName};
use dbl_source_model::{Selected, Started};
use std::alloc::{AllocError, Global};

// The arguments of a select, and the numbers of commits at its call and at its return.
#[derive(Drop)]
pub(crate) struct Asked {
    pub table: TableName,
    pub above: Option<Key>,
    pub limit: u32,
    pub from: usize,
    pub upto: usize,
}

// The last answer: an entry by its table's index, a message as the newest one read, rows by their
// index in the script.
#[derive(Clone, Copy)]
pub(crate) enum Last {
    Described(Option<usize>),
    Head(Lsn),
    Began(Started),
    Nothing,
    Message,
    Rows(usize),
    Done,
}

/// The answer with this number in the script; after its end version 1 and no rows.
pub(crate) fn selected_at(
    alloc: Global,
    rows: &Vec<Selected>,
    number: usize,
) -> Result<Selected, AllocError>
    ensures { IfOk result (λ found.
        found ≡ slice_index_or rows.now.items number no_rows_selected) }
{
    match rows.get(number) {
        Some(found) => Ok(Selected {
            version: found.version,
            rows: found.rows.copy(alloc)?,
        }),
        None => Ok(Selected {
            version: 1,
            rows: Seq::make(Vec::new(alloc)),
        }),
    }
}

fn key_of(alloc: Global, above: Option<&Key>) -> Result<Option<Key>, AllocError>
    ensures { IfOk result (λ key. key ≡ option_copied above.entry) }
{
    match above {
        Some(key) => Ok(Some(key.copy(alloc)?)),
        None => Ok(None),
    }
}

/// The arguments of a select as a record.
pub(crate) fn question(
    alloc: Global,
    table: &TableName,
    above: Option<&Key>,
    limit: u32,
    from: usize,
    upto: usize,
) -> Result<Asked, AllocError>
    ensures { IfOk result (λ asked.
        asked ≡ question_of table.now (option_copied above.entry) limit from upto) }
{
    Ok(Asked {
        table: table.copy(alloc)?,
        above: key_of(alloc, above)?,
        limit,
        from,
        upto,
    })
}
