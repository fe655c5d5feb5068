//! Which keys are known, by the definition.

ghost use Rattle.std.specs.Prelude.{IfOk};
ghost use Rattle.dbl_model_table.specs.Rows.{all_changes};
ghost use Rattle.dbl_consume_laws.specs.KnownKeys.{IsKnown};
ghost use Rattle.cases_ages.specs.Trace.{Tests, AreUnlisted};

use crate::plain_ages::is_touched;
use crate::progress::{Log, is_told};
use dbl_model_table::{Commit, Key};
use std::alloc::{AllocError, Global};

/// Whether a key is known at a moment, by the records of a log and the changes from the start on. There may be no
/// answer, only where a progress record says of the table what isn't listed.
pub fn is_known(
    alloc: Global,
    log: &Log<'_>,
    commits: &Vec<Commit>,
    start: u64,
    to: u64,
    table: u32,
    key: &Key,
) -> Result<Option<bool>, AllocError>
    ensures { IfOk result (λ known. Tests known
        (IsKnown log.now.identity.now log.now.infos.now.items (all_changes commits.now.items) start
        log.now.records.now.items to table key.now)
        (AreUnlisted log.now.identity.now log.now.infos.now.items log.now.records.now.items
        log.now.said.now.items table)) }
{
    let Some(told) = is_told(alloc, log, table, key)? else {
        return Ok(None);
    };
    if told {
        return Ok(Some(true));
    }
    let touched = is_touched(alloc, log.infos, commits, start, to, table, key)?;
    Ok(Some(touched))
}
