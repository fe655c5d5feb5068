//! Readers of single lines.

ghost use Rattle.std.specs.Prelude.{◌≡◌};
ghost use Rattle.dbl_script.specs.Reads.{Reads};
ghost use Rattle.dbl_script.specs.Words.{words_of};
ghost use Rattle.dbl_script.specs.Grammar.{worded, line_at};

use crate::columns::table;
use crate::fault::Fault;
use crate::parts::Parts;
use crate::steps::{alone, row, step};
use crate::words::is_word;
use crate::{ScriptRow, ScriptTable, Step};
use dbl_base::is_blank_or_comment;
use std::alloc::Global;

/// The content of a line.
#[derive(Drop)]
pub enum Line {
    Passed,
    Table(ScriptTable),
    Row(ScriptRow),
    Act(Step),
}

#[tactic(auto, unfolding(crate::specs::Grammar::worded))]
fn worded_line(alloc: Global, number: u32, bytes: &[u8]) -> Result<Line, Fault>
    ensures { Reads (worded number (words_of bytes.now)) result }
{
    let mut words = Parts::of(b' ', bytes);
    let first = words.expect_part()?;
    if is_word(first, "table") {
        let table = table(alloc, number, &mut words)?;
        Ok(Line::Table(table))
    } else if is_word(first, "row") {
        let row = row(alloc, number, &mut words)?;
        Ok(Line::Row(row))
    } else if is_word(first, "tick") {
        let tick = alone(Step::Tick, &mut words)?;
        Ok(Line::Act(tick))
    } else {
        let step = step(alloc, first, &mut words)?;
        Ok(Line::Act(step))
    }
}

/// Reads the line with this number.
#[tactic(auto, unfolding(crate::specs::Grammar::line_at))]
pub fn read_line(alloc: Global, number: u32, bytes: &[u8]) -> Result<Line, Fault>
    ensures { Reads (line_at number bytes.now) result }
{
    if is_blank_or_comment(bytes) {
        return Ok(Line::Passed);
    }
    worded_line(alloc, number, bytes)
}
