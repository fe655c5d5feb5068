//! From bytes to scripts.

ghost use Rattle.std.specs.Prelude.{◌≡◌, ◌≢◌, ◌<◌, ◌≤◌, ◌↔◌, ◌==◌, ℕ, [], not, true};
ghost use Rattle.std.specs.Prelude.{false, None, Some, Err, length, IfOk, OnOk};
ghost use Rattle.std.specs.List.{list_any};
ghost use Rattle.dbl_base.specs.Lines.{lines_of};
ghost use Rattle.dbl_model_table.specs.Tables.{same_name};
ghost use Rattle.dbl_script.specs.Grammar.{line_at};
ghost use Rattle.dbl_script.specs.Scripts.{may_follow, follows, script_of, first_bad};
ghost use Rattle.dbl_script.specs.Building.{with_line, with_said};

use crate::fault::Fault;
use crate::line::{Line, read_line};
use crate::{Script, ScriptError, ScriptRow, ScriptTable, Step};
use dbl_base::{Seq, next_line};
use dbl_model_table::TableName;
use std::alloc::{AllocError, Global};
use std::marker::Model;

/// The maximum number of lines of a script.
const LINES: usize = 1_000_000;

/// The maximum number of tables of a script.
const TABLES: usize = 64;

/// The script of the lines so far.
#[derive(Drop)]
struct Building {
    tables: Vec<ScriptTable>,
    rows: Vec<ScriptRow>,
    steps: Vec<Step>,
}

impl Model for Building {
    ghost use Rattle.dbl_script.specs.declared.script.Script.{Script};

    ghost Value = { Script };

    ghost view = { λ b.
        record { tables = b.tables.items; rows = b.rows.items; steps = b.steps.items } };
}

impl Building {
    fn new(alloc: Global) -> Building
        ensures { result ≡ script_of [] }
    {
        Building {
            tables: Vec::new(alloc),
            rows: Vec::new(alloc),
            steps: Vec::new(alloc),
        }
    }

    fn has_table(&self, name: &TableName) -> bool
        ensures { result ≡ list_any (λ other. same_name other.raw.name name.now) self.now.tables }
    {
        self.tables.iter().any(|other| other.raw.name == *name)
    }

    #[tactic(auto, unfolding(crate::specs::Scripts::may_follow))]
    fn may_precede(&self, line: &Line) -> bool
        ensures { result ≡ may_follow self.now line.now }
    {
        match line {
            Line::Passed => true,
            Line::Table(table) => {
                self.rows.is_empty()
                    && self.steps.is_empty()
                    && self.tables.len() < TABLES
                    && !self.has_table(&table.raw.name)
            }
            Line::Row(_) => !self.tables.is_empty() && self.steps.is_empty(),
            Line::Act(_) => !self.tables.is_empty(),
        }
    }

    fn push(&mut self, line: Line) -> Result<(), AllocError>
        ensures { OnOk result (self.new ≡ with_line self.old line) }
    {
        match line {
            Line::Passed => {}
            Line::Table(table) => self.tables.push(table)?,
            Line::Row(row) => self.rows.push(row)?,
            Line::Act(step) => self.steps.push(step)?,
        }
        Ok(())
    }

    fn take(&mut self, alloc: Global, number: u32, bytes: &[u8]) -> Result<(), Fault>
        ensures good { OnOk result (follows self.old (line_at number bytes.now) ≡ true) }
        ensures taken { OnOk result (self.new ≡ with_said self.old (line_at number bytes.now)) }
        ensures bad { result ≡ Err Fault.Bad → follows self.old (line_at number bytes.now) ≡ false }
    {
        let line = read_line(alloc, number, bytes)?;
        if !self.may_precede(&line) {
            return Err(Fault::Bad);
        }
        self.push(line)?;
        Ok(())
    }

    fn has_tables(&self) -> bool
        ensures { result ≡ not (length self.now.tables == 0) }
    {
        !self.tables.is_empty()
    }

    fn into_script(self) -> Script
        ensures { result ≡ self }
    {
        Script {
            tables: Seq::make(self.tables),
            rows: Seq::make(self.rows),
            steps: Seq::make(self.steps),
        }
    }
}

fn count_lines(bytes: &[u8]) -> usize
    ensures { result ≡ length (lines_of bytes.now) }
{
    let mut count = 0;
    let mut rest = bytes;
    'lines: while !rest.is_empty() {
        let (_, subsequent) = next_line(rest);
        rest = subsequent;
        count += 1;
    }
    count
}

// Builds the script of the lines, or returns the number of the first bad one.
fn build(alloc: Global, bytes: &[u8]) -> Result<Script, ScriptError>
    requires { length (lines_of bytes.now) ≤ 1_000_000 }
    ensures ok { IfOk result (λ script. script ≡ script_of (lines_of bytes.now)) }
    ensures good { OnOk result (first_bad (lines_of bytes.now) ≡ None) }
    ensures bad { (n : ℕ) → result ≡ Err (ScriptError.BadLine n) →
        first_bad (lines_of bytes.now) ≡ Some n }
    ensures few { result ≢ Err ScriptError.TooManyLines }
{
    let mut building = Building::new(alloc);
    let mut rest = bytes;
    let mut number = 0u32;
    'lines: while !rest.is_empty() {
        let (line, subsequent) = next_line(rest);
        rest = subsequent;
        number += 1;
        match building.take(alloc, number, line) {
            Ok(()) => {}
            Err(Fault::Bad) => return Err(ScriptError::BadLine { number }),
            Err(Fault::Memory) => return Err(ScriptError::Memory),
        }
    }
    if !building.has_tables() {
        return Err(ScriptError::BadLine { number: number + 1 });
    }
    Ok(building.into_script())
}

/// Parses a script, one line for each table, row or step.
pub fn parse(alloc: Global, bytes: &[u8]) -> Result<Script, ScriptError>
    ensures script { IfOk result (λ script. script ≡ script_of (lines_of bytes.now)) }
    ensures good { OnOk result (first_bad (lines_of bytes.now) ≡ None) }
    ensures bad { (n : ℕ) → result ≡ Err (ScriptError.BadLine n) →
        first_bad (lines_of bytes.now) ≡ Some n }
    ensures too_many { (result ≡ Err ScriptError.TooManyLines) ↔
        (1_000_000 < length (lines_of bytes.now)) }
{
    if count_lines(bytes) > LINES {
        return Err(ScriptError::TooManyLines);
    }
    build(alloc, bytes)
}
