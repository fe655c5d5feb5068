//! From a workload's bytes to its tables, its rows in the store, and its steps.

ghost use Rattle.std.specs.Prelude.{◌≡◌, ◌⊎◌, ◌<◌, ◌++◌, ◌∷◌, [], None, IfOk, IfErr, IfSome};
ghost use Rattle.std.specs.Prelude.{OnOk, List, length};
ghost use Rattle.dbl_model_table.specs.Made.{table_fault};
ghost use Rattle.dbl_script.specs.declared.script.ScriptRow.{ScriptRow};
ghost use Rattle.dbl_script.specs.declared.script.ScriptTable.{ScriptTable};
ghost use Rattle.dbl_demo_wal.specs.Contents.{HasFewTables};
ghost use Rattle.dbl_tables_rows.specs.declared.demo_table.DemoTable.{DemoTable};
ghost use Rattle.dbl_demo_wal.specs.Workloads.{IsTableOf, IsWorkload, Workload};
ghost use Rattle.dbl_demo_workload.specs.Preparing.{AreReadSoFar, AreTablesRead, HasBadTable};
ghost use Rattle.dbl_demo_workload.specs.Preparing.{HasBadTableIn, HasRows};
ghost use Rattle.dbl_demo_workload.specs.Preparing.{InsertsRows, IsReadyOf, IsRefusedBy};
ghost use Rattle.dbl_demo_workload.specs.Preparing.{IsRowRefused, row_error};
ghost use Rattle.dbl_demo_workload.specs.Ready.{IsReady};
ghost use Rattle.dbl_demo_workload.specs.Refusals.{IsRefused};
ghost use Rattle.dbl_demo_workload.specs.Steps.{FitAnEntry};
ghost use Rattle.dbl_demo_wal.specs.TablesLaws.Reachable.{AreTables};
ghost use Rattle.dbl_tables.specs.FirstRows.{InsertsAfter};
ghost use Rattle.dbl_tables.specs.Stands.{Stands};
ghost use Rattle.dbl_tables_rows.specs.Acts.{Accepted};

use crate::DemoError;
use dbl_base::Seq;
use dbl_model_table::{TableInfo, TableName};
use dbl_pgmsg::Message;
use dbl_script::{Script, ScriptError, ScriptRow, ScriptTable, Step, parse};
use dbl_source_log::LogTable;
use dbl_tables::{FirstRows, Tables};
use dbl_tables_rows::{DemoTable, StepError};
use std::alloc::Global;

/// A workload before its first step: the store has the initial rows, and `rows` are the changes
/// that inserted them, if there are any.
#[derive(Drop)]
pub struct Prepared {
    pub names: Vec<TableName>,
    pub tables: Vec<LogTable>,
    pub store: Tables,
    pub steps: Vec<Step>,
    pub rows: Option<Seq<Message>>,
}

// The tables in three forms: their names, those of the store, and those of the log.
#[derive(Drop)]
struct TablesRead {
    names: Vec<TableName>,
    demo: Vec<DemoTable>,
    log: Vec<LogTable>,
}

fn demo_table(alloc: Global, line: &ScriptTable) -> Result<DemoTable, DemoError>
    ensures read { IfOk result (IsTableOf line.now) }
    ensures good { OnOk result (table_fault line.now.raw ≡ None) }
    ensures refused { IfErr result (HasBadTable line.now) }
{
    let info = TableInfo::make(alloc, &line.raw)?;
    Ok(DemoTable {
        info,
        full: line.full,
        toast: line.toast,
    })
}

// Adds the table of a line.
fn read_table(alloc: Global, read: &mut TablesRead, line: ScriptTable) -> Result<(), DemoError>
    ensures read { (lines : List ScriptTable) →
        AreReadSoFar lines read.old.names.items read.old.demo.items read.old.log.items →
        OnOk result (AreReadSoFar (lines ++ line ∷ [])
        read.new.names.items read.new.demo.items read.new.log.items) }
    ensures refused { IfErr result (HasBadTable line) }
{
    read.names.push(line.raw.name.copy(alloc)?)?;
    read.demo.push(demo_table(alloc, &line)?)?;
    let ScriptTable {
        mut raw,
        full,
        toast: _,
        line: _,
    } = line;
    raw.version = 1;
    read.log.push(LogTable { raw, full })?;
    Ok(())
}

fn read_tables(alloc: Global, lines: Vec<ScriptTable>) -> Result<TablesRead, DemoError>
    ensures read { IfOk result (λ read.
        AreTablesRead lines.items read.names.items read.demo.items read.log.items) }
    ensures refused { IfErr result (λ e.
        (e ≡ DemoError.Memory) ⊎ HasBadTableIn lines.items e) }
{
    let mut read = TablesRead {
        names: Vec::new(alloc),
        demo: Vec::new(alloc),
        log: Vec::new(alloc),
    };
    for line in lines {
        read_table(alloc, &mut read, line)?;
    }
    Ok(read)
}

fn row_error(error: StepError, line: u32) -> DemoError
    ensures { result ≡ row_error error line }
{
    match error {
        StepError::Memory => DemoError::Memory,
        _ => DemoError::Script(ScriptError::BadLine { number: line }),
    }
}

fn insert_row(first: &mut FirstRows, row: ScriptRow) -> Result<(), DemoError>
    ensures { IsRowRefused row first.old first.new result }
{
    let ScriptRow { table, cells, line } = row;
    match first.insert(&table, cells.into_items()) {
        Ok(()) => Ok(()),
        Err(error) => Err(row_error(error, line)),
    }
}

// Inserts the rows, each of which is dropped once it is in the store.
fn insert_each_row(first: &mut FirstRows, rows: Vec<ScriptRow>) -> Result<(), DemoError>
    ensures { (tables : List DemoTable) (past : List Accepted) → InsertsAfter tables past first.old
        → InsertsRows tables past rows.items first.new result }
{
    for row in rows {
        insert_row(first, row)?;
    }
    Ok(())
}

// Commits the rows in one commit of a session without a name.
fn commit_each_row(
    store: Tables,
    rows: Vec<ScriptRow>,
) -> Result<(Tables, Option<Seq<Message>>), DemoError>
    requires { 0 < length rows.items }
    ensures { HasRows rows.items store result }
{
    let mut first = FirstRows::begin(store);
    insert_each_row(&mut first, rows)?;
    let (store, messages) = first.commit();
    Ok((store, Some(messages)))
}

fn commit_rows(
    store: Tables,
    rows: Vec<ScriptRow>,
) -> Result<(Tables, Option<Seq<Message>>), DemoError>
    ensures { HasRows rows.items store result }
{
    if rows.is_empty() {
        return Ok((store, None));
    }
    commit_each_row(store, rows)
}

fn make_store(alloc: Global, tables: Vec<DemoTable>) -> Result<Tables, DemoError>
    requires { AreTables tables.items }
    ensures stands { IfOk result (Stands tables.items []) }
    ensures memory { IfErr result (λ e. e ≡ DemoError.Memory) }
{
    match Tables::make(alloc, tables) {
        Ok(store) => Ok(store),
        Err(_) => Err(DemoError::Memory),
    }
}

fn prepare_script(alloc: Global, script: Script) -> Result<Prepared, DemoError>
    requires few { HasFewTables script }
    ensures ready { IfOk result (IsReadyOf script) }
    ensures refused { IfErr result (λ e. (e ≡ DemoError.Memory) ⊎ IsRefusedBy script e) }
{
    let Script {
        tables,
        rows,
        steps,
    } = script;
    let read = read_tables(alloc, tables.into_items())?;
    let TablesRead { names, demo, log } = read;
    let store = make_store(alloc, demo)?;
    let committed = commit_rows(store, rows.into_items())?;
    let (store, rows) = committed;
    Ok(Prepared {
        names,
        tables: log,
        store,
        steps: steps.into_items(),
        rows,
    })
}

/// Prepares the workload of some bytes. Errors of lines come first, then of tables, then of rows.
pub fn prepare(alloc: Global, bytes: &[u8]) -> Result<Prepared, DemoError>
    ensures ready { IfOk result (λ ready.
        (w : Workload) × IsWorkload bytes.now w × IsReady w ready) }
    ensures fits { IfOk result (λ ready. IfSome ready.rows FitAnEntry) }
    ensures refused { IfErr result (λ e. (e ≡ DemoError.Memory) ⊎ IsRefused bytes.now e) }
{
    let script = parse(alloc, bytes)?;
    prepare_script(alloc, script)
}
