//! A select: the rows between two groups of steps.

ghost use Rattle.std.specs.Prelude.{◌≡◌, [], List, option_copied, IsTrue, IfOk, IfErr};
ghost use Rattle.dbl_tables_rows.specs.declared.demo_table.DemoTable.{DemoTable};
ghost use Rattle.dbl_tables_rows.specs.Acts.{Accepted};
ghost use Rattle.dbl_tables.specs.Stands.{Stands};
ghost use Rattle.dbl_demo_wal.specs.Wals.{Wal};
ghost use Rattle.dbl_demo_wal.specs.Workloads.{acts_at};
ghost use Rattle.dbl_demo_wal.specs.Shown.{AreRowsShown};
ghost use Rattle.dbl_demo_laws.specs.Answers.{RunsStepsAndWrites, IsReaderKept};
ghost use Rattle.dbl_demo_laws.specs.Calls.{next_end, second_end};
ghost use Rattle.dbl_demo_laws.specs.Demo.{IsDemo};

use crate::DemoSource;
use dbl_base::Seq;
use dbl_disk::Disk;
use dbl_model_table::{Key, TableName};
use dbl_source::{Selected, SourceError};
use dbl_tables_rows::StepError;

impl<D: Disk> DemoSource<D> {
    fn selected_above(
        &self,
        table: &TableName,
        above: Option<&Key>,
        limit: u32,
    ) -> Result<Selected, SourceError>
        ensures rows { (tables : List DemoTable) (past : List Accepted) →
            Stands tables past self.now.store →
            IfOk result (λ answer. AreRowsShown tables past table.now
            (option_copied above.entry) limit answer.rows) }
        ensures version { IfOk result (λ answer. answer.version ≡ 1) }
        ensures memory { IfErr result (λ e. e ≡ SourceError.Memory) }
    {
        match self.store.select(table, above, limit) {
            Ok(rows) => Ok(Selected { version: 1, rows }),
            Err(StepError::UnknownTable) => Ok(Selected {
                version: 1,
                rows: Seq::make(Vec::new(self.alloc)),
            }),
            Err(_) => Err(SourceError::Memory),
        }
    }

    /// Selects the rows between two groups. The version is 1.
    pub(crate) fn answer_select(
        &mut self,
        table: &TableName,
        above: Option<&Key>,
        limit: u32,
    ) -> Result<Selected, SourceError>
        requires { IsTrue self.old.live }
        ensures added { RunsStepsAndWrites D.Disk (second_end self.old) []
            (λ new answer. IsReaderKept self.old new) self.old self.new result }
        ensures shown { (wal : Wal) → IsDemo D.Disk wal self.old
            → IfOk result (λ answer. AreRowsShown wal.workload.tables
            (acts_at wal.workload (next_end self.old)) table.now
            (option_copied above.entry) limit answer.rows) }
        ensures version { IfOk result (λ answer. answer.version ≡ 1) }
    {
        self.live = false;
        self.run_to_tick()?;
        let answer = self.selected_above(table, above, limit)?;
        self.run_to_tick()?;
        self.live = true;
        Ok(answer)
    }
}
