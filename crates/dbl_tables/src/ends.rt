//! How sessions end: with their changes committed, or without them.

ghost use Rattle.std.specs.Prelude.{List, IfOk};
ghost use Rattle.dbl_tables_rows.specs.declared.demo_table.DemoTable.{DemoTable};
ghost use Rattle.dbl_tables_rows.specs.Acts.{Accepted};
ghost use Rattle.dbl_tables_rows.specs.Steps.Step.{Commit, Rollback};
ghost use Rattle.dbl_tables.specs.Stands.{Stands, EndsSession, IsGiven};

use crate::tables::Tables;
use dbl_base::{Seq, Text};
use dbl_pgmsg::Message;
use dbl_tables_rows::{StepError, commit_tables, roll_back_tables};

impl Tables {
    /// Commits the session's changes, releases its locks, and returns the change messages in order.
    /// Takes no memory.
    pub fn commit(&mut self, session: &Text) -> Result<Seq<Message>, StepError>
        ensures ends { (tables : List DemoTable) (past : List Accepted) →
            Stands tables past self.old
            → EndsSession tables past (Commit session.now) self.new result }
        ensures given { (tables : List DemoTable) (past : List Accepted) →
            Stands tables past self.old → IfOk result (IsGiven past session.now) }
    {
        let Some(ended) = self.sessions.remove(session) else {
            return Err(StepError::NotOpen);
        };
        commit_tables(&mut self.tables, ended.keys.as_slice(), session);
        Ok(Seq::make(ended.messages))
    }

    /// Discards the session's changes, and releases its locks. Takes no memory.
    pub fn rollback(&mut self, session: &Text) -> Result<(), StepError>
        ensures { (tables : List DemoTable) (past : List Accepted) → Stands tables past self.old →
            EndsSession tables past (Rollback session.now) self.new result }
    {
        let Some(ended) = self.sessions.remove(session) else {
            return Err(StepError::NotOpen);
        };
        roll_back_tables(&mut self.tables, ended.keys.as_slice(), session);
        Ok(())
    }
}
