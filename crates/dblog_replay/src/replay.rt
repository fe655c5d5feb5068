//! The messages of a log, one after another: their commits, and the first error.

ghost use Rattle.std.specs.Prelude.{◌≡◌, ◌∷◌, ℕ, List, [], ◌++◌, IfOk, IfErr, OnOk, is_some};
ghost use Rattle.std.specs.Prelude.{slice_get, slice_set};
ghost use Rattle.dbl_pgmsg.specs.declared.messages.Message.{Message};
ghost use Rattle.dbl_pgmsg.specs.declared.messages.Message.TheVariants as says;
ghost use Rattle.dbl_pgmsg.specs.Grammar.{FitsFields};
ghost use Rattle.dbl_model_table.specs.declared.table.TableInfo.{TableInfo};
ghost use Rattle.dbl_model_commit.specs.Past.{begin_of, HasNoRelation};
ghost use Rattle.dblog_replay.specs.declared.options.LogOptions.{LogOptions};
ghost use Rattle.dblog_replay.specs.Altered.{masking_in, set_from};
ghost use Rattle.dblog_replay.specs.Following.{HasReplayed, FollowsMessages, Prepares};
ghost use Rattle.dblog_replay.specs.Following.{HasRead, ReadsMessage, EndsRead};
ghost use Rattle.dblog_replay.specs.Following.{AppendsMessage, TakesMessage};
ghost use Rattle.dblog_replay.specs.Judged.{JudgesLog};

use crate::altering::check_columns;
use crate::capture::{capture_table, entry_of, is_new};
use crate::log_fault::LogFault;
use crate::options::LogOptions;
use dbl_base::{Lsn, Seq, Text};
use dbl_envelope::EventWriter;
use dbl_hooks_masks::Masking;
use dbl_model_commit::TxnError;
use dbl_model_table::{Commit, TableInfo, TableKey};
use dbl_pgmsg::{Message, RelationColumn};
use dbl_txn_shapes::{Read, ShapingAssembler, schema_of};
use std::alloc::{AllocError, Global};

/// The state after the processed messages: the captured tables in their last columns, and the open
/// transaction.
#[derive(Drop)]
pub struct Replayer {
    assembler: ShapingAssembler,
    keys: Seq<TableKey>,
    mask: Option<Masking>,
    pub writer: EventWriter,
}

fn learn_in(writer: &mut EventWriter, alloc: Global, info: TableInfo) -> Result<(), LogFault>
    ensures learnt { OnOk result
        (writer.new ≡ record writer.old { infos = writer.old.infos ++ info ∷ [] }) }
    ensures err { IfErr result (λ e. e ≡ LogFault.Memory) }
{
    match writer.learn(alloc, info) {
        Ok(()) => Ok(()),
        Err(_) => Err(LogFault::Memory),
    }
}

fn reshape_in(
    writer: &mut EventWriter,
    alloc: Global,
    table: u32,
    info: TableInfo,
) -> Result<(), LogFault>
    ensures reshaped { OnOk result
        (writer.new ≡ record writer.old { infos = slice_set writer.old.infos table info }) }
    ensures err { IfErr result (λ e. e ≡ LogFault.Memory) }
{
    match writer.reshape(alloc, table, info) {
        Ok(()) => Ok(()),
        Err(_) => Err(LogFault::Memory),
    }
}

// Writes the records of a captured table in its columns among these tables from here on.
fn reshape_from(
    writer: &mut EventWriter,
    alloc: Global,
    infos: &Vec<TableInfo>,
    table: u32,
) -> Result<(), LogFault>
    ensures reshaped { OnOk result (writer.new ≡ record writer.old
        { infos = set_from table writer.old.infos (slice_get infos.now.items table) }) }
    ensures err { IfErr result (λ e. e ≡ LogFault.Memory) }
{
    match infos.get(table as usize) {
        Some(info) => {
            let copied = info.copy(alloc)?;
            reshape_in(writer, alloc, table, copied)
        }
        None => Ok(()),
    }
}

impl Replayer {
    /// The state before any message.
    pub fn make(alloc: Global, options: LogOptions) -> Result<Replayer, AllocError>
        ensures { IfOk result (FollowsMessages options []) }
    {
        let LogOptions {
            identity,
            keys,
            mask,
        } = options;
        let writer = match EventWriter::make(alloc, identity, Vec::new(alloc)) {
            Ok(writer) => writer,
            Err(_) => return Err(AllocError),
        };
        Ok(Replayer {
            assembler: ShapingAssembler::make(alloc, Lsn(0)),
            keys,
            mask,
            writer,
        })
    }

    /// Whether a transaction is open. Takes no memory.
    pub fn inside(&self) -> bool
        ensures { (options : LogOptions) (ms : List Message) → FollowsMessages options ms self.now →
            result ≡ is_some (begin_of ms) }
    {
        self.assembler.inside()
    }

    fn add(&mut self, alloc: Global, info: TableInfo) -> Result<(), LogFault>
        ensures added { (options : LogOptions) (infos : List TableInfo) (ms : List Message) →
            HasReplayed options infos ms self.old → HasNoRelation info.name ms →
            OnOk result (HasReplayed options (infos ++ info ∷ []) ms self.new) }
        ensures err { IfErr result (λ e. e ≡ LogFault.Memory) }
    {
        let copied = info.copy(alloc)?;
        match self.assembler.learn(info) {
            Ok(()) => {
                learn_in(&mut self.writer, alloc, copied)?;
                Ok(())
            }
            Err(_) => Err(LogFault::Memory),
        }
    }

    // Captures the table of a Relation, if it is the first one of the table.
    fn learn(
        &mut self,
        alloc: Global,
        namespace: &Text,
        name: &Text,
        columns: &Vec<RelationColumn>,
    ) -> Result<(), LogFault>
        ensures { (options : LogOptions) (ms : List Message) (number oid identity : ℕ) →
            FollowsMessages options ms self.old → Prepares options ms number
            (says.Relation oid namespace.now name.now identity columns.now.items) self.new result }
    {
        let schema = schema_of(namespace);
        let name = name.as_str();
        let infos = self.assembler.infos();
        if !is_new(infos, schema, name) {
            return Ok(());
        }
        let entry = entry_of(alloc, self.keys.items(), schema, name, columns)?;
        let info = capture_table(alloc, &self.mask, infos.len(), &entry)?;
        self.add(alloc, info)
    }

    fn prepare(&mut self, alloc: Global, message: &Message) -> Result<(), LogFault>
        ensures { (options : LogOptions) (ms : List Message) (number : ℕ) →
            FollowsMessages options ms self.old →
            Prepares options ms number message.now self.new result }
    {
        match message {
            Message::Relation {
                oid: _,
                namespace,
                name,
                identity: _,
                columns,
            } => self.learn(alloc, namespace, name, columns.items()),
            _ => Ok(()),
        }
    }

    // Whether the column to be masked can be masked after a message.
    fn check(&self, alloc: Global, message: &Message) -> Result<(), LogFault>
        ensures { (options : LogOptions) (infos : List TableInfo) (ms : List Message) →
            HasReplayed options infos ms self.now →
            JudgesLog (masking_in options.mask infos message.now) result }
    {
        match message {
            Message::Relation {
                oid: _,
                namespace,
                name,
                identity: _,
                columns,
            } => check_columns(
                alloc,
                &self.mask,
                self.assembler.infos(),
                namespace,
                name,
                columns.items(),
            ),
            _ => Ok(()),
        }
    }

    // Ends the processing of a message that was read: a table's records have the columns that it
    // gives the table from here on.
    fn end(&mut self, alloc: Global, read: Read) -> Result<Option<Commit>, LogFault>
        ensures { (options : LogOptions) (infos : List TableInfo) (ms : List Message)
            (m : Message) → HasRead options infos ms m self.old read →
            EndsRead options infos ms m self.new result }
    {
        match read {
            Read::Nothing => Ok(None),
            Read::Ended(commit) => Ok(Some(commit)),
            Read::Shaped { table } => {
                reshape_from(&mut self.writer, alloc, self.assembler.infos(), table)?;
                Ok(None)
            }
        }
    }

    // Ends the processing of a message that was read, if the column to be masked can be masked.
    fn finish(
        &mut self,
        alloc: Global,
        checked: Result<(), LogFault>,
        read: Read,
    ) -> Result<Option<Commit>, LogFault>
        ensures { (options : LogOptions) (infos : List TableInfo) (ms : List Message)
            (number : ℕ) (m : Message) → HasRead options infos ms m self.old read →
            JudgesLog (masking_in options.mask infos m) checked →
            AppendsMessage options infos ms number m self.new result }
    {
        match checked {
            Ok(()) => self.end(alloc, read),
            Err(fault) => {
                drop(read);
                Err(fault)
            }
        }
    }

    // Reads a message after its table was captured.
    fn read(&mut self, alloc: Global, number: u64, message: Message) -> Result<Read, LogFault>
        ensures { (options : LogOptions) (infos : List TableInfo) (ms : List Message) →
            HasReplayed options infos ms self.old →
            ReadsMessage options infos ms number message self.new result }
    {
        match self.assembler.take(alloc, message) {
            Ok(read) => Ok(read),
            Err(TxnError::Memory) => Err(LogFault::Memory),
            Err(error) => Err(LogFault::Transaction { number, error }),
        }
    }

    // Appends a message after its table was captured, and returns the commit that it ends.
    fn append(
        &mut self,
        alloc: Global,
        number: u64,
        message: Message,
    ) -> Result<Option<Commit>, LogFault>
        ensures { (options : LogOptions) (infos : List TableInfo) (ms : List Message) →
            HasReplayed options infos ms self.old →
            AppendsMessage options infos ms number message self.new result }
    {
        let checked = self.check(alloc, &message);
        match self.read(alloc, number, message) {
            Ok(read) => self.finish(alloc, checked, read),
            Err(fault) => {
                drop(checked);
                Err(fault)
            }
        }
    }

    /// Processes the next message, which has this number, and returns the commit that it ends.
    pub fn take(
        &mut self,
        alloc: Global,
        number: u64,
        message: Message,
    ) -> Result<Option<Commit>, LogFault>
        requires { FitsFields message }
        ensures { (options : LogOptions) (ms : List Message) → FollowsMessages options ms self.old →
            TakesMessage options ms number message self.new result }
    {
        match self.prepare(alloc, &message) {
            Ok(()) => self.append(alloc, number, message),
            Err(fault) => {
                drop(message);
                Err(fault)
            }
        }
    }
}
