ghost use Rattle.std.specs.Prelude.{◌≡◌, ◌≢◌, ◌⊎◌, ℕ, ◌<◌, ◌≤◌, List, [], Some, None};
ghost use Rattle.std.specs.Prelude.{IfOk, IfErr, IsTrue, MatchResult, length, map};
ghost use Rattle.dbl_base.specs.Streams.{FaultCounted};
ghost use Rattle.dbl_disk.specs.Disks.{IsOnly};
ghost use Rattle.dbl_journal.specs.Form.{IsFaultAt, entry_limit};
ghost use Rattle.dbl_journal.specs.Stored.{IsSteady};
ghost use Rattle.dbl_demo_wal.specs.Sound.{steps_in};
ghost use Rattle.dbl_demo_wal.specs.Wals.{HasBadWalEntry, IsWal, Wal};
ghost use Rattle.dbl_demo_wal.specs.Workloads.{IsWorkload, Workload, steps_of};
ghost use Rattle.dbl_demo_laws.specs.Demo.{IsDemo};
ghost use Rattle.dbl_demo.specs.Errors.{IsMakeFault, IsOpenFault};
ghost use Rattle.dbl_demo_laws.specs.Made.{IsFirstWal};
ghost use Rattle.dbl_demo_workload.specs.Ready.{AreTableNames};
ghost use Rattle.dbl_demo_workload.specs.Refusals.{IsRefused};
ghost use Rattle.dbl_demo.specs.Begun.{first_room};

use crate::DemoError;
use crate::making::{first_numbers, first_source, make_log};
use crate::opening::open_journal;
use dbl_base::Lsn;
use dbl_demo_workload::prepare;
use dbl_disk::{Disk, Refused};
use dbl_journal::{Journal, JournalError};
use dbl_model_table::TableName;
use dbl_script::Step;
use dbl_source_log::{Described, LogTable, Logged, ReaderPosition};
use dbl_tables::Tables;
use std::alloc::Global;
use std::marker::Model;

/// A source that runs a workload, with its log on a disk: a crash loses only what a call was
/// adding.
///
/// Each call first runs the steps up to the next `tick`; a `select` then takes its rows and runs
/// those up to the one after it; a `read` runs more until there is a commit to be read, or no step
/// is left.
#[derive(Drop)]
pub struct DemoSource<D: Disk> {
    pub(crate) alloc: Global,
    pub(crate) journal: Journal<D>,
    pub(crate) names: Vec<TableName>,
    pub(crate) tables: Vec<LogTable>,
    pub(crate) store: Tables,
    pub(crate) steps: Vec<Step>,
    pub(crate) done: usize,
    // The number of each commit's entry.
    pub(crate) commits: Vec<u64>,
    pub(crate) confirmed: Lsn,
    pub(crate) place: Option<ReaderPosition>,
    // The columns that Relations have described since the last start.
    pub(crate) described: Described,
    // The commit that is being read, once its entry was read.
    pub(crate) held: Option<Logged>,
    // Whether the last read since the last start returned that nothing is left.
    pub(crate) ended: bool,
    pub(crate) live: bool,
}

impl<D: Disk> Model for DemoSource<D> {
    ghost use Rattle.std.specs.Coded.{codes};
    ghost use Rattle.dbl_tables.specs.contracts.tables.Tables as t;
    ghost use Rattle.dbl_demo_laws.specs.Demo.{Demo, HasParts};

    ghost Value = { Demo D };

    ghost coded = { Prim.hlevel (codes, t.the_row.coded) };

    ghost view = { λ s. record {
      journal = s.journal;
      names = s.names.items;
      tables = s.tables.items;
      store = s.store;
      steps = s.steps.items;
      done = s.done;
      commits = s.commits.items;
      confirmed = s.confirmed;
      place = s.place;
      described = s.described.entries;
      held = s.held;
      ended = s.ended;
      live = s.live;
    } };

    ghost invariant = { λ s. HasParts
        s.journal s.store s.steps.items s.done s.commits.items s.place s.live };
}

impl<D: Disk> DemoSource<D> {
    /// A source that begins with a workload, on an empty disk. The workload is checked before the
    /// first call of the disk; memory may run out later too.
    pub fn make(
        alloc: Global,
        disk: D,
        workload: &[u8],
    ) -> Result<DemoSource<D>, Refused<D, DemoError>>
        requires empty { (bytes : List ℕ) → D.seen disk ≡ Some bytes → bytes ≡ [] }
        requires short { length workload.now < entry_limit }
        // The log is of the workload, without watermarks and confirmed positions, and no step is
        // done.
        ensures made { D.seen disk ≡ Some [] → IfOk result (λ source. (wal : Wal)
            × IsDemo D.Disk wal source × IsFirstWal workload.now wal × (source.done ≡ 0)) }
        ensures workload { IfOk result (λ source. (w : Workload) × IsWorkload workload.now w
            × (source.names ≡ map (λ table. table.info.name) w.tables)
            × (source.steps ≡ steps_of w)) }
        ensures unread { IfOk result (λ source. source.place ≡ None) }
        ensures live { IfOk result (λ source. IsTrue source.live) }
        ensures refused { IfErr result (λ refused. (refused.error ≡ DemoError.Memory)
            ⊎ ((refused.error ≡ DemoError.Journal JournalError.Failed)
            ⊎ IsRefused workload.now refused.error)) }
        // A refused workload causes no call of the disk.
        ensures untouched { IfErr result (λ refused.
            IsRefused workload.now refused.error → refused.disk ≡ disk) }
        ensures kinds { IfErr result (λ refused. IsMakeFault refused.error) }
        ensures failed { IfErr result (λ refused.
            refused.error ≡ DemoError.Journal JournalError.Failed
            → FaultCounted (D.faults disk) (D.faults refused.disk)) }
        ensures small { (bytes : List ℕ) → D.seen disk ≡ Some [] → MatchResult result
            (λ source. D.seen source.journal.disk ≡ Some bytes → length bytes ≤ first_room)
            (λ refused. D.seen refused.disk ≡ Some bytes → length bytes ≤ first_room) }
        ensures later { MatchResult result
            (λ source. D.faults disk ≤ D.faults source.journal.disk)
            (λ refused. D.faults disk ≤ D.faults refused.disk) }
        ensures steady { MatchResult result
            (λ source. IsSteady D.Disk disk source.journal.disk)
            (λ refused. refused.error ≢ DemoError.Journal JournalError.Failed
            → IsSteady D.Disk disk refused.disk) }
    {
        let prepared = match prepare(alloc, workload) {
            Ok(prepared) => prepared,
            Err(error) => return Err(Refused { disk, error }),
        };
        let commits = match first_numbers(alloc, prepared.rows.is_some()) {
            Ok(commits) => commits,
            Err(error) => return Err(Refused { disk, error }),
        };
        let journal = make_log(alloc, disk, workload, &prepared)?;
        Ok(first_source(alloc, journal, prepared, commits))
    }

    /// The source on a disk, as a crash may have left it. Opening syncs the disk and reads each
    /// entry once; the workload's steps are run again in memory as far as the log counts them, and
    /// compared with it.
    pub fn open(alloc: Global, disk: D) -> Result<DemoSource<D>, Refused<D, DemoError>>
        ensures opened { (bytes : List ℕ) → D.seen disk ≡ Some bytes
            → IfOk result (λ source. (wal : Wal) × IsWal bytes wal
            × IsDemo D.Disk wal source × (source.done ≡ steps_in wal.entries)) }
        // For every disk, also one with unknown contents.
        ensures named { IfOk result (λ source. AreTableNames source.names) }
        ensures unread { IfOk result (λ source. source.place ≡ None) }
        ensures live { IfOk result (λ source. IsTrue source.live) }
        ensures bad { (bytes : List ℕ) (index : ℕ) → D.seen disk ≡ Some bytes
            → IfErr result (λ refused.
            refused.error ≡ DemoError.BadEntry index → HasBadWalEntry bytes index) }
        ensures not_a_journal { (bytes : List ℕ) (at : ℕ) → D.seen disk ≡ Some bytes
            → IfErr result (λ refused.
            refused.error ≡ DemoError.Journal (JournalError.NotAJournal at) → IsFaultAt bytes at) }
        ensures kinds { IfErr result (λ refused. IsOpenFault refused.error) }
        ensures failed { IfErr result (λ refused.
            refused.error ≡ DemoError.Journal JournalError.Failed
            → FaultCounted (D.faults disk) (D.faults refused.disk)) }
        ensures seen { MatchResult result
            (λ source. D.seen source.journal.disk ≡ D.seen disk)
            (λ refused. D.seen refused.disk ≡ D.seen disk) }
        ensures crash { (crashed : List ℕ) → MatchResult result
            (λ source. D.may_leave source.journal.disk crashed → D.may_leave disk crashed)
            (λ refused. D.may_leave refused.disk crashed → D.may_leave disk crashed) }
        ensures stable { (bytes : List ℕ) → D.seen disk ≡ Some bytes → MatchResult result
            (λ source. IsOnly bytes (D.may_leave source.journal.disk))
            (λ refused. refused.error ≢ DemoError.Journal JournalError.Failed
            → IsOnly bytes (D.may_leave refused.disk)) }
        ensures later { MatchResult result
            (λ source. D.faults disk ≤ D.faults source.journal.disk)
            (λ refused. D.faults disk ≤ D.faults refused.disk) }
        ensures steady { MatchResult result
            (λ source. IsSteady D.Disk disk source.journal.disk)
            (λ refused. refused.error ≢ DemoError.Journal JournalError.Failed
            → IsSteady D.Disk disk refused.disk) }
    {
        match Journal::open(alloc, disk) {
            Ok(journal) => open_journal(alloc, journal),
            Err(Refused { disk, error }) => Err(Refused {
                disk,
                error: DemoError::from(error),
            }),
        }
    }

    /// The names of the workload's tables, in the order of their lines. Takes no memory.
    pub fn table_names(&self) -> &Vec<TableName>
        ensures { result.now.items ≡ self.now.names }
    {
        &self.names
    }

    /// The disk in its present state. Takes no memory and makes no call of the disk.
    pub fn into_disk(self) -> D
        ensures { result ≡ self.journal.disk }
    {
        let DemoSource {
            alloc: _,
            journal,
            names: _,
            tables: _,
            store: _,
            steps: _,
            done: _,
            commits: _,
            confirmed: _,
            place: _,
            described: _,
            held: _,
            ended: _,
            live: _,
        } = self;
        journal.into_disk()
    }
}
