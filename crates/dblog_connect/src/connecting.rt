//! The session over the disks.

ghost use Rattle.std.specs.Prelude.{◌≡◌, ℕ, List, Some, None, IfOk, IfErr, MatchResult};
ghost use Rattle.std.specs.Prelude.{IsTrue, OnOk};
ghost use Rattle.dblog_promise.specs.Bounds.{IsBounded, IsStoreBounded};
ghost use Rattle.dblog_promise.specs.Headline.{GuaranteesAfterCrash};
ghost use Rattle.dbl_offset.specs.Stores.{IsLive, disk_of};
ghost use Rattle.dbl_demo.specs.DemoWorkload.Ready.{AreTableNames};
ghost use Rattle.dblog_connect.specs.Asked.{IsAskedWithinLimits, asks_in, budget_of, rule_of};
ghost use Rattle.dblog_connect.specs.Disks.{AreKeptDisks, IsTrueAfterCrash, IsTrueOfContents};
ghost use Rattle.dblog_connect.specs.Ends.{AddsFew, AreSteady, CountsFaults, EndsBefore};
ghost use Rattle.dblog_connect.specs.Ends.{GainsRecords};
ghost use Rattle.dblog_connect.specs.Ends.{HasBegun, HasRun, IsCompleteEnd, IsKeptError};
ghost use Rattle.dblog_connect.specs.Ends.{IsReported, IsSpent, IsWrongSource, OnlyRead};
ghost use Rattle.dblog_connect_ends.specs.Errors.{IsBeforeStore, IsAfterOpening};
ghost use Rattle.dblog_connect_ends.specs.Errors.{IsConnectRefusal};
ghost use Rattle.dblog_connect.specs.Refusals.{IsErrorFor, IsRefusedNext};
ghost use Rattle.dblog_connect.specs.Steps.{AnswersConnect, EndsSession, disks_of, IsOpenedLog};
ghost use Rattle.dblog_connect.specs.Steps.{IsOpenedSource, IsOpenedStore, session_end};

use crate::asked::{Asked, config_for, rule_of};
use crate::{ConnectError, Summary};
use dbl_capture::{Ending, Halt, Report};
use dbl_capture_gated::gated_session;
use dbl_demo::DemoSource;
use dbl_disk::{Disk, Refused};
use dbl_hooks_gate::Gate;
use dbl_offset::OffsetStore;
use dbl_record::Record;
use dbl_topic::TopicLog;
use dblog_init::{Disks, Outcome, Store};
use std::alloc::Global;

/// The commands `capture` and `resume`: a session of the connector, over the source, the topic log
/// and the offset on three disks, which are opened in this order, each with a sync, up to the first
/// that is refused. A first session is refused if an offset is stored, and a later one if none is.
///
/// `now_ms`, in milliseconds since 1970-01-01 UTC, is the time of its records.
pub fn connect<W: Disk, T: Disk, F: Disk>(
    alloc: Global,
    asked: Asked,
    now_ms: i64,
    disks: Disks<W, T, F>,
) -> Outcome<W, T, F, Result<Summary, ConnectError>>
    requires { IsAskedWithinLimits asked }

    // For crash-consistent (kept) disks: everything that a crash may leave satisfies the
    // connector's promise, and extends what was stored before. The disks stay crash-consistent.
    ensures headline { AreKeptDisks W.Disk T.Disk F.Disk disks →
        IsTrueAfterCrash W.Disk T.Disk F.Disk result.disks
        (GuaranteesAfterCrash (IsCompleteEnd result.end) (asks_in asked)
        (W.may_leave disks.wal) (T.may_leave disks.topics) (F.may_leave disks.offsets)) }
    ensures kept { AreKeptDisks W.Disk T.Disk F.Disk disks →
        AreKeptDisks W.Disk T.Disk F.Disk result.disks }

    // For crash-consistent disks: what its report says, and the errors that never come.
    ensures report { AreKeptDisks W.Disk T.Disk F.Disk disks →
        IsTrueOfContents W.Disk T.Disk F.Disk disks (λ w t f. IfOk result.end
        (IsReported asked now_ms (W.may_leave result.disks.wal) (T.may_leave result.disks.topics)
        (F.may_leave result.disks.offsets) w t f)) }
    ensures never { AreKeptDisks W.Disk T.Disk F.Disk disks →
        IsTrueOfContents W.Disk T.Disk F.Disk disks (λ w t f. IfErr result.end
        (IsKeptError asked now_ms (W.may_leave result.disks.wal) (T.may_leave result.disks.topics)
        (F.may_leave result.disks.offsets) w t f)) }

    // For disks with known contents: the answer, which record is refused, and what the topic log
    // and the source's log gain.
    ensures told { IsTrueOfContents W.Disk T.Disk F.Disk disks (λ w t f. MatchResult result.end
        (HasRun asked now_ms (W.may_leave result.disks.wal) (T.may_leave result.disks.topics)
        (F.may_leave result.disks.offsets) w t f)
        (EndsBefore asked now_ms (W.may_leave result.disks.wal) (T.may_leave result.disks.topics)
        (F.may_leave result.disks.offsets) w t f)) }
    ensures refuses { IsTrueOfContents W.Disk T.Disk F.Disk disks (λ w t f. IfErr result.end
        (IsRefusedNext asked now_ms (W.may_leave result.disks.wal) w t f)) }
    ensures gains { IsTrueOfContents W.Disk T.Disk F.Disk disks (λ w t f.
        (begun : HasBegun asked w t f) → GainsRecords asked now_ms
        (T.may_leave disks.topics) (T.may_leave result.disks.topics) w t f begun) }
    ensures marks { IsTrueOfContents W.Disk T.Disk F.Disk disks (λ w t f.
        AddsFew asked (W.may_leave disks.wal) (W.may_leave result.disks.wal) w t f) }

    // For a source's disk with known contents: why it has no valid log.
    ensures wal_wrong { (w : List ℕ) → W.seen disks.wal ≡ Some w →
        IfErr result.end (IsWrongSource w) }

    // For every disk: how much is read until a normal end, which errors there are (a refused record
    // only if its value is longer than the arguments allow), and that a refused command only reads
    // the disks, up to the one that is refused.
    ensures spent { IfOk result.end (IsSpent (budget_of asked)) }
    ensures kinds { IfErr result.end (IsErrorFor asked) }
    ensures topics_stay { IfErr result.end (λ e. IsBeforeStore Store.Topics e →
        result.disks.topics ≡ disks.topics) }
    ensures offsets_stay { IfErr result.end (λ e. IsBeforeStore Store.Offsets e →
        result.disks.offsets ≡ disks.offsets) }
    ensures wal_read { IfErr result.end (λ e. IsConnectRefusal e →
        OnlyRead W.Disk disks.wal result.disks.wal) }
    ensures topics_read { IfErr result.end (λ e. IsConnectRefusal e →
        OnlyRead T.Disk disks.topics result.disks.topics) }
    ensures offsets_read { IfErr result.end (λ e. IsConnectRefusal e →
        OnlyRead F.Disk disks.offsets result.disks.offsets) }

    // A failure is reported only if the disk's count of faults rose, and a session that ended
    // normally has met none of a disk with known contents; the disks' contents stay bounded.
    ensures wal_counts { CountsFaults W.Disk Store.Wal result.end disks.wal result.disks.wal }
    ensures steady { OnOk result.end (AreSteady W.Disk T.Disk F.Disk disks result.disks) }
    ensures topics_count { CountsFaults T.Disk Store.Topics result.end
        disks.topics result.disks.topics }
    ensures offsets_count { CountsFaults F.Disk Store.Offsets result.end
        disks.offsets result.disks.offsets }
    ensures wal_bounded { IsBounded (W.seen disks.wal) (W.seen result.disks.wal) }
    ensures topics_bounded { IsBounded (T.seen disks.topics) (T.seen result.disks.topics) }
    ensures offsets_bounded { IsStoreBounded
        (F.seen disks.offsets) (F.seen result.disks.offsets) }
{
    let Disks {
        wal,
        topics,
        offsets,
    } = disks;
    match DemoSource::open(alloc, wal) {
        Ok(source) => connect_source(alloc, asked, now_ms, source, topics, offsets),
        Err(Refused { disk, error }) => Outcome {
            disks: Disks {
                wal: disk,
                topics,
                offsets,
            },
            end: Err(ConnectError::from(error)),
        },
    }
}

fn connect_source<W: Disk, T: Disk, F: Disk>(
    alloc: Global,
    asked: Asked,
    now_ms: i64,
    source: DemoSource<W>,
    topics: T,
    offsets: F,
) -> Outcome<W, T, F, Result<Summary, ConnectError>>
    requires within { IsAskedWithinLimits asked }
    requires live { IsTrue source.live }
    requires tables { AreTableNames source.names }
    requires opened { IsOpenedSource W.Disk source }
    ensures answers { AnswersConnect W.Disk T.Disk F.Disk asked now_ms
        (disks_of source.journal.disk topics offsets) result.disks result.end }
    ensures spent { IfOk result.end (IsSpent (budget_of asked)) }
    ensures kinds { IfErr result.end (IsErrorFor asked) }
    ensures after_opening { IfErr result.end (IsAfterOpening Store.Wal) }
    ensures offsets_stay { IfErr result.end (λ e. IsBeforeStore Store.Offsets e →
        result.disks.offsets ≡ offsets) }
    ensures wal_read { IfErr result.end (λ e. IsConnectRefusal e →
        OnlyRead W.Disk source.journal.disk result.disks.wal) }
    ensures topics_read { IfErr result.end (λ e. IsConnectRefusal e →
        OnlyRead T.Disk topics result.disks.topics) }
    ensures offsets_read { IfErr result.end (λ e. IsConnectRefusal e →
        OnlyRead F.Disk offsets result.disks.offsets) }
    ensures wal_counts { CountsFaults W.Disk Store.Wal result.end
        source.journal.disk result.disks.wal }
    ensures steady { OnOk result.end (AreSteady W.Disk T.Disk F.Disk
        (disks_of source.journal.disk topics offsets) result.disks) }
    ensures topics_count { CountsFaults T.Disk Store.Topics result.end topics result.disks.topics }
    ensures offsets_count { CountsFaults F.Disk Store.Offsets result.end
        offsets result.disks.offsets }
    ensures wal_bounded { IsBounded (W.seen source.journal.disk) (W.seen result.disks.wal) }
    ensures topics_bounded { IsBounded (T.seen topics) (T.seen result.disks.topics) }
    ensures offsets_bounded { IsStoreBounded (F.seen offsets) (F.seen result.disks.offsets) }
{
    match TopicLog::open(alloc, topics) {
        Ok(log) => connect_log(alloc, asked, now_ms, source, log, offsets),
        Err(Refused { disk, error }) => Outcome {
            disks: Disks {
                wal: source.into_disk(),
                topics: disk,
                offsets,
            },
            end: Err(ConnectError::from(error)),
        },
    }
}

fn connect_log<W: Disk, T: Disk, F: Disk>(
    alloc: Global,
    asked: Asked,
    now_ms: i64,
    mut source: DemoSource<W>,
    log: TopicLog<T>,
    offsets: F,
) -> Outcome<W, T, F, Result<Summary, ConnectError>>
    requires within { IsAskedWithinLimits asked }
    requires source_live { IsTrue source.live }
    requires log_live { IsTrue log.live }
    requires tables { AreTableNames source.names }
    requires source_opened { IsOpenedSource W.Disk source }
    requires log_opened { IsOpenedLog T.Disk log }
    ensures answers { AnswersConnect W.Disk T.Disk F.Disk asked now_ms
        (disks_of source.journal.disk log.disk offsets) result.disks result.end }
    ensures spent { IfOk result.end (IsSpent (budget_of asked)) }
    ensures kinds { IfErr result.end (IsErrorFor asked) }
    ensures after_opening { IfErr result.end (IsAfterOpening Store.Topics) }
    ensures wal_read { IfErr result.end (λ e. IsConnectRefusal e →
        OnlyRead W.Disk source.journal.disk result.disks.wal) }
    ensures topics_read { IfErr result.end (λ e. IsConnectRefusal e →
        OnlyRead T.Disk log.disk result.disks.topics) }
    ensures offsets_read { IfErr result.end (λ e. IsConnectRefusal e →
        OnlyRead F.Disk offsets result.disks.offsets) }
    ensures wal_counts { CountsFaults W.Disk Store.Wal result.end
        source.journal.disk result.disks.wal }
    ensures steady { OnOk result.end (AreSteady W.Disk T.Disk F.Disk
        (disks_of source.journal.disk log.disk offsets) result.disks) }
    ensures topics_count { CountsFaults T.Disk Store.Topics result.end
        log.disk result.disks.topics }
    ensures offsets_count { CountsFaults F.Disk Store.Offsets result.end
        offsets result.disks.offsets }
    ensures wal_bounded { IsBounded (W.seen source.journal.disk) (W.seen result.disks.wal) }
    ensures topics_bounded { IsBounded (T.seen log.disk) (T.seen result.disks.topics) }
    ensures offsets_bounded { IsStoreBounded (F.seen offsets) (F.seen result.disks.offsets) }
{
    match OffsetStore::open(alloc, offsets) {
        Ok(mut store) => {
            let session = run_session(alloc, asked, now_ms, &mut source, log, &mut store);
            let (log, end) = session;
            Outcome {
                disks: Disks {
                    wal: source.into_disk(),
                    topics: log.into_disk(),
                    offsets: store.into_disk(),
                },
                end,
            }
        }
        Err(Refused { disk, error }) => Outcome {
            disks: Disks {
                wal: source.into_disk(),
                topics: log.into_disk(),
                offsets: disk,
            },
            end: Err(ConnectError::from(error)),
        },
    }
}

fn run_session<W: Disk, T: Disk, F: Disk>(
    alloc: Global,
    asked: Asked,
    now_ms: i64,
    source: &mut DemoSource<W>,
    log: TopicLog<T>,
    store: &mut OffsetStore<F>,
) -> (TopicLog<T>, Result<Summary, ConnectError>)
    requires within { IsAskedWithinLimits asked }
    requires source_live { IsTrue source.old.live }
    requires log_live { IsTrue log.live }
    requires store_live { IsLive store.old }
    requires tables { AreTableNames source.old.names }
    requires source_opened { IsOpenedSource W.Disk source.old }
    requires log_opened { IsOpenedLog T.Disk log }
    requires store_opened { IsOpenedStore F.Disk store.old }
    ensures { EndsSession W.Disk T.Disk F.Disk asked now_ms source.old source.new log result.0
        store.old store.new result.1 }
{
    let rule = rule_of(&asked);
    match Box::new(alloc, move |item: &Record| rule.allows(item)) {
        Ok(handler) => {
            let mut gate = Gate::make(alloc, log, rule, handler);
            let end = run_over_gate(alloc, asked, now_ms, source, &mut gate, store);
            (gate.into_inner(), end)
        }
        Err(_) => (log, Err(ConnectError::Memory)),
    }
}

// The end of a session over a gate.
fn end_of(end: Result<Ending, Halt>, refused: Option<(u64, u64)>) -> Result<Ending, ConnectError>
    ensures { result ≡ session_end end refused }
{
    match end {
        Ok(ending) => Ok(ending),
        Err(halt) => match refused {
            Some((position, ordinal)) => Err(ConnectError::Refused { position, ordinal }),
            None => Err(ConnectError::from(halt)),
        },
    }
}

fn run_over_gate<W: Disk, T: Disk, F: Disk>(
    alloc: Global,
    asked: Asked,
    now_ms: i64,
    source: &mut DemoSource<W>,
    gate: &mut Gate<TopicLog<T>>,
    store: &mut OffsetStore<F>,
) -> Result<Summary, ConnectError>
    requires within { IsAskedWithinLimits asked }
    requires source_live { IsTrue source.old.live }
    requires log_live { IsTrue gate.old.sink.live }
    requires unrefused { gate.old.refused ≡ None }
    requires rule { gate.old.rule ≡ rule_of asked }
    requires store_live { IsLive store.old }
    requires tables { AreTableNames source.old.names }
    requires source_opened { IsOpenedSource W.Disk source.old }
    requires log_opened { IsOpenedLog T.Disk gate.old.sink }
    requires store_opened { IsOpenedStore F.Disk store.old }
    ensures answers { AnswersConnect W.Disk T.Disk F.Disk asked now_ms
        (disks_of source.old.journal.disk gate.old.sink.disk (disk_of store.old))
        (disks_of source.new.journal.disk gate.new.sink.disk (disk_of store.new)) result }
    ensures spent { IfOk result (IsSpent (budget_of asked)) }
    ensures kinds { IfErr result (IsErrorFor asked) }
    ensures after_opening { IfErr result (IsAfterOpening Store.Offsets) }
    ensures source_stays { IfErr result (λ e. IsConnectRefusal e → source.new ≡ source.old) }
    ensures log_stays { IfErr result (λ e. IsConnectRefusal e →
        gate.new.sink ≡ gate.old.sink) }
    ensures store_stays { IfErr result (λ e. IsConnectRefusal e → store.new ≡ store.old) }
    ensures source_counts { CountsFaults W.Disk Store.Wal result
        source.old.journal.disk source.new.journal.disk }
    ensures steady { OnOk result (AreSteady W.Disk T.Disk F.Disk
        (disks_of source.old.journal.disk gate.old.sink.disk (disk_of store.old))
        (disks_of source.new.journal.disk gate.new.sink.disk (disk_of store.new))) }
    ensures log_counts { CountsFaults T.Disk Store.Topics result
        gate.old.sink.disk gate.new.sink.disk }
    ensures store_counts { CountsFaults F.Disk Store.Offsets result
        (disk_of store.old) (disk_of store.new) }
    ensures source_bounded { IsBounded
        (W.seen source.old.journal.disk) (W.seen source.new.journal.disk) }
    ensures log_bounded { IsBounded (T.seen gate.old.sink.disk) (T.seen gate.new.sink.disk) }
    ensures store_bounded { IsStoreBounded
        (F.seen (disk_of store.old)) (F.seen (disk_of store.new)) }
{
    let config = config_for(alloc, asked, store.load(), source.table_names())?;
    let mut report = Report {
        messages: 0,
        commits: 0,
        records: 0,
        chunks: 0,
        snapshot_rows: 0,
        position: 0,
    };
    let end = gated_session(alloc, &config, now_ms, source, gate, store, &mut report);
    let ending = end_of(end, gate.refused())?;
    Ok(Summary { ending, report })
}
