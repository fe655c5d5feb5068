ghost use Rattle.std.specs.Prelude.{◌≡◌, ◌≤◌, not, length, None, Some, ℤ, List, [], ◌∷◌};
ghost use Rattle.std.specs.Prelude.{slice_set, position, All, IfOk, IfErr, IfSome, IsSome, OnOk};
ghost use Rattle.std.specs.Option.{option_copied};
ghost use Rattle.dbl_model_table.specs.declared.change.Body.TheVariants as bodies;
ghost use Rattle.dbl_model_table.specs.declared.change.Ended.{Ended};
ghost use Rattle.dbl_model_table.specs.declared.table.TableInfo.{TableInfo as SpecInfo};
ghost use Rattle.dbl_model_table.specs.Heads.{commit_by, ended_at};
ghost use Rattle.dbl_model_table.specs.Rows.{changes_of};
ghost use Rattle.dbl_model_history.specs.Cursors.{AreCursorsOf};
ghost use Rattle.dbl_model_history.specs.FitsInfos.{FitsInfos};
ghost use Rattle.dbl_model_event.specs.Clashes.{snapshot_clash};
ghost use Rattle.dbl_model_event.specs.Snapshots.{snapshot, FitsSnapshot};
ghost use Rattle.dbl_model_event.specs.SnapshotLists.{IsSnapshot};
ghost use Rattle.dbl_window.specs.Plans.{Chunk, high_text};
ghost use Rattle.dbl_follow.specs.declared.window.Window.TheVariants as windows;
ghost use Rattle.dbl_follow.specs.Amid.{EndsWithCommit, FollowsChange, RefusesChange};
ghost use Rattle.dbl_follow.specs.Amid.{EndsTransaction, RefusesEnd};
ghost use Rattle.dbl_follow.specs.Followed.{awaited, FitsWindow, IsPlanOfCaptured};
ghost use Rattle.dbl_follow.specs.Followed.{IsOpenOf, IsWindowOf};
ghost use Rattle.dbl_follow.specs.Faults.{IsClashOf};
ghost use Rattle.dbl_follow.specs.Steps.{Passes, Steps, clash_by, closed_of};
ghost use Rattle.dbl_follow.specs.Steps.{closing, mark_of, records_by, seen_by};

use crate::FollowError;
use crate::part::{Part, end_part, follow_change};
use crate::window::Window;
use dbl_base::{Lsn, Text};
use dbl_envelope::EventWriter;
use dbl_model_event::Closed;
use dbl_model_history::Cursor;
use dbl_model_table::{Body, Change, Commit, Ended, Head, Identity, TableInfo};
use dbl_record::Record;
use dbl_window::{Armed, Open, Seen};
use std::alloc::{AllocError, Global};
use std::marker::Model;
use std::mem;

/// Follows the commits of a log. It has at most one window, whose snapshot is delivered at the
/// window's high watermark, in order with the records of the commits.
#[derive(Drop)]
pub struct Follower {
    alloc: Global,
    writer: EventWriter,
    cursors: Vec<Cursor>,
    window: Window,
    part: Option<Part>,
}

impl Model for Follower {
    ghost use Rattle.std.specs.Prelude.{option_map};
    ghost use Rattle.dbl_follow.specs.Followed.{Following, IsFollowing, part_of};

    ghost Value = { Following };

    ghost view = { λ f. record {
      identity = f.writer.identity;
      infos = f.writer.infos;
      cursors = f.cursors.items;
      window = f.window;
      part = option_map part_of f.part;
    } };

    ghost invariant = { λ f. IsFollowing f.writer f.cursors.items f.window f.part };
}

// The index of the first snapshot that isn't done.
fn first_open(cursors: &Vec<Cursor>) -> Option<usize>
    ensures { result ≡ position (λ cursor. not cursor.done) cursors.now.items }
{
    cursors.iter().position(|cursor| !cursor.done)
}

// The window after an armed window sees a watermark.
fn seen_window(armed: Armed, value: &Text) -> Window
    ensures seen { result ≡ seen_by (windows.Armed armed) value.now }
    ensures fits { (infos : List SpecInfo) → IsPlanOfCaptured infos armed.plan
        → IsWindowOf infos result }
{
    match armed.see(value) {
        Seen::Opened(opened) => Window::Open(opened),
        Seen::Waiting(armed) => Window::Armed(armed),
    }
}

// Sets the window.
fn set_window(place: &mut Window, window: Window)
    ensures { place.new ≡ window }
{
    *place = window;
}

// The commit of a transaction that wrote this watermark.
fn commit_of_mark(ended: &Ended, value: Text) -> Commit
    ensures { result ≡ commit_by (record ended.now { mark = Some value }) [] }
{
    Commit {
        lsn: ended.head.lsn,
        end_lsn: ended.end_lsn,
        time: ended.head.time,
        xid: ended.head.xid,
        body: Body::Mark(value),
    }
}

impl Follower {
    /// A follower without a window, of at most 64 captured tables, each with its progress. Later
    /// calls use the allocator.
    pub fn make(
        alloc: Global,
        identity: Identity,
        infos: Vec<TableInfo>,
        cursors: Vec<Cursor>,
    ) -> Result<Follower, FollowError>
        requires few { length infos.items ≤ 64 }
        requires cursors { AreCursorsOf infos.items cursors.items }
        ensures made { IfOk result (λ follower. follower ≡
            record {
              identity = identity;
              infos = infos.items;
              cursors = cursors.items;
              window = windows.Absent;
              part = None;
            }) }
        ensures memory { IfErr result (λ e. e ≡ FollowError.Memory) }
    {
        let writer = EventWriter::make(alloc, identity, infos)?;
        Ok(Follower {
            alloc,
            writer,
            cursors,
            window: Window::Absent,
            part: None,
        })
    }

    /// Sets the window of one of its tables, if it has none. Takes no memory.
    pub fn arm(&mut self, armed: Armed)
        requires none { self.old.window ≡ windows.Absent }
        requires planned { IsPlanOfCaptured self.old.infos armed.plan }
        ensures { self.new ≡ record self.old { window = windows.Armed armed } }
    {
        set_window(&mut self.window, Window::Armed(armed));
    }

    /// The watermark for which its window waits: the low one while it is armed, the high one while
    /// it is open. None if and only if it has no window. Takes no memory.
    pub fn waits_for(&self) -> Option<&Text>
        ensures text { option_copied result ≡ awaited self.now.window }
        ensures fits { FitsWindow self.now.window }
    {
        match &self.window {
            Window::Absent => None,
            Window::Armed(armed) => Some(armed.awaited_mark()),
            Window::Open(opened) => Some(opened.awaited_mark()),
        }
    }

    /// The first table whose snapshot isn't done. None if and only if all are done. Takes no
    /// memory.
    pub fn next_table(&self) -> Option<u32>
        ensures { result ≡ position (λ cursor. not cursor.done) self.now.cursors }
    {
        match first_open(&self.cursors) {
            Some(table) => Some(table as u32),
            None => None,
        }
    }

    /// The progress of each table's snapshot. Takes no memory.
    pub fn cursors(&self) -> &Vec<Cursor>
        ensures cursors { result.now.items ≡ self.now.cursors }
        ensures are { AreCursorsOf self.now.infos self.now.cursors }
    {
        &self.cursors
    }

    // Passes a change to the window; its records are built separately.
    fn see_change(&mut self, change: &Change) -> Result<(), AllocError>
        requires { FitsInfos self.old.infos change.now }
        ensures passes { OnOk result
            (Passes self.old.infos self.old.window (change.now ∷ []) self.new.window) }
        ensures same { self.new ≡ record self.old { window = self.new.window } }
    {
        match &mut self.window {
            Window::Open(opened) => opened.change(change),
            _ => Ok(()),
        }
    }

    // The records of a closed window, whose table's progress is advanced to its last key.
    fn close(
        &mut self,
        closed: Closed,
        commit: &Commit,
        now_ms: i64,
    ) -> Result<Vec<Record>, FollowError>
        requires fits { FitsSnapshot self.old.infos closed }
        ensures records { IfOk result (λ records. records.items
            ≡ snapshot self.old.identity self.old.infos closed commit.now now_ms) }
        ensures no_clash { OnOk result
            (snapshot_clash self.old.identity self.old.infos closed ≡ None) }
        ensures moved { OnOk result (self.new ≡ record self.old {
          cursors =
              slice_set self.old.cursors closed.table
              (record { last = closed.through; done = closed.done });
        }) }
        ensures err { IfErr result
            (IsClashOf (snapshot_clash self.old.identity self.old.infos closed)) }
    {
        let records = self.writer.snapshot(self.alloc, &closed, commit, now_ms)?;
        let table = closed.table as usize;
        self.cursors[table] = Cursor {
            last: closed.through,
            done: closed.done,
        };
        Ok(records)
    }

    // Passes a watermark to an open window.
    fn see_high(
        &mut self,
        opened: Open,
        value: &Text,
        commit: &Commit,
        now_ms: i64,
    ) -> Result<Vec<Record>, FollowError>
        requires none { self.old.part ≡ None }
        requires absent { self.old.window ≡ windows.Absent }
        requires opened { IsOpenOf self.old.infos opened }
        requires mark { commit.now.body ≡ bodies.Mark value.now }
        ensures records { IfOk result (λ records. records.items
            ≡ records_by (record self.old { window = windows.Open opened }) commit.now now_ms) }
        ensures steps { OnOk result
            (Steps (record self.old { window = windows.Open opened }) commit.now self.new) }
        ensures no_clash { OnOk result
            (clash_by (record self.old { window = windows.Open opened }) commit.now ≡ None) }
        ensures err { IfErr result
            (IsClashOf (clash_by (record self.old { window = windows.Open opened }) commit.now)) }
        ensures snapshot { value.now ≡ high_text opened.plan → IfOk result (λ records. IsSnapshot
            self.old.identity self.old.infos (closed_of opened) commit.now now_ms records.items) }
    {
        if opened.closes(value) {
            self.close(opened.finish(), commit, now_ms)
        } else {
            set_window(&mut self.window, Window::Open(opened));
            Ok(Vec::new(self.alloc))
        }
    }

    // Handles a watermark.
    fn see_mark(
        &mut self,
        value: &Text,
        commit: &Commit,
        now_ms: i64,
    ) -> Result<Vec<Record>, FollowError>
        requires none { self.old.part ≡ None }
        requires mark { commit.now.body ≡ bodies.Mark value.now }
        ensures records { IfOk result
            (λ records. records.items ≡ records_by self.old commit.now now_ms) }
        ensures steps { OnOk result (Steps self.old commit.now self.new) }
        ensures no_clash { OnOk result (clash_by self.old commit.now ≡ None) }
        ensures err { IfErr result (IsClashOf (clash_by self.old commit.now)) }
        ensures snapshot { (chunk : Chunk) →
            closing self.old.window (Some value.now) ≡ Some chunk →
            IfOk result (λ records. IsSnapshot self.old.identity self.old.infos (closed_of chunk)
            commit.now now_ms records.items) }
    {
        match mem::replace(&mut self.window, Window::Absent) {
            Window::Absent => Ok(Vec::new(self.alloc)),
            Window::Armed(armed) => {
                set_window(&mut self.window, seen_window(armed, value));
                Ok(Vec::new(self.alloc))
            }
            Window::Open(opened) => self.see_high(opened, value, commit, now_ms),
        }
    }

    /// Follows the next change of the transaction with this Begin, and returns the records that are
    /// known not to be its last one: all records of its changes so far, but those returned before
    /// and the last one, which is held. They are made at the `now_ms` of the transaction's first
    /// change, in milliseconds since 1970-01-01 UTC. A change with a value equal to the placeholder
    /// is refused. After an error the follower must not be used any more.
    pub fn change(
        &mut self,
        head: &Head,
        change: &Change,
        now_ms: i64,
    ) -> Result<Vec<Record>, FollowError>
        requires fits { FitsInfos self.old.infos change.now }
        requires head { IfSome self.old.part (λ part. part.head ≡ head.now) }
        ensures follows { IfOk result
            (λ more. FollowsChange self.old head.now change.now now_ms more.items self.new) }
        ensures err { IfErr result (RefusesChange self.old head.now change.now) }
    {
        let released = follow_change(
            &mut self.part,
            self.alloc,
            &self.writer,
            head,
            change,
            now_ms,
        )?;
        self.see_change(change)?;
        Ok(released)
    }

    // Ends a transaction without a watermark.
    fn end_changes(&mut self) -> Result<Vec<Record>, FollowError>
        ensures ends { (ended : Ended) (now_ms : ℤ) → ended.mark ≡ None → IfOk result
            (λ more. EndsTransaction self.old ended now_ms more.items self.new) }
        ensures err { IfErr result (λ e. e ≡ FollowError.Memory) }
    {
        // Reading the window shows the prover its invariant.
        let _window = &self.window;
        let records = end_part(&mut self.part, self.alloc)?;
        Ok(records)
    }

    // Ends a watermark's transaction.
    fn end_mark(
        &mut self,
        value: &Text,
        ended: &Ended,
        now_ms: i64,
    ) -> Result<Vec<Record>, FollowError>
        requires none { self.old.part ≡ None }
        requires mark { ended.now.mark ≡ Some value.now }
        ensures ends { IfOk result (λ records.
            EndsWithCommit self.old (commit_by ended.now []) now_ms records.items self.new) }
        ensures err { IfErr result (IsClashOf (clash_by self.old (commit_by ended.now []))) }
    {
        let commit = commit_of_mark(ended, value.copy(self.alloc)?);
        self.see_mark(value, &commit, now_ms)
    }

    /// Ends the open transaction, and returns its held record, which is its last one; or the
    /// snapshot of the window that its watermark closes, made at `now_ms`. A transaction of which a
    /// change was followed has no watermark. After an error the follower must not be used any more.
    pub fn end(&mut self, ended: &Ended, now_ms: i64) -> Result<Vec<Record>, FollowError>
        requires head { IfSome self.old.part (λ part. part.head ≡ ended.now.head) }
        requires mark { IsSome self.old.part → ended.now.mark ≡ None }
        ensures ends { IfOk result
            (λ more. EndsTransaction self.old ended.now now_ms more.items self.new) }
        ensures err { IfErr result (RefusesEnd self.old ended.now) }
    {
        match &ended.mark {
            Some(value) => self.end_mark(value, ended, now_ms),
            None => self.end_changes(),
        }
    }

    // Follows a transaction of these changes from its Begin to its end.
    fn follow_changes(
        &mut self,
        head: &Head,
        changes: &Vec<Change>,
        end_lsn: Lsn,
        now_ms: i64,
    ) -> Result<Vec<Record>, FollowError>
        requires none { self.old.part ≡ None }
        requires fits { All (FitsInfos self.old.infos) changes.now.items }
        ensures ends { IfOk result (λ records. EndsWithCommit self.old
            (commit_by (ended_at head.now end_lsn) changes.now.items) now_ms records.items
            self.new) }
        ensures err { IfErr result (IsClashOf (clash_by self.old
            (commit_by (ended_at head.now end_lsn) changes.now.items))) }
    {
        let mut records = Vec::new(self.alloc);
        for change in changes {
            let mut more = self.change(head, change, now_ms)?;
            records.append(&mut more)?;
        }
        let ended = Ended {
            head: *head,
            end_lsn,
            mark: None,
        };
        let mut last = self.end(&ended, now_ms)?;
        records.append(&mut last)?;
        Ok(records)
    }

    /// The records of the next commit, made at `now_ms`, in milliseconds since 1970-01-01 UTC; at
    /// the high watermark of an open window the window's snapshot. Watermarks of earlier sessions
    /// open and close nothing. After an error the follower must not be used any more.
    pub fn step(&mut self, commit: &Commit, now_ms: i64) -> Result<Vec<Record>, FollowError>
        requires none { self.old.part ≡ None }
        requires fits { All (FitsInfos self.old.infos) (changes_of commit.now) }
        ensures records { IfOk result
            (λ records. records.items ≡ records_by self.old commit.now now_ms) }
        ensures steps { OnOk result (Steps self.old commit.now self.new) }
        ensures no_clash { OnOk result (clash_by self.old commit.now ≡ None) }
        ensures err { IfErr result (IsClashOf (clash_by self.old commit.now)) }
        ensures snapshot { (chunk : Chunk) →
            closing self.old.window (mark_of commit.now) ≡ Some chunk →
            IfOk result (λ records. IsSnapshot self.old.identity self.old.infos (closed_of chunk)
            commit.now now_ms records.items) }
    {
        let head = commit.head();
        match &commit.body {
            Body::Changes(changes) => {
                self.follow_changes(&head, changes.items(), commit.end_lsn, now_ms)
            }
            Body::Mark(value) => {
                let ended = Ended {
                    head,
                    end_lsn: commit.end_lsn,
                    mark: Some(value.copy(self.alloc)?),
                };
                self.end(&ended, now_ms)
            }
        }
    }
}
