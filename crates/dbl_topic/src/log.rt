ghost use Rattle.std.specs.Prelude.{◌≡◌, ◌≢◌, ◌⊎◌, ◌↔◌, ℕ, ◌+◌, ◌<◌, ◌≤◌, ◌++◌, List, [], ◌∷◌};
ghost use Rattle.std.specs.Prelude.{length, max, take, drop, false, Some, IsTrue, IsErr, IfOk};
ghost use Rattle.std.specs.Prelude.{IfErr, OnOk, OnErr, MatchResult, slice_get};
ghost use Rattle.dbl_base.specs.Streams.{FailsOnlyIfCounted};
ghost use Rattle.dbl_disk.specs.Disks.{Follows, IsOnly, Torn};
ghost use Rattle.dbl_journal.specs.Form.{IsFaultAt, IsJournal};
ghost use Rattle.dbl_journal.specs.Stored.{IsSteady, Lists, count_of};
ghost use Rattle.dbl_record.specs.declared.record.Record.{Record};
ghost use Rattle.dbl_record.specs.Cuts.{IsHandful};
ghost use Rattle.dbl_record.specs.Groups.{group_form};
ghost use Rattle.dbl_topic.specs.Held.{ExtendsTopics, HoldsGroups, LeavesGroups, MayLeaveGroups};
ghost use Rattle.dbl_topic.specs.Logs.{AreLogEntries, HasBadEntry, IsLog, IsLogEntry, log_size};
ghost use Rattle.dbl_topic.specs.Sinks.{IsLeftByPut, IsLeftByWhole, told_length, group_limit};
ghost use Rattle.dbl_journal.specs.Calls.{Keeps, Makes, PutLeaves};

use crate::{GROUP_LIMIT, Sink, SinkError, TopicError};
use dbl_disk::{Disk, Refused};
use dbl_journal::{ENTRY_ROOM, Journal, JournalError};
use dbl_record::{
    Record, RecordError, append_group, group_length, read_group, short_groups_have_a_form,
};
use std::alloc::Global;
use std::marker::Model;

/// The maximum number of records in an entry of a topic log.
const MOST_RECORDS: usize = 1000;

/// A log of records on a disk: a journal with one entry per group. A crash while a group is
/// appended leaves all of the group or nothing of it.
#[derive(Drop)]
pub struct TopicLog<D: Disk> {
    alloc: Global,
    journal: Journal<D>,
}

impl<D: Disk> Model for TopicLog<D> {
    ghost use Rattle.dbl_journal.specs.Stored.{OnDisk};

    ghost Value = { OnDisk D };

    ghost view = { λ l. l.journal };
}

// Decodes the group of an entry with this number.
fn group_of(alloc: Global, entry: &[u8], number: u64) -> Result<Vec<Record>, TopicError>
    ensures read { IfOk result (λ group. IsLogEntry entry.now group.items) }
    ensures errors { IfErr result
        (λ error. (error ≡ TopicError.Memory) ⊎ (error ≡ TopicError.BadEntry number)) }
    ensures bad { (index : ℕ) → result ≡ Err (TopicError.BadEntry index) → (group : List Record) →
        ¬ IsLogEntry entry.now group }
{
    match read_group(alloc, entry) {
        Ok(group) => if !group.is_empty() && group.len() <= MOST_RECORDS {
            Ok(group)
        } else {
            Err(TopicError::BadEntry { index: number })
        },
        Err(RecordError::Memory) => Err(TopicError::Memory),
        Err(RecordError::BadRecord { .. }) => Err(TopicError::BadEntry { index: number }),
    }
}

// Builds the entry of a group after room for its length, in a buffer that the journal needn't grow.
fn build_entry(alloc: Global, group: &Vec<Record>, len: u64) -> Result<Vec<u8>, SinkError>
    requires handful { IsHandful group.now.items }
    requires len { len ≡ length (group_form group.now.items) }
    requires short { len ≤ group_limit }
    ensures room { IfOk result (λ bytes. 4 ≤ length bytes.items) }
    ensures entry { IfOk result (λ bytes. IsLogEntry (drop 4 bytes.items) group.now.items) }
    ensures memory { OnErr result (result ≡ Err SinkError.Memory) }
{
    let mut bytes = Vec::with_capacity(alloc, ENTRY_ROOM + len as usize + 1)?;
    bytes.extend_from_slice(&[0; ENTRY_ROOM])?;
    short_groups_have_a_form();
    append_group(&mut bytes, group)?;
    Ok(bytes)
}

// Reads an entry of the journal as a group.
fn read_entry<D: Disk>(
    alloc: Global,
    journal: &mut Journal<D>,
    number: u64,
) -> Result<Vec<Record>, TopicError>
    requires live { IsTrue journal.old.live }
    requires within { number < count_of journal.old }
    ensures read { (entries : List (List ℕ)) → Lists D.Disk journal.old entries →
        IfOk result (λ group. (entry : List ℕ) × (slice_get entries number ≡ Some entry) ×
        IsLogEntry entry group.items) }
    ensures bad { (entries : List (List ℕ)) (index : ℕ) →
        Lists D.Disk journal.old entries → result ≡ Err (TopicError.BadEntry index) →
        (index ≡ number) × (entry : List ℕ) × (slice_get entries number ≡ Some entry) ×
        ((group : List Record) → ¬ IsLogEntry entry group) }
    ensures few { IfOk result (λ group. (1 ≤ length group.items) × (length group.items ≤ 1000)) }
    ensures errors { IfErr result (λ error. (error ≡ TopicError.Memory) ⊎
        ((error ≡ TopicError.BadEntry number) ⊎ (error ≡ TopicError.Journal JournalError.Failed))) }
    ensures lists { (entries : List (List ℕ)) → Lists D.Disk journal.old entries →
        Lists D.Disk journal.new entries }
    ensures same { journal.new ≡ record journal.old { disk = journal.new.disk } }
    ensures seen { D.seen journal.new.disk ≡ D.seen journal.old.disk }
    ensures crash { (crashed : List ℕ) → D.may_leave journal.new.disk crashed ↔
        D.may_leave journal.old.disk crashed }
    ensures cause { FailsOnlyIfCounted (result ≡ Err (TopicError.Journal JournalError.Failed))
        (D.faults journal.old.disk) (D.faults journal.new.disk) }
    ensures steady { result ≢ Err (TopicError.Journal JournalError.Failed) →
        IsSteady D.Disk journal.old.disk journal.new.disk }
{
    let entry = journal.entry(alloc, number)?;
    group_of(alloc, entry.items(), number)
}

// Checks each entry once.
fn check_entries<D: Disk>(alloc: Global, journal: &mut Journal<D>) -> Result<(), TopicError>
    requires { IsTrue journal.old.live }
    ensures good { (entries : List (List ℕ)) → Lists D.Disk journal.old entries →
        OnOk result ((groups : List (List Record)) × AreLogEntries entries groups) }
    ensures bad { (entries : List (List ℕ)) (index : ℕ) →
        Lists D.Disk journal.old entries → result ≡ Err (TopicError.BadEntry index) →
        (before : List (List Record)) × (entry : List ℕ) ×
        AreLogEntries (take index entries) before × (slice_get entries index ≡ Some entry) ×
        ((group : List Record) → ¬ IsLogEntry entry group) }
    ensures journal { (fault : JournalError) → result ≡ Err (TopicError.Journal fault) →
        fault ≡ JournalError.Failed }
    ensures lists { (entries : List (List ℕ)) → Lists D.Disk journal.old entries →
        Lists D.Disk journal.new entries }
    ensures live { journal.new.live ≡ journal.old.live }
    ensures seen { D.seen journal.new.disk ≡ D.seen journal.old.disk }
    ensures crash { (crashed : List ℕ) → D.may_leave journal.new.disk crashed →
        D.may_leave journal.old.disk crashed }
    ensures cause { FailsOnlyIfCounted (result ≡ Err (TopicError.Journal JournalError.Failed))
        (D.faults journal.old.disk) (D.faults journal.new.disk) }
    ensures steady { result ≢ Err (TopicError.Journal JournalError.Failed) →
        IsSteady D.Disk journal.old.disk journal.new.disk }
{
    'entries: for number in 0..journal.count() {
        let _group = read_entry(alloc, journal, number)?;
    }
    Ok(())
}

impl<D: Disk> TopicLog<D> {
    /// Makes an empty topic log on an empty disk by a write and a sync. The allocator is for later
    /// calls; this one takes no memory.
    pub fn make(alloc: Global, disk: D) -> Result<TopicLog<D>, Refused<D, TopicError>>
        requires { (bytes : List ℕ) → D.seen disk ≡ Some bytes → bytes ≡ [] }
        ensures made { D.seen disk ≡ Some [] →
            IfOk result (λ log. HoldsGroups D.Disk log []) }
        ensures live { IfOk result (λ log. IsTrue log.live) }
        ensures count { IfOk result (λ log. count_of log ≡ 0) }
        ensures refused { IfErr result
            (λ refused. refused.error ≡ TopicError.Journal JournalError.Failed) }
        ensures left { IfErr result
            (λ refused. Follows (Torn 0 9) (D.may_leave disk) (D.may_leave refused.disk)) }
        ensures makes { MatchResult result
            (λ log. Makes D.Disk (log_size []) ⊥ disk log.disk)
            (λ refused. Makes D.Disk (log_size [])
            (refused.error ≡ TopicError.Journal JournalError.Failed) disk refused.disk) }
    {
        match Journal::make(alloc, disk) {
            Ok(journal) => Ok(TopicLog { alloc, journal }),
            Err(Refused { disk, error }) => Err(Refused {
                disk,
                error: TopicError::from(error),
            }),
        }
    }

    /// Opens the topic log on the disk, as a crash may have left it: it syncs first, and reads each
    /// entry once. After every answer but `Failed` a crash leaves exactly the disk's contents, if
    /// they are known.
    pub fn open(alloc: Global, disk: D) -> Result<TopicLog<D>, Refused<D, TopicError>>
        ensures opened { (bytes : List ℕ) → D.seen disk ≡ Some bytes →
            IfOk result (λ log. (groups : List (List Record)) × IsLog bytes groups ×
            HoldsGroups D.Disk log groups) }
        ensures bad { (bytes : List ℕ) → D.seen disk ≡ Some bytes →
            IfErr result (λ refused. (index : ℕ) → refused.error ≡ TopicError.BadEntry index →
            HasBadEntry bytes index) }
        ensures refused { (bytes : List ℕ) → D.seen disk ≡ Some bytes →
            IfErr result (λ refused. (at : ℕ) →
            refused.error ≡ TopicError.Journal (JournalError.NotAJournal at) → IsFaultAt bytes at) }
        ensures live { IfOk result (λ log. IsTrue log.live) }
        ensures journal { IfErr result (λ refused. (fault : JournalError) →
            refused.error ≡ TopicError.Journal fault → (fault ≡ JournalError.Failed) ⊎
            ((at : ℕ) × (fault ≡ JournalError.NotAJournal at))) }
        ensures stable { (bytes : List ℕ) → D.seen disk ≡ Some bytes →
            MatchResult result (λ log. IsOnly bytes (D.may_leave log.disk))
            (λ refused. refused.error ≢ TopicError.Journal JournalError.Failed →
            IsOnly bytes (D.may_leave refused.disk)) }
        ensures keeps { MatchResult result
            (λ log. Keeps D.Disk ⊥ disk log.disk)
            (λ refused. Keeps D.Disk
            (refused.error ≡ TopicError.Journal JournalError.Failed) disk refused.disk) }
    {
        match Journal::open(alloc, disk) {
            Ok(journal) => check_log(alloc, journal),
            Err(Refused { disk, error }) => Err(Refused {
                disk,
                error: TopicError::from(error),
            }),
        }
    }

    /// Reads the group with this number, counted from 0, and no other entry. The log stays live.
    pub fn group(&mut self, number: u64) -> Result<Vec<Record>, TopicError>
        requires live { IsTrue self.old.live }
        requires within { number < count_of self.old }
        ensures found { (groups : List (List Record)) →
            HoldsGroups D.Disk self.old groups →
            IfOk result (λ group. slice_get groups number ≡ Some group.items) }
        ensures few { IfOk result
            (λ group. (1 ≤ length group.items) × (length group.items ≤ 1000)) }
        ensures good { (groups : List (List Record)) (index : ℕ) →
            HoldsGroups D.Disk self.old groups → result ≢ Err (TopicError.BadEntry index) }
        ensures errors { IfErr result (λ error. (error ≡ TopicError.Memory) ⊎
            ((error ≡ TopicError.BadEntry number) ⊎
            (error ≡ TopicError.Journal JournalError.Failed))) }
        ensures holds { (groups : List (List Record)) →
            HoldsGroups D.Disk self.old groups → HoldsGroups D.Disk self.new groups }
        ensures same { self.new ≡ record self.old { disk = self.new.disk } }
        ensures seen { D.seen self.new.disk ≡ D.seen self.old.disk }
        ensures crash { (crashed : List ℕ) → D.may_leave self.new.disk crashed ↔
            D.may_leave self.old.disk crashed }
        ensures cause { FailsOnlyIfCounted (result ≡ Err (TopicError.Journal JournalError.Failed))
            (D.faults self.old.disk) (D.faults self.new.disk) }
        ensures steady { result ≢ Err (TopicError.Journal JournalError.Failed) →
            IsSteady D.Disk self.old.disk self.new.disk }
    {
        read_entry(self.alloc, &mut self.journal, number)
    }

    /// The number of groups.
    pub fn groups(&self) -> u64
        requires { IsTrue self.now.live }
        ensures { result ≡ count_of self.now }
    {
        self.journal.count()
    }

    /// Unwraps the disk in its current state, without a disk call.
    pub fn into_disk(self) -> D
        ensures { result ≡ self.disk }
    {
        let TopicLog { alloc: _, journal } = self;
        journal.into_disk()
    }
}

// Makes the topic log of a journal whose entries are groups.
fn check_log<D: Disk>(
    alloc: Global,
    mut journal: Journal<D>,
) -> Result<TopicLog<D>, Refused<D, TopicError>>
    requires { IsTrue journal.live }
    ensures good { (entries : List (List ℕ)) → Lists D.Disk journal entries →
        IfOk result (λ log. (groups : List (List Record)) × AreLogEntries entries groups ×
        HoldsGroups D.Disk log groups) }
    ensures bad { (entries : List (List ℕ)) → Lists D.Disk journal entries →
        IfErr result (λ refused. (index : ℕ) → refused.error ≡ TopicError.BadEntry index →
        (before : List (List Record)) × (entry : List ℕ) ×
        AreLogEntries (take index entries) before × (slice_get entries index ≡ Some entry) ×
        ((group : List Record) → ¬ IsLogEntry entry group)) }
    ensures journal { IfErr result (λ refused. (fault : JournalError) →
        refused.error ≡ TopicError.Journal fault → fault ≡ JournalError.Failed) }
    ensures live { IfOk result (λ log. IsTrue log.live) }
    ensures stable { (bytes : List ℕ) → IsOnly bytes (D.may_leave journal.disk) →
        MatchResult result (λ log. IsOnly bytes (D.may_leave log.disk))
        (λ refused. IsOnly bytes (D.may_leave refused.disk)) }
    ensures keeps { MatchResult result
        (λ log. Keeps D.Disk ⊥ journal.disk log.disk)
        (λ refused. Keeps D.Disk
        (refused.error ≡ TopicError.Journal JournalError.Failed) journal.disk refused.disk) }
{
    match check_entries(alloc, &mut journal) {
        Ok(()) => Ok(TopicLog { alloc, journal }),
        Err(error) => Err(Refused {
            disk: journal.into_disk(),
            error,
        }),
    }
}

impl<D: Disk> Sink for TopicLog<D> {
    ghost use Rattle.dbl_topic.specs.Held.{ExtendsTopics, HoldsGroups};
    ghost use Rattle.dbl_topic.specs.Held.{LeavesGroups, MayLeaveGroups};
    ghost use Rattle.dbl_topic.specs.SinkLaws.{leaves_held, may_leave_held, only_held};

    ghost holds = { λ log groups. HoldsGroups D.Disk log groups };

    ghost may_leave = { λ log groups. MayLeaveGroups D.Disk log.disk groups };

    ghost leaves_groups = { λ log. LeavesGroups D.Disk log.disk (λ groups. Unit {0}) };

    ghost comes_of = { λ old new. ExtendsTopics D.Disk old new };

    ghost is_live = { λ log. log.live };

    ghost faults = { λ log. D.faults log.disk };

    ghost fails_at = { λ log group. Unit {0} };

    ghost only = { λ log groups left held may. only_held _ log groups left held may };

    ghost may = { λ log groups held. may_leave_held _ D.seen_may_be_left log groups held };

    ghost whole = { λ log groups held. leaves_held _ log groups held };

    ghost comes_self = { λ log. record {
      journal = λ gate most has. has;
      groups = λ kept. kept;
      steady = λ faults has. has;
    } };

    ghost comes_on = { λ first second third before after. record {
      journal = λ gate most has. after.journal gate most (before.journal gate most has);
      groups = λ kept. after.groups (before.groups kept);
      steady = λ faults has. after.steady faults (before.steady faults has);
    } };

    fn put(&mut self, group: &Vec<Record>) -> Result<(), SinkError>
        requires live { IsTrue self.old.live }
        requires handful { IsHandful group.now.items }
        ensures added { (groups : List (List Record)) →
            HoldsGroups D.Disk self.old groups →
            OnOk result (HoldsGroups D.Disk self.new (groups ++ group.now.items ∷ [])) }
        ensures kept { (groups : List (List Record)) →
            HoldsGroups D.Disk self.old groups → OnErr result
            (result ≢ Err SinkError.Failed → HoldsGroups D.Disk self.new groups) }
        ensures left { (groups left : List (List Record)) →
            HoldsGroups D.Disk self.old groups → MayLeaveGroups D.Disk self.new.disk left →
            IsLeftByPut groups group.now.items left }
        ensures whole { (groups : List (List Record)) →
            HoldsGroups D.Disk self.old groups →
            LeavesGroups D.Disk self.new.disk (λ left. Unit {0}) }
        ensures some { (groups : List (List Record)) →
            HoldsGroups D.Disk self.old groups → (left : List (List Record)) ×
            MayLeaveGroups D.Disk self.new.disk left }
        ensures comes { ExtendsTopics D.Disk self.old self.new }
        ensures live { result ≢ Err SinkError.Failed → IsTrue self.new.live }
        ensures dead { result ≡ Err SinkError.Failed → self.new.live ≡ false }
        ensures too_long { (len : ℕ) → result ≡ Err (SinkError.TooLong len) →
            (group_limit < length (group_form group.now.items)) ×
            (len ≡ told_length group.now.items) }
        ensures long { group_limit < length (group_form group.now.items) → IsErr result }
        ensures cause { FailsOnlyIfCounted (result ≡ Err SinkError.Failed)
            (D.faults self.old.disk) (D.faults self.new.disk) }
        ensures failed { result ≡ Err SinkError.Failed → Unit {0} }

        ensures one_of { (groups : List (List Record)) →
            HoldsGroups D.Disk self.old groups →
            LeavesGroups D.Disk self.new.disk (IsLeftByWhole groups group.now.items) }
        ensures grows { (groups : List (List Record)) (old new : List ℕ) →
            HoldsGroups D.Disk self.old groups → D.seen self.old.disk ≡ Some old →
            D.seen self.new.disk ≡ Some new →
            length new ≤ max (length old) (log_size (groups ++ group.now.items ∷ [])) }
        ensures puts { PutLeaves D.Disk (result ≡ Err SinkError.Failed) self.old self.new }
        ensures exactly { (len : ℕ) → (result ≡ Err (SinkError.TooLong len)) ↔
            ((group_limit < length (group_form group.now.items)) ×
            (len ≡ told_length group.now.items)) }
        ensures count { OnOk result (count_of self.new ≡ count_of self.old + 1) }
        ensures unchanged { OnErr result (result ≢ Err SinkError.Failed → self.new ≡ self.old) }
    {
        let len = group_length(group);
        if len > GROUP_LIMIT {
            return Err(SinkError::TooLong { len });
        }
        let bytes = build_entry(self.alloc, group, len)?;
        self.journal.append_built(bytes)?;
        Ok(())
    }
}
