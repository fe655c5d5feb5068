//! How a source plays its script: the begin of a call, its effect and its answer. The contracts of
//! these functions name the resulting state.

ghost use Rattle.std.specs.Prelude.{◌≡◌, ◌↔◌, ◌+◌, ◌≤◌, ◌<◌, ◌++◌, ◌∷◌, [], false, true, length};
ghost use Rattle.std.specs.Prelude.{map, max, IsTrue};
ghost use Rattle.std.specs.Prelude.{Option, option_copied, Err, IsErr, IfOk, IfErr, OnOk, OnErr};
ghost use Rattle.dbl_source_log.specs.declared.logged.Logged.TheVariants.{Changes, Mark};
ghost use Rattle.dbl_source_log.specs.Numbers.{lsn_of, commit_limit};
ghost use Rattle.dbl_source_log.specs.declared.error.SourceError.TheVariants.{Failed, Memory};
ghost use Rattle.dbl_source_scripted.specs.Exits.{Plays, AnswersPlayedEntry, AnswersPlayedHead};
ghost use Rattle.dbl_source_scripted.specs.Exits.{AnswersPlayedStart, HasReadNext, AnswersRead};
ghost use Rattle.dbl_source_scripted.specs.Exits.{AnswersPlayedRows, IsFound};
ghost use Rattle.dbl_source_scripted.specs.Moves.{HasRoom};
ghost use Rattle.dbl_source_scripted.specs.Played.{tables_now, before_of, inside_of, commits_counted};
ghost use Rattle.dbl_source_scripted.specs.Played.{commits_with, commits_before, IsPlannedToFail};
ghost use Rattle.dbl_source_scripted.specs.Played.{IsFullBy, past_move, with_counted_call, committed};
ghost use Rattle.dbl_source_scripted.specs.Played.{with_release, with_fault, FailsAsPlanned};
ghost use Rattle.dbl_source_scripted.specs.Played.{with_answer, with_mark, with_confirmed, started_at};
ghost use Rattle.dbl_source_scripted.specs.Played.{place_of, next_selected, question_of};
ghost use Rattle.dbl_source_scripted.specs.Steps.{KeepsPlayed, HasPlayed, AddedFirst, HasFailed};
ghost use Rattle.dbl_source_scripted.specs.Steps.{IsUnfit, ReadsNextMessage, IsReadBy, FailsToRead};

use crate::asked::{Last, question, selected_at};
use crate::catalogue::{entry_at, place_of};
use crate::moves::{Move, append, append_before, count_altered, has_room, no_move};
use crate::{ScriptedSource, SourceError};
use dbl_base::{Bytes, Lsn, Seq, Text};
use dbl_model_table::{Key, RawTable, TableName};
use dbl_pgmsg::Message;
use dbl_source_log::{
    Logged, ReaderPosition, Step, commits_upto, lsn_of, next_step, remember, tables_through,
};
use dbl_source_model::{Selected, Started};

impl ScriptedSource {
    // ---- begin and end of a call

    // The commits of other clients at the next call. The source can't be used until it answers.
    fn next_move(&mut self) -> Move
        ensures before { result.before ≡ before_of self.old }
        ensures inside { result.inside ≡ inside_of self.old }
        ensures past { self.new ≡ past_move self.old }
        ensures was { KeepsPlayed self.old }
    {
        self.live = false;
        match self.moves.next() {
            Some(next) => next,
            None => no_move(self.alloc),
        }
    }

    // Appends other clients' changes.
    fn commit(&mut self, commits: Vec<Seq<Message>>) -> Result<(), SourceError>
        requires { length self.old.log + length commits.items < commit_limit }
        ensures ok { OnOk result (self.new ≡ committed (map Changes commits.items) self.old) }
        ensures err { OnErr result
            (HasPlayed (map Changes commits.items) self.old.log self.new.log) }
        ensures kept { OnErr result (self.new ≡ record self.old { log = self.new.log }) }
        ensures memory { IfErr result (λ e. e ≡ Memory) }
        ensures none { commits.items ≡ [] → OnErr result ⊥ }
    {
        append(&mut self.log, commits)?;
        Ok(())
    }

    // Counts the call, and whether it is planned to fail.
    fn count_call(&mut self) -> bool
        ensures listed { IsTrue result ↔ IsPlannedToFail self.old }
        ensures ok { result ≡ false → self.new ≡ with_counted_call self.old }
        ensures err { result ≡ true → self.new ≡ with_fault (with_counted_call self.old) }
        ensures later { self.old.plan.faults ≤ self.new.plan.faults }
    {
        self.calls = self.calls.saturating_add(1);
        self.plan.call().is_err()
    }

    // Whether the history has room for what is committed before the counted call, and for some
    // commits of its own.
    fn has_room_for(&self, before: &Vec<Seq<Message>>, own: usize) -> bool
        ensures { IsTrue result ↔ HasRoom (length self.now.log)
            (length (commits_counted before.now.items self.now)) own }
    {
        let altered = count_altered(&self.alters, self.calls);
        has_room(self.log.len(), altered.saturating_add(before.len()), own)
    }

    // Appends the alterations at the counted call, and then these changes.
    fn commit_before(&mut self, before: Vec<Seq<Message>>) -> Result<(), SourceError>
        requires { length self.old.log + length (commits_counted before.items self.old)
            < commit_limit }
        ensures ok { OnOk result
            (self.new ≡ committed (commits_counted before.items self.old) self.old) }
        ensures err { OnErr result
            (HasPlayed (commits_counted before.items self.old) self.old.log self.new.log) }
        ensures kept { OnErr result (self.new ≡ record self.old { log = self.new.log }) }
        ensures memory { IfErr result (λ e. e ≡ Memory) }
        ensures none { commits_counted before.items self.old ≡ [] → OnErr result ⊥ }
    {
        append_before(self.alloc, &mut self.log, &self.alters, self.calls, before)?;
        Ok(())
    }

    // Counts the call and appends the commits before it to the log; or fails, as planned or if the
    // history is full.
    fn begin(&mut self, before: Vec<Seq<Message>>, own: usize) -> Result<(), SourceError>
        ensures ok { OnOk result
            (self.new ≡ committed (commits_with before.items self.old)
            (with_counted_call self.old)) }
        ensures room { OnOk result (HasRoom (length self.old.log)
            (length (commits_with before.items self.old)) own) }
        ensures full { IsFullBy (length (commits_with before.items self.old)) own self.old
            → result ≡ Err Failed }
        ensures listed { IsPlannedToFail self.old → IsErr result }
        ensures failing { IsPlannedToFail self.old → commits_with before.items self.old ≡ []
            → result ≡ Err Failed }
        ensures failed { result ≡ Err Failed
            → HasFailed (commits_with before.items self.old) own self.old self.new }
        ensures memory { result ≡ Err Memory
            → AddedFirst (commits_with before.items self.old) self.old self.new }
        ensures later { self.old.plan.faults ≤ self.new.plan.faults }
    {
        let listed = self.count_call();
        let own = if listed { 0 } else { own };
        if !self.has_room_for(&before, own) {
            if listed {
                return Err(SourceError::Failed);
            }
            return Err(SourceError::from(self.plan.fault()));
        }
        self.commit_before(before)?;
        if listed {
            Err(SourceError::Failed)
        } else {
            Ok(())
        }
    }

    // Begins a call that adds this number of commits of its own to the log.
    fn release(&mut self, own: usize) -> Result<(), SourceError>
        ensures ok { OnOk result (self.new ≡ with_release self.old) }
        ensures room { OnOk result
            (HasRoom (length self.old.log) (length (commits_before self.old)) own) }
        ensures was { KeepsPlayed self.old }
        ensures planned { FailsAsPlanned own ⊥ self.old self.new result }
        ensures memory { result ≡ Err Memory
            → AddedFirst (commits_before self.old) (past_move self.old) self.new }
        ensures later { self.old.plan.faults ≤ self.new.plan.faults }
    {
        let Move { before, inside: _ } = self.next_move();
        self.begin(before.into_items(), own)
    }

    // Begins a select, which takes its answer from the script. Positions are numbers of commits, so
    // that rows may also be of positions after the commits inside of it.
    fn release_around(&mut self) -> Result<(), SourceError>
        ensures ok { OnOk result
            (self.new ≡ committed (map Changes (inside_of self.old)) (with_release self.old)) }
        ensures was { KeepsPlayed self.old }
        ensures planned { FailsAsPlanned (length (inside_of self.old)) ⊥
            self.old self.new result }
        ensures memory { result ≡ Err Memory
            → AddedFirst (commits_before self.old ++ map Changes (inside_of self.old))
            (past_move self.old) self.new }
        ensures listed { IsPlannedToFail self.old → result ≡ Err Memory
            → AddedFirst (commits_before self.old) (past_move self.old) self.new }
        ensures later { self.old.plan.faults ≤ self.new.plan.faults }
    {
        let Move { before, inside } = self.next_move();
        let inside = inside.into_items();
        self.begin(before.into_items(), inside.len())?;
        self.commit(inside)
    }

    // Records the answer.
    fn answer(&mut self, last: Last)
        ensures { self.new ≡ with_answer last self.old }
    {
        self.last = last;
        self.live = true;
    }

    // Records the answer of a read: a message, or the end.
    fn answer_read(&mut self, last: Last, ended: bool)
        ensures { self.new ≡ with_answer last (record self.old { ended = ended }) }
    {
        self.last = last;
        self.ended = ended;
        self.live = true;
    }

    // ---- effects

    // The index of the table of this name, and its entry in force at the log's end.
    fn find(&self, name: &TableName) -> Result<(Option<usize>, Option<RawTable>), SourceError>
        ensures ok { IfOk result (IsFound name.now (tables_now self.now)) }
        ensures err { IfErr result (λ e. e ≡ Memory) }
    {
        let tables = tables_through(self.alloc, &self.log, &self.tables)?;
        let place = place_of(&tables, name);
        Ok((place, entry_at(self.alloc, &tables, place)?))
    }

    fn last_lsn(&self) -> Lsn
        ensures { result ≡ lsn_of (length self.now.log) }
    {
        lsn_of(self.log.len() as u64)
    }

    // The log is gone if and only if it is below the confirmed position. Takes no memory.
    fn begin_reading(&mut self, after: Lsn) -> Started
        ensures told { result ≡ started_at after self.old }
        ensures place { self.new ≡
            record self.old { place = place_of after result; ended = false } }
    {
        self.described.clear();
        self.ended = false;
        if after.0 < self.confirmed.0 {
            self.place = None;
            return Started::Gone {
                first: self.confirmed,
            };
        }
        self.place = Some(ReaderPosition {
            after,
            commits: 0,
            begun: false,
            change: 0,
            table: 0,
        });
        Started::Ready
    }

    // Records that the message was read, and moves the reader after it.
    fn advance(&mut self, next: Step) -> Result<Bytes, SourceError>
        requires { ReadsNextMessage self.old next }
        ensures ok { IfOk result (λ bytes. IsReadBy self.old self.new bytes) }
        ensures err { IfErr result (λ e. (e ≡ Memory) × (self.new ≡ self.old)) }
        ensures later { self.old.plan.faults ≤ self.new.plan.faults }
    {
        let Step {
            bytes,
            place,
            described,
        } = next;
        remember(&mut self.described, described)?;
        self.place = Some(place);
        Ok(bytes)
    }

    // Counts a fault if the message has no encoding.
    fn note_unread(&mut self, error: SourceError) -> SourceError
        ensures same { result ≡ error }
        ensures failed { error ≡ Failed → self.new ≡ with_fault self.old }
        ensures memory { error ≡ Memory → self.new ≡ self.old }
        ensures later { self.old.plan.faults ≤ self.new.plan.faults }
    {
        match error {
            SourceError::Failed => SourceError::from(self.plan.fault()),
            SourceError::Memory => SourceError::Memory,
        }
    }

    // The bytes of the next message, if there is one.
    fn next_bytes(&mut self) -> Result<Option<Bytes>, SourceError>
        ensures read { IfOk result (λ read. HasReadNext self.old self.new read) }
        ensures err { IfErr result (FailsToRead self.old self.new) }
        ensures later { self.old.plan.faults ≤ self.new.plan.faults }
    {
        let Some(place) = self.place else {
            return Ok(None);
        };
        let index = commits_upto(place.after) + place.commits;
        let Some(entry) = self.log.get(index) else {
            return Ok(None);
        };
        let tables = tables_through(self.alloc, &self.log[..index], &self.tables)?;
        let next = next_step(
            self.alloc,
            &tables,
            entry,
            &self.described,
            place,
            index as u64 + 1,
        );
        drop(tables);
        match next {
            Ok(next) => Ok(Some(self.advance(next)?)),
            Err(error) => Err(self.note_unread(error)),
        }
    }

    // The number of commits.
    fn count(&self) -> usize
        ensures { result ≡ length self.now.log }
    {
        self.log.len()
    }

    // The number of the next select, from 0.
    fn number(&self) -> usize
        ensures { result ≡ length self.now.asked }
    {
        self.asked.len()
    }

    // The script's answer to the next select.
    fn copy_selected(&self) -> Result<Selected, SourceError>
        ensures ok { IfOk result (λ answer. answer ≡ next_selected self.now) }
        ensures err { IfErr result (λ e. e ≡ Memory) }
    {
        Ok(selected_at(self.alloc, &self.rows, self.asked.len())?)
    }

    // Records the arguments. The select returns now, so that its last position is the log's end.
    fn ask(
        &mut self,
        table: &TableName,
        above: Option<&Key>,
        limit: u32,
        from: usize,
    ) -> Result<(), SourceError>
        ensures ok { OnOk result (self.new ≡ record self.old {
          asked = self.old.asked ++ question_of table.now (option_copied above.entry)
              limit from (length self.old.log) ∷ [];
        }) }
        ensures err { OnErr result (self.new ≡ self.old) }
        ensures memory { IfErr result (λ e. e ≡ Memory) }
    {
        let asked = question(self.alloc, table, above, limit, from, self.log.len())?;
        self.asked.push(asked)?;
        Ok(())
    }

    // Appends the watermark as a commit of its own.
    fn write_mark(&mut self, value: &Text) -> Result<(), SourceError>
        requires { length self.old.log + 1 < commit_limit }
        ensures ok { OnOk result
            (self.new ≡ record self.old { log = self.old.log ++ Mark value.now ∷ [] }) }
        ensures err { OnErr result (self.new ≡ self.old) }
        ensures memory { IfErr result (λ e. e ≡ Memory) }
    {
        let copied = value.copy(self.alloc)?;
        self.log.push(Logged::Mark(copied))?;
        Ok(())
    }

    // A confirmed position stays confirmed.
    fn raise(&mut self, upto: Lsn)
        ensures { self.new ≡ record self.old {
          confirmed = record { 0 = max self.old.confirmed.0 upto.0 };
        } }
    {
        self.confirmed = Lsn(self.confirmed.0.max(upto.0));
    }

    // ---- the calls of the trait

    pub(crate) fn play_describe(
        &mut self,
        name: &TableName,
    ) -> Result<Option<RawTable>, SourceError>
        ensures { Plays 0 ⊥ (commits_before self.old) (AnswersPlayedEntry name.now self.old)
            self.old self.new result }
    {
        self.release(0)?;
        let (place, entry) = self.find(name)?;
        self.answer(Last::Described(place));
        Ok(entry)
    }

    pub(crate) fn play_head(&mut self) -> Result<Lsn, SourceError>
        ensures { Plays 0 ⊥ (commits_before self.old) (AnswersPlayedHead self.old) self.old
            self.new result }
    {
        self.release(0)?;
        let lsn = self.last_lsn();
        self.answer(Last::Head(lsn));
        Ok(lsn)
    }

    pub(crate) fn play_start(&mut self, after: Lsn) -> Result<Started, SourceError>
        ensures { Plays 0 ⊥ (commits_before self.old) (AnswersPlayedStart after self.old)
            self.old self.new result }
    {
        self.release(0)?;
        let started = self.begin_reading(after);
        self.answer(Last::Began(started));
        Ok(started)
    }

    pub(crate) fn play_read(&mut self) -> Result<Option<Bytes>, SourceError>
        ensures { Plays 0 (IsUnfit (with_release self.old)) (commits_before self.old)
            (AnswersRead self.old)
            self.old self.new result }
    {
        self.release(0)?;
        match self.next_bytes()? {
            Some(bytes) => {
                self.answer_read(Last::Message, false);
                Ok(Some(bytes))
            }
            None => {
                self.answer_read(Last::Nothing, true);
                Ok(None)
            }
        }
    }

    pub(crate) fn play_select(
        &mut self,
        table: &TableName,
        above: Option<&Key>,
        limit: u32,
    ) -> Result<Selected, SourceError>
        ensures plays { Plays (length (inside_of self.old)) ⊥
            (commits_before self.old ++ map Changes (inside_of self.old))
            (AnswersPlayedRows table.now (option_copied above.entry) limit self.old)
            self.old self.new result }
        ensures listed { IsPlannedToFail self.old → result ≡ Err Memory
            → AddedFirst (commits_before self.old) (past_move self.old) self.new }
    {
        let from = self.count();
        self.release_around()?;
        let number = self.number();
        let answer = self.copy_selected()?;
        self.ask(table, above, limit, from)?;
        self.answer(Last::Rows(number));
        Ok(answer)
    }

    pub(crate) fn play_mark(&mut self, value: &Text) -> Result<(), SourceError>
        ensures { Plays 1 ⊥ (commits_before self.old) (λ done new. new ≡ with_mark value.now
            (with_release self.old)) self.old self.new result }
    {
        self.release(1)?;
        self.write_mark(value)?;
        self.answer(Last::Done);
        Ok(())
    }

    pub(crate) fn play_confirm(&mut self, upto: Lsn) -> Result<(), SourceError>
        ensures { Plays 0 ⊥ (commits_before self.old) (λ done new. new ≡ with_confirmed upto
            (with_release self.old)) self.old self.new result }
    {
        self.release(0)?;
        self.raise(upto);
        self.answer(Last::Done);
        Ok(())
    }
}
