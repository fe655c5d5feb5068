ghost use Rattle.std.specs.Prelude.{◌≡◌, ◌≢◌, ◌≤◌, ◌<◌, ◌-◌, ◌^◌, ◌++◌, ◌∷◌, [], ℕ};
ghost use Rattle.std.specs.Prelude.{List, length, take, not, true, false, Some};
ghost use Rattle.std.specs.Prelude.{None, IsTrue, IsErr, IfOk, OnOk, OnErr};
ghost use Rattle.std.specs.List.{position_from};
ghost use Rattle.std.proofs.Props.{props};
ghost use Rattle.dbl_base.specs.Streams.{FailsOnlyIfCounted};
ghost use Rattle.dbl_record.specs.declared.record.Record.{Record};
ghost use Rattle.dbl_record.specs.Cuts.{IsHandful};
ghost use Rattle.dbl_record.specs.Groups.{group_form};
ghost use Rattle.dbl_topic.specs.Sinks.{IsLeftByPut, told_length, group_limit};
ghost use Rattle.dbl_hooks_gate.specs.Rules.{is_allowed, is_at_most, AreAllowed};
ghost use Rattle.dbl_hooks_gate.specs.Gates.{Appends, ExtendsGated, FailsGated, HoldsUnrefused};
ghost use Rattle.dbl_hooks_gate.specs.Gates.{Refuses, faults_with, is_open};

use crate::rule::Rule;
use dbl_base::copy_items;
use dbl_record::Record;
use dbl_topic::{Sink, SinkError};
use std::alloc::{AllocError, Global};

/// A function of the caller that accepts or refuses a record.
pub type Handler = Box<dyn Fn(&Record) -> bool>;

/// A sink that appends to another one exactly the records that its handler accepts. The first one
/// that is refused ends its use: it and the records after it aren't appended.
#[derive(Drop)]
pub struct Gate<K> {
    alloc: Global,
    pub sink: K,
    pub rule: Rule,
    handler: Handler,
    /// The position and the ordinal of the record that was refused.
    pub refused: Option<(u64, u64)>,
    ghost callable: { Handler.IsAlwaysCallable handler },
    ghost judges: { (item : _) (accepted : _) → Handler.post handler item accepted →
        accepted ≡ is_allowed rule item.now } by { Prim.hlevel props },
}

impl<K> Gate<K> {
    /// Makes a gate before a sink, with a handler that accepts exactly the records that the rule
    /// allows. Takes no memory; `put` uses the allocator.
    pub fn make(alloc: Global, sink: K, rule: Rule, handler: Handler) -> Gate<K>
        requires callable { Handler.IsAlwaysCallable handler }
        requires judges { (item : _) (accepted : _) → Handler.post handler item accepted →
            accepted ≡ is_allowed rule item.now }
        ensures sink { result.sink ≡ sink }
        ensures rule { result.rule ≡ rule }
        ensures refused { result.refused ≡ None }
    {
        Gate {
            alloc,
            sink,
            rule,
            handler,
            refused: None,
        }
    }

    /// The position and the ordinal of the record that was refused, if one was. Takes no memory.
    pub fn refused(&self) -> Option<(u64, u64)>
        ensures { result ≡ self.now.refused }
    {
        self.refused
    }

    /// The inner sink in its current state. Takes no memory.
    pub fn into_inner(self) -> K
        ensures { result ≡ self.sink }
    {
        self.sink
    }

    fn accepts(&self, item: &Record) -> bool
        ensures { result ≡ is_allowed self.now.rule item.now }
    {
        (self.handler)(item)
    }

    // The index of the first record that is refused.
    fn find_refused(&self, group: &Vec<Record>) -> Option<usize>
        ensures { result ≡
            position_from (λ item. not (is_allowed self.now.rule item)) 0 group.now.items }
    {
        group.iter().position(
            |item| -> bool
                ensures { result ≡ not (is_allowed self.entry.now.rule item.now) }
            { !self.accepts(item) },
        )
    }
}

// The position and the ordinal of a record. The length of its value has 64 bits.
fn place_of(item: &Record) -> (u64, u64)
    ensures place { result ≡ (item.now.position, item.now.ordinal) }
    ensures storable { is_at_most (2 ^ 64 - 1) item.now.value ≡ true }
{
    let _length = match &item.value {
        Some(value) => value.as_str().len(),
        None => 0,
    };
    (item.position, item.ordinal)
}

// Copies the records of a group before this index.
fn copy_before(alloc: Global, group: &Vec<Record>, index: usize) -> Result<Vec<Record>, AllocError>
    requires { index < length group.now.items }
    ensures { IfOk result (λ before. before.items ≡ take index group.now.items) }
{
    copy_items(alloc, &group[..index])
}

// Appends the records of a group before this index, if there are any.
fn put_before<K: Sink>(
    alloc: Global,
    sink: &mut K,
    group: &Vec<Record>,
    index: usize,
) -> Result<(), SinkError>
    requires live { IsTrue (K.is_live sink.old) }
    requires handful { IsHandful group.now.items }
    requires within { index < length group.now.items }
    ensures appends { Appends K.Sink sink.old sink.new (take index group.now.items) result }
    ensures short { (len : ℕ) → result ≢ Err (SinkError.TooLong len) }
{
    if index == 0 {
        return Ok(());
    }
    let before = copy_before(alloc, group, index)?;
    sink.put(&before)
}

impl<K: Sink> Sink for Gate<K> {
    ghost use Rattle.dbl_hooks_gate.specs.Gates.{ExtendsGated, FailsGated, HoldsUnrefused};
    ghost use Rattle.dbl_hooks_gate.specs.Gates.{faults_with, is_open};
    ghost use Rattle.dbl_hooks_gate.specs.GateLaws.{gate_self, gate_on};

    ghost holds = { λ g groups. HoldsUnrefused K.Sink g.sink g.refused groups };

    ghost may_leave = { λ g left. K.may_leave g.sink left };

    ghost leaves_groups = { λ g. K.leaves_groups g.sink };

    ghost comes_of = { λ old new. ExtendsGated K.Sink old.sink old.refused old.rule
        new.sink new.refused new.rule };

    ghost is_live = { λ g. is_open K.Sink g.sink g.refused };

    ghost faults = { λ g. faults_with K.Sink g.sink g.refused };

    ghost fails_at = { λ g group. FailsGated K.Sink g.sink g.refused g.rule group };

    ghost only = { λ g groups left held may. K.only g.sink groups left held.0 may };

    ghost may = { λ g groups held. K.may g.sink groups held.0 };

    ghost whole = { λ g groups held. K.whole g.sink groups held.0 };

    ghost comes_self = { λ g. gate_self _ K.only K.comes_self g.sink g.refused g.rule };

    ghost comes_on = { λ a b c ab bc. gate_on _ K.only K.comes_on a.sink a.refused a.rule
        b.sink b.refused b.rule c.sink c.refused c.rule ab bc };

    fn put(&mut self, group: &Vec<Record>) -> Result<(), SinkError>
        requires live { IsTrue (is_open K.Sink self.old.sink self.old.refused) }
        requires handful { IsHandful group.now.items }
        ensures added { (groups : List (List Record)) →
            HoldsUnrefused K.Sink self.old.sink self.old.refused groups → OnOk result
            (HoldsUnrefused K.Sink self.new.sink self.new.refused
            (groups ++ group.now.items ∷ [])) }
        ensures kept { (groups : List (List Record)) →
            HoldsUnrefused K.Sink self.old.sink self.old.refused groups → OnErr result
            (result ≢ Err SinkError.Failed →
            HoldsUnrefused K.Sink self.new.sink self.new.refused groups) }
        ensures left { (groups left : List (List Record)) →
            HoldsUnrefused K.Sink self.old.sink self.old.refused groups →
            K.may_leave self.new.sink left → IsLeftByPut groups group.now.items left }
        ensures whole { (groups : List (List Record)) →
            HoldsUnrefused K.Sink self.old.sink self.old.refused groups →
            K.leaves_groups self.new.sink }
        ensures some { (groups : List (List Record)) →
            HoldsUnrefused K.Sink self.old.sink self.old.refused groups →
            (left : List (List Record)) × K.may_leave self.new.sink left }
        ensures comes { ExtendsGated K.Sink self.old.sink self.old.refused self.old.rule
            self.new.sink self.new.refused self.new.rule }
        ensures live { result ≢ Err SinkError.Failed →
            IsTrue (is_open K.Sink self.new.sink self.new.refused) }
        ensures dead { result ≡ Err SinkError.Failed →
            is_open K.Sink self.new.sink self.new.refused ≡ false }
        ensures too_long { (len : ℕ) → result ≡ Err (SinkError.TooLong len) →
            (group_limit < length (group_form group.now.items)) ×
            (len ≡ told_length group.now.items) }
        ensures long { group_limit < length (group_form group.now.items) → IsErr result }
        ensures cause { FailsOnlyIfCounted (result ≡ Err SinkError.Failed)
            (faults_with K.Sink self.old.sink self.old.refused)
            (faults_with K.Sink self.new.sink self.new.refused) }
        ensures failed { result ≡ Err SinkError.Failed → FailsGated K.Sink self.new.sink
            self.new.refused self.new.rule group.now.items }

        ensures allowed { OnOk result (AreAllowed self.old.rule group.now.items) }
        ensures refused { (place : ℕ × ℕ) → self.new.refused ≡ Some place →
            (result ≡ Err SinkError.Failed) ×
            Refuses K.Sink self.old.rule self.old.sink self.new.sink group.now.items place }
        ensures bound { (most : ℕ) (place : ℕ × ℕ) → self.old.rule ≡ Rule.MaxValue most →
            self.new.refused ≡ Some place → most < 2 ^ 64 - 1 }
        ensures broken { result ≡ Err SinkError.Failed → self.new.refused ≡ None →
            K.is_live self.new.sink ≡ false }
    {
        match self.find_refused(group) {
            None => self.sink.put(group),
            Some(index) => {
                put_before(self.alloc, &mut self.sink, group, index)?;
                self.refused = Some(place_of(&group[index]));
                Err(SinkError::Failed)
            }
        }
    }
}
