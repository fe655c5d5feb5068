ghost use Rattle.std.specs.Prelude.{◌≡◌, ◌≢◌, ◌↔◌, ℕ, ◌+◌, ◌<◌, ◌++◌, List, [], ◌∷◌, length};
ghost use Rattle.std.specs.Prelude.{Bool, true, false, IsTrue, IsErr, OnOk, OnErr, Contains};
ghost use Rattle.dbl_base.specs.Streams.{FailsOnlyIfCounted, incremented};
ghost use Rattle.dbl_base.specs.Memory.{new_plan};
ghost use Rattle.dbl_record.specs.declared.record.Record.{Record};
ghost use Rattle.dbl_record.specs.Cuts.{IsHandful, joined};
ghost use Rattle.dbl_record.specs.Groups.{group_form};
ghost use Rattle.dbl_topic.specs.Sinks.{IsLeftByPut, told_length, group_limit};

use crate::{GROUP_LIMIT, Sink, SinkError};
use dbl_base::{FaultPlan, copy_items};
use dbl_record::{Record, group_length};
use std::alloc::{AllocError, Global};
use std::marker::Model;

/// An in-memory sink.
#[derive(Drop)]
pub struct MemSink {
    alloc: Global,
    records: Vec<Record>,
    sizes: Vec<usize>,
    plan: FaultPlan,
    live: bool,
}

impl Model for MemSink {
    ghost use Rattle.std.specs.Prelude.{◌≡◌, length, sum};
    ghost use Rattle.dbl_topic.specs.Memory.{Gathered, grouped};

    ghost Value = { Gathered };

    ghost view = { λ s. record {
      groups = grouped s.sizes.items s.records.items;
      plan = s.plan;
      live = s.live;
    } };

    ghost invariant = { λ s. sum s.sizes.items ≡ length s.records.items };
}

impl MemSink {
    /// Makes an empty sink, whose listed appends, numbered from 1, are to fail. Takes no memory;
    /// later calls use the allocator.
    pub fn make(alloc: Global, fails: Vec<u64>) -> MemSink
        ensures { result ≡ record { groups = []; plan = new_plan fails.items; live = true } }
    {
        MemSink {
            alloc,
            records: Vec::new(alloc),
            sizes: Vec::new(alloc),
            plan: FaultPlan::make(fails),
            live: true,
        }
    }

    /// The records of all groups.
    pub fn records(&self) -> &Vec<Record>
        ensures { result.now.items ≡ joined self.now.groups }
    {
        &self.records
    }
}

// Appends the records and their number.
fn gather(
    records: &mut Vec<Record>,
    sizes: &mut Vec<usize>,
    mut group: Vec<Record>,
) -> Result<(), AllocError>
    ensures records { OnOk result (records.new.items ≡ records.old.items ++ group.items) }
    ensures sizes { OnOk result (sizes.new.items ≡ sizes.old.items ++ length group.items ∷ []) }
    ensures records_stay { OnErr result (records.new.items ≡ records.old.items) }
    ensures sizes_stay { OnErr result (sizes.new.items ≡ sizes.old.items) }
{
    sizes.push(group.len())?;
    if records.append(&mut group).is_err() {
        sizes.pop();
        return Err(AllocError);
    }
    Ok(())
}

impl Sink for MemSink {
    ghost use Rattle.std.specs.Prelude.{IsTrue, ◌≡◌};
    ghost use Rattle.dbl_topic.specs.SinkLaws.{one_gathered};

    ghost holds = { λ s groups. IsTrue s.live × (s.groups ≡ groups) };

    ghost may_leave = { λ s groups. s.groups ≡ groups };

    ghost leaves_groups = { λ s. Unit {0} };

    ghost comes_of = { λ old new. Unit {0} };

    ghost is_live = { λ s. s.live };

    ghost faults = { λ s. s.plan.faults };

    ghost fails_at = { λ s group. Unit {0} };

    ghost only = { one_gathered };

    ghost may = { λ sink groups held. held.1 };

    ghost whole = { λ sink groups held. tt };

    ghost comes_self = { λ sink. tt };

    ghost comes_on = { λ first second third before after. tt };

    fn put(&mut self, group: &Vec<Record>) -> Result<(), SinkError>
        requires live { IsTrue self.old.live }
        requires handful { IsHandful group.now.items }
        ensures added { (groups : List (List Record)) → IsTrue self.old.live ×
            (self.old.groups ≡ groups) → OnOk result
            (IsTrue self.new.live × (self.new.groups ≡ groups ++ group.now.items ∷ [])) }
        ensures kept { (groups : List (List Record)) → IsTrue self.old.live ×
            (self.old.groups ≡ groups) → OnErr result
            (result ≢ Err SinkError.Failed → IsTrue self.new.live × (self.new.groups ≡ groups)) }
        ensures left { (groups left : List (List Record)) → IsTrue self.old.live ×
            (self.old.groups ≡ groups) → self.new.groups ≡ left →
            IsLeftByPut groups group.now.items left }
        ensures whole { (groups : List (List Record)) → IsTrue self.old.live ×
            (self.old.groups ≡ groups) → Unit {0} }
        ensures some { (groups : List (List Record)) → IsTrue self.old.live ×
            (self.old.groups ≡ groups) → (left : List (List Record)) × (self.new.groups ≡ left) }
        ensures comes { Unit {0} }
        ensures live { result ≢ Err SinkError.Failed → IsTrue self.new.live }
        ensures dead { result ≡ Err SinkError.Failed → self.new.live ≡ false }
        ensures too_long { (len : ℕ) → result ≡ Err (SinkError.TooLong len) →
            (group_limit < length (group_form group.now.items)) ×
            (len ≡ told_length group.now.items) }
        ensures long { group_limit < length (group_form group.now.items) → IsErr result }
        ensures cause { FailsOnlyIfCounted (result ≡ Err SinkError.Failed)
            self.old.plan.faults self.new.plan.faults }
        ensures failed { result ≡ Err SinkError.Failed → Unit {0} }

        ensures planned { (result ≡ Err SinkError.Failed) ↔
            Contains self.old.plan.planned (incremented self.old.plan.calls) }
        ensures exactly { (len : ℕ) → (result ≡ Err (SinkError.TooLong len)) ↔
            (¬ Contains self.old.plan.planned (incremented self.old.plan.calls) ×
            (group_limit < length (group_form group.now.items)) ×
            (len ≡ told_length group.now.items)) }
        ensures calls { self.new.plan.calls ≡ incremented self.old.plan.calls }
        ensures counted { result ≡ Err SinkError.Failed →
            self.new.plan.faults ≡ incremented self.old.plan.faults }
        ensures uncounted { result ≢ Err SinkError.Failed →
            self.new.plan.faults ≡ self.old.plan.faults }
        ensures plan { self.new.plan.planned ≡ self.old.plan.planned }
        ensures unchanged { OnErr result (self.new.groups ≡ self.old.groups) }
    {
        if self.plan.call().is_err() {
            self.live = false;
            return Err(SinkError::Failed);
        }
        let len = group_length(group);
        if len > GROUP_LIMIT {
            return Err(SinkError::TooLong { len });
        }
        let group = copy_items(self.alloc, group)?;
        gather(&mut self.records, &mut self.sizes, group)?;
        Ok(())
    }
}
