ghost use Rattle.std.specs.Prelude.{◌≡◌, ◌<◌, ◌≤◌, ◌++◌, ◌↔◌, ℕ, List, [], Some, Ok, length};
ghost use Rattle.std.specs.Prelude.{drop, take, min, IsErr, OnOk, OnErr, IfOk, Contains};
ghost use Rattle.dbl_base.specs.Streams.{FailsOnlyIfCounted, MovesToStart, incremented};
ghost use Rattle.dbl_base.specs.Memory.{new_plan};

use crate::{Failed, FaultPlan, Input, Output};
use std::alloc::Global;
use std::marker::Model;

/// An in-memory input.
#[derive(Drop)]
pub struct MemInput {
    bytes: Vec<u8>,
    place: usize,
    plan: FaultPlan,
}

impl Model for MemInput {
    ghost use Rattle.std.specs.Prelude.{drop, length, ◌≤◌};
    ghost use Rattle.dbl_base.specs.Memory.{Unread};

    ghost Value = { Unread };

    ghost view = { λ i. record { left = drop i.place i.bytes.items; plan = i.plan } };

    ghost invariant = { λ i. i.place ≤ length i.bytes.items };
}

impl MemInput {
    /// Makes an input with these bytes to read, whose listed calls, numbered from 1, are to fail.
    pub fn make(bytes: Vec<u8>, fails: Vec<u64>) -> MemInput
        ensures { result ≡ record { left = bytes.items; plan = new_plan fails.items } }
    {
        MemInput {
            bytes,
            place: 0,
            plan: FaultPlan::make(fails),
        }
    }
}

impl Input for MemInput {
    ghost use Rattle.std.specs.Prelude.{Some};

    ghost left = { λ i. Some i.left };

    ghost faults = { λ i. i.plan.faults };

    fn read(&mut self, buffer: &mut [u8]) -> Result<usize, Failed>
        ensures bound { IfOk result (λ n. n ≤ length buffer.old) }
        ensures moves { (bytes : List ℕ) → Some self.old.left ≡ Some bytes →
            IfOk result (λ n. MovesToStart n bytes buffer.new (Some self.new.left)) }
        ensures end { (bytes : List ℕ) → Some self.old.left ≡ Some bytes → 0 < length buffer.old →
            result ≡ Ok 0 → bytes ≡ [] }
        ensures kept { (bytes : List ℕ) → Some self.old.left ≡ Some bytes →
            OnErr result (Some self.new.left ≡ Some bytes) }
        ensures cause { FailsOnlyIfCounted (IsErr result)
            self.old.plan.faults self.new.plan.faults }
        ensures steady { (bytes : List ℕ) → Some self.old.left ≡ Some bytes →
            OnOk result (self.new.plan.faults ≡ self.old.plan.faults) }
        ensures once { (bytes : List ℕ) → Some self.old.left ≡ Some bytes →
            OnErr result (self.new.plan.faults ≡ incremented self.old.plan.faults) }

        ensures planned { IsErr result ↔
            Contains self.old.plan.planned (incremented self.old.plan.calls) }
        ensures calls { self.new.plan.calls ≡ incremented self.old.plan.calls }
        ensures plan { self.new.plan.planned ≡ self.old.plan.planned }
        ensures counted { OnErr result (self.new.plan.faults ≡ incremented self.old.plan.faults) }
        ensures uncounted { OnOk result (self.new.plan.faults ≡ self.old.plan.faults) }
        ensures untouched { OnErr result (buffer.new ≡ buffer.old) }
    {
        self.plan.call()?;
        let rest = &self.bytes[self.place..];
        let count = rest.len().min(buffer.len());
        buffer[..count].copy_from_slice(&rest[..count]);
        self.place += count;
        Ok(count)
    }
}

/// An in-memory output. Running out of memory counts as a fault.
#[derive(Drop)]
pub struct MemOutput {
    bytes: Vec<u8>,
    plan: FaultPlan,
}

impl Model for MemOutput {
    ghost use Rattle.dbl_base.specs.Memory.{Kept};

    ghost Value = { Kept };

    ghost view = { λ o. record { written = o.bytes.items; plan = o.plan } };
}

impl MemOutput {
    /// Makes an empty output, whose listed calls, numbered from 1, are to fail. Takes no memory;
    /// later calls use the allocator.
    pub fn make(alloc: Global, fails: Vec<u64>) -> MemOutput
        ensures { result ≡ record { written = []; plan = new_plan fails.items } }
    {
        MemOutput {
            bytes: Vec::new(alloc),
            plan: FaultPlan::make(fails),
        }
    }

    /// The bytes written.
    pub fn bytes(&self) -> &Vec<u8>
        ensures { result.now.items ≡ self.now.written }
    {
        &self.bytes
    }
}

impl Output for MemOutput {
    ghost use Rattle.std.specs.Prelude.{Some};

    ghost written = { λ o. Some o.written };

    ghost faults = { λ o. o.plan.faults };

    fn write(&mut self, piece: &[u8]) -> Result<(), Failed>
        ensures ok { (bytes : List ℕ) → Some self.old.written ≡ Some bytes →
            OnOk result (Some self.new.written ≡ Some (bytes ++ piece.now)) }
        ensures prefix { (bytes : List ℕ) → Some self.old.written ≡ Some bytes →
            OnErr result ((n : ℕ) × (Some self.new.written ≡ Some (bytes ++ take n piece.now))) }
        ensures cause { FailsOnlyIfCounted (IsErr result)
            self.old.plan.faults self.new.plan.faults }

        ensures planned { Contains self.old.plan.planned (incremented self.old.plan.calls) →
            IsErr result }
        ensures calls { self.new.plan.calls ≡ incremented self.old.plan.calls }
        ensures plan { self.new.plan.planned ≡ self.old.plan.planned }
        ensures unchanged { OnErr result (self.new.written ≡ self.old.written) }
        ensures counted { OnErr result (self.new.plan.faults ≡ incremented self.old.plan.faults) }
        ensures uncounted { OnOk result (self.new.plan.faults ≡ self.old.plan.faults) }
    {
        self.plan.call()?;
        if self.bytes.extend_from_slice(piece).is_err() {
            return Err(self.plan.fault());
        }
        Ok(())
    }
}
