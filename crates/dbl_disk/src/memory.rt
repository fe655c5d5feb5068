ghost use Rattle.std.specs.Prelude.{◌≡◌, ◌↔◌, ◌⊎◌, ℕ, ◌+◌, ◌-◌, ◌<◌, ◌≤◌, ◌++◌, List, [], ◌∷◌};
ghost use Rattle.std.specs.Prelude.{length, take, drop, replicate, min, slice_index, Some};
ghost use Rattle.std.specs.Prelude.{None, Ok, Err, IsErr, IfOk, OnOk, OnErr, Contains};
ghost use Rattle.std.specs.List.{All};
ghost use Rattle.dbl_base.specs.Streams.{FailsOnlyIfCounted, incremented};
ghost use Rattle.dbl_base.specs.Memory.{new_plan};
ghost use Rattle.dbl_disk.specs.Disks.{Follows, IsAside, IsCalled, IsOnly, MayLeave};
ghost use Rattle.dbl_disk.specs.Disks.{Torn, written, half_limit, disk_limit};
ghost use Rattle.dbl_disk.specs.Memory.{AreFilled, DiffersInside, MayRemain};
ghost use Rattle.dbl_disk.specs.Memory.{IsFilled, IsKept, synced};

use crate::{DISK_LIMIT, Disk, Extent};
use dbl_base::{Failed, FaultPlan};
use std::alloc::{AllocError, Global};
use std::marker::Model;

/// What a crash leaves of an in-memory disk.
#[derive(Clone, Copy)]
pub enum Choice {
    /// The contents at the last sync.
    Old,
    /// The contents that a read returns.
    New,
    /// The contents that a read returns, with this byte at every offset where a crash may leave any
    /// byte.
    Fill(u8),
}

/// An in-memory disk. Running out of memory counts as a fault.
#[derive(Drop)]
pub struct MemDisk {
    alloc: Global,
    stable: Vec<u8>,
    current: Vec<u8>,
    dirty: Vec<Extent>,
    plan: FaultPlan,
}

impl Model for MemDisk {
    ghost use Rattle.std.specs.Prelude.{length, ◌<◌};
    ghost use Rattle.dbl_disk.specs.Memory.{Platter, IsKept};

    ghost Value = { Platter };

    ghost view = { λ d. record {
      stable = d.stable.items;
      current = d.current.items;
      dirty = d.dirty.items;
      plan = d.plan;
    } };

    ghost invariant = { λ d. IsKept d.stable.items d.current.items d.dirty.items };
}

// Appends zeros up to the end, if the contents are shorter.
fn extend_to(current: &mut Vec<u8>, end: usize) -> Result<(), AllocError>
    ensures ok { OnOk result
        (current.new.items ≡ current.old.items ++ replicate (end - length current.old.items) 0) }
    ensures err { OnErr result (current.new.items ≡ current.old.items) }
{
    if current.len() < end {
        current.resize(end, 0)?;
    }
    Ok(())
}

fn overwrite(current: &mut Vec<u8>, at: usize, bytes: &[u8])
    requires { at + length bytes.now ≤ length current.old.items }
    ensures { current.new.items ≡ take at current.old.items ++ bytes.now ++ drop
        (at + length bytes.now) current.old.items }
{
    current[at..at + bytes.len()].copy_from_slice(bytes);
}

// Writes the bytes at the offset, and records the extent.
fn put(
    current: &mut Vec<u8>,
    dirty: &mut Vec<Extent>,
    at: usize,
    bytes: &[u8],
) -> Result<(), AllocError>
    requires { at + length bytes.now < disk_limit }
    ensures written { OnOk result (current.new.items ≡ written current.old.items at bytes.now) }
    ensures dirty { OnOk result
        (dirty.new.items ≡ dirty.old.items ++ record { at = at; length = length bytes.now } ∷ []) }
    ensures current_stays { OnErr result (current.new.items ≡ current.old.items) }
    ensures dirty_stays { OnErr result (dirty.new.items ≡ dirty.old.items) }
{
    let before = current.len();
    extend_to(current, at + bytes.len())?;
    let extent = Extent {
        at: at as u64,
        length: bytes.len() as u64,
    };
    if dirty.push(extent).is_err() {
        current.truncate(before);
        return Err(AllocError);
    }
    overwrite(current, at, bytes);
    Ok(())
}

fn fill(crashed: &mut [u8], extent: Extent, byte: u8)
    requires { extent.at + extent.length ≤ length crashed.old }
    ensures inside { (place : ℕ) → extent.at ≤ place → place < extent.at + extent.length →
        slice_index crashed.new place ≡ byte }
    ensures aside { (place : ℕ) → IsAside extent place →
        slice_index crashed.new place ≡ slice_index crashed.old place }
{
    let at = extent.at as usize;
    crashed[at..at + extent.length as usize].fill(byte);
}

fn copy(stable: &mut [u8], current: &[u8], extent: Extent)
    requires same { length stable.old ≡ length current.now }
    requires within { extent.at + extent.length ≤ length current.now }
    ensures inside { (place : ℕ) → extent.at ≤ place → place < extent.at + extent.length →
        slice_index stable.new place ≡ slice_index current.now place }
    ensures aside { (place : ℕ) → IsAside extent place →
        slice_index stable.new place ≡ slice_index stable.old place }
{
    let at = extent.at as usize;
    let end = at + extent.length as usize;
    stable[at..end].copy_from_slice(&current[at..end]);
}

// Makes the stable contents equal the current ones, given that they differ only in the dirty
// extents.
fn copy_extents(stable: &mut [u8], current: &[u8], dirty: &[Extent])
    requires differ { DiffersInside dirty.now stable.old current.now }
    requires within { All (λ extent. extent.at + extent.length ≤ length current.now) dirty.now }
    ensures { stable.new ≡ current.now }
{
    'extents: for extent in dirty {
        copy(stable, current, *extent);
    }
}

// Makes the stable contents equal the current ones, given that they differ only in the dirty
// extents and past the stable end.
fn settle(stable: &mut Vec<u8>, current: &[u8], dirty: &[Extent]) -> Result<(), AllocError>
    requires { IsKept stable.old.items current.now dirty.now }
    ensures ok { OnOk result (stable.new.items ≡ current.now) }
    ensures err { OnErr result (stable.new.items ≡ stable.old.items) }
{
    let old = stable.len();
    stable.extend_from_slice(&current[old..])?;
    copy_extents(stable, current, dirty);
    Ok(())
}

fn fill_extents(crashed: &mut [u8], dirty: &[Extent], byte: u8)
    requires { All (λ extent. extent.at + extent.length ≤ length crashed.old) dirty.now }
    ensures { AreFilled byte dirty.now crashed.old crashed.new }
{
    'extents: for extent in dirty {
        fill(crashed, *extent, byte);
    }
}

// The current contents, with this byte at every offset where a crash may leave any byte.
fn filled_bytes(
    alloc: Global,
    stable: &[u8],
    current: &[u8],
    dirty: &[Extent],
    byte: u8,
) -> Result<Vec<u8>, AllocError>
    requires { IsKept stable.now current.now dirty.now }
    ensures { IfOk result
        (λ crashed. IsFilled byte stable.now current.now dirty.now crashed.items) }
{
    let mut crashed = Vec::from_slice(alloc, &current[..stable.len()])?;
    crashed.resize(current.len(), byte)?;
    fill_extents(&mut crashed, dirty, byte);
    Ok(crashed)
}

// The contents that the choice leaves.
fn chosen_bytes(
    alloc: Global,
    stable: &Vec<u8>,
    current: &Vec<u8>,
    dirty: &[Extent],
    choice: Choice,
) -> Result<Vec<u8>, AllocError>
    requires { IsKept stable.now.items current.now.items dirty.now }
    ensures old { choice ≡ Choice.Old → IfOk result (λ crashed. crashed.items ≡ stable.now.items) }
    ensures new { choice ≡ Choice.New → IfOk result (λ crashed. crashed.items ≡ current.now.items) }
    ensures fill { (byte : ℕ) → choice ≡ Choice.Fill byte → IfOk result
        (λ crashed. IsFilled byte stable.now.items current.now.items dirty.now crashed.items) }
    ensures allowed { IfOk result (λ crashed. (crashed.items ≡ current.now.items) ⊎
        MayLeave stable.now.items dirty.now crashed.items) }
    ensures small { IfOk result (λ crashed. length crashed.items < disk_limit) }
{
    match choice {
        Choice::Old => stable.clone(),
        Choice::New => current.clone(),
        Choice::Fill(byte) => filled_bytes(alloc, stable, current, dirty, byte),
    }
}

impl MemDisk {
    /// Makes an empty disk, whose listed calls, numbered from 1, are to fail. Takes no memory;
    /// later calls use the allocator.
    pub fn make(alloc: Global, fails: Vec<u64>) -> MemDisk
        ensures { result ≡ record (synced []) { plan = new_plan fails.items } }
    {
        MemDisk {
            alloc,
            stable: Vec::new(alloc),
            current: Vec::new(alloc),
            dirty: Vec::new(alloc),
            plan: FaultPlan::make(fails),
        }
    }

    /// The contents that a read returns.
    pub fn bytes(&self) -> &Vec<u8>
        ensures { result.now.items ≡ self.now.current }
    {
        &self.current
    }

    /// The disk after a crash: with no dirty extent, no fault and no call planned to fail.
    pub fn crash(&self, choice: Choice) -> Result<MemDisk, AllocError>
        ensures allowed { IfOk result (λ disk. MayRemain self.now disk.current) }
        ensures synced { IfOk result (λ disk. disk ≡ synced disk.current) }
        ensures old { choice ≡ Choice.Old → IfOk result (λ disk. disk.current ≡ self.now.stable) }
        ensures new { choice ≡ Choice.New → IfOk result (λ disk. disk.current ≡ self.now.current) }
        ensures fill { (byte : ℕ) → choice ≡ Choice.Fill byte → IfOk result
            (λ disk. IsFilled byte self.now.stable self.now.current self.now.dirty disk.current) }
    {
        let current = chosen_bytes(self.alloc, &self.stable, &self.current, &self.dirty, choice)?;
        Ok(MemDisk {
            alloc: self.alloc,
            stable: current.clone()?,
            current,
            dirty: Vec::new(self.alloc),
            plan: FaultPlan::make(Vec::new(self.alloc)),
        })
    }
}

impl Disk for MemDisk {
    ghost use Rattle.std.specs.Prelude.{Some};
    ghost use Rattle.dbl_disk.specs.Memory.{MayRemain, told_may_be_left};

    ghost seen = { λ d. Some d.current };

    ghost may_leave = { MayRemain };

    ghost faults = { λ d. d.plan.faults };

    ghost calls = { λ d. Some d.plan.calls };

    ghost seen_may_be_left = { λ d bytes told. told_may_be_left d bytes told };

    fn len(&mut self) -> Result<u64, Failed>
        ensures below { IfOk result (λ n. n < disk_limit) }
        ensures told { (bytes : List ℕ) → Some self.old.current ≡ Some bytes →
            IfOk result (λ n. n ≡ length bytes) }
        ensures seen { Some self.new.current ≡ Some self.old.current }
        ensures crash { (crashed : List ℕ) →
            MayRemain self.new crashed ↔ MayRemain self.old crashed }
        ensures cause { FailsOnlyIfCounted (IsErr result)
            self.old.plan.faults self.new.plan.faults }
        ensures steady { (bytes : List ℕ) → Some self.old.current ≡ Some bytes →
            OnOk result (self.new.plan.faults ≡ self.old.plan.faults) }
        ensures called { IsCalled (Some self.old.plan.calls) (Some self.new.plan.calls) }

        ensures planned { IsErr result ↔
            Contains self.old.plan.planned (incremented self.old.plan.calls) }
        ensures calls { self.new.plan.calls ≡ incremented self.old.plan.calls }
        ensures counted { OnErr result (self.new.plan.faults ≡ incremented self.old.plan.faults) }
        ensures uncounted { OnOk result (self.new.plan.faults ≡ self.old.plan.faults) }
        ensures same { self.new ≡ record self.old {
          plan = record self.old.plan {
            calls = self.new.plan.calls;
            faults = self.new.plan.faults;
          };
        } }
    {
        self.plan.call()?;
        Ok(self.current.len() as u64)
    }

    fn read_at(&mut self, at: u64, buffer: &mut [u8]) -> Result<usize, Failed>
        ensures bound { IfOk result (λ n. n ≤ length buffer.old) }
        ensures told { (bytes : List ℕ) → Some self.old.current ≡ Some bytes →
            IfOk result (λ n. n ≡ min (length buffer.old) (length bytes - at)) }
        ensures moved { (bytes : List ℕ) → Some self.old.current ≡ Some bytes →
            IfOk result (λ n. take n buffer.new ≡ take n (drop at bytes)) }
        ensures seen { Some self.new.current ≡ Some self.old.current }
        ensures crash { (crashed : List ℕ) →
            MayRemain self.new crashed ↔ MayRemain self.old crashed }
        ensures cause { FailsOnlyIfCounted (IsErr result)
            self.old.plan.faults self.new.plan.faults }
        ensures steady { (bytes : List ℕ) → Some self.old.current ≡ Some bytes →
            OnOk result (self.new.plan.faults ≡ self.old.plan.faults) }
        ensures called { IsCalled (Some self.old.plan.calls) (Some self.new.plan.calls) }

        ensures planned { IsErr result ↔
            Contains self.old.plan.planned (incremented self.old.plan.calls) }
        ensures calls { self.new.plan.calls ≡ incremented self.old.plan.calls }
        ensures counted { OnErr result (self.new.plan.faults ≡ incremented self.old.plan.faults) }
        ensures uncounted { OnOk result (self.new.plan.faults ≡ self.old.plan.faults) }
        ensures same { self.new ≡ record self.old {
          plan = record self.old.plan {
            calls = self.new.plan.calls;
            faults = self.new.plan.faults;
          };
        } }
        ensures untouched { OnErr result (buffer.new ≡ buffer.old) }
    {
        self.plan.call()?;
        let length = self.current.len();
        let from = (at as usize).min(length);
        let count = buffer.len().min(length - from);
        buffer[..count].copy_from_slice(&self.current[from..from + count]);
        Ok(count)
    }

    fn write_at(&mut self, at: u64, bytes: &[u8]) -> Result<(), Failed>
        requires { (old : List ℕ) → Some self.old.current ≡ Some old →
            disk_limit ≤ at + length bytes.now → half_limit ≤ length old }
        ensures room { OnOk result (at + length bytes.now < disk_limit) }
        ensures written { (old : List ℕ) → Some self.old.current ≡ Some old →
            OnOk result (Some self.new.current ≡ Some (written old at bytes.now)) }
        ensures torn { (old : List ℕ) → Some self.old.current ≡ Some old →
            OnErr result ((new : List ℕ) × (Some self.new.current ≡ Some new) ×
            Torn at (length bytes.now) old new) }
        ensures crash { Follows (Torn at (length bytes.now)) (MayRemain self.old)
            (MayRemain self.new) }
        ensures beyond { disk_limit ≤ at + length bytes.now →
            Some self.new.current ≡ Some self.old.current }
        ensures silent { Some self.old.current ≡ None → Some self.new.current ≡ None }
        ensures untried { disk_limit ≤ at + length bytes.now → (crashed : List ℕ) →
            MayRemain self.new crashed ↔ MayRemain self.old crashed }
        ensures cause { FailsOnlyIfCounted (IsErr result)
            self.old.plan.faults self.new.plan.faults }
        ensures steady { (bytes : List ℕ) → Some self.old.current ≡ Some bytes →
            OnOk result (self.new.plan.faults ≡ self.old.plan.faults) }
        ensures called { IsCalled (Some self.old.plan.calls) (Some self.new.plan.calls) }

        ensures planned { Contains self.old.plan.planned (incremented self.old.plan.calls) →
            IsErr result }
        ensures calls { self.new.plan.calls ≡ incremented self.old.plan.calls }
        ensures counted { OnErr result (self.new.plan.faults ≡ incremented self.old.plan.faults) }
        ensures uncounted { OnOk result (self.new.plan.faults ≡ self.old.plan.faults) }
        ensures plan { self.new.plan.planned ≡ self.old.plan.planned }
        ensures dirty { OnOk result (self.new.dirty ≡ self.old.dirty ++
            record { at = at; length = length bytes.now } ∷ []) }
        ensures stable { self.new.stable ≡ self.old.stable }
        ensures unchanged { OnErr result (self.new ≡ record self.old { plan = self.new.plan }) }
    {
        self.plan.call()?;
        if at >= DISK_LIMIT || bytes.len() as u64 >= DISK_LIMIT - at {
            return Err(self.plan.fault());
        }
        match put(&mut self.current, &mut self.dirty, at as usize, bytes) {
            Ok(()) => Ok(()),
            Err(AllocError) => Err(self.plan.fault()),
        }
    }

    fn sync(&mut self) -> Result<(), Failed>
        ensures stable { (bytes : List ℕ) → Some self.old.current ≡ Some bytes →
            OnOk result (IsOnly bytes (MayRemain self.new)) }
        ensures seen { Some self.new.current ≡ Some self.old.current }
        ensures crash { (crashed : List ℕ) →
            MayRemain self.new crashed → MayRemain self.old crashed }
        ensures cause { FailsOnlyIfCounted (IsErr result)
            self.old.plan.faults self.new.plan.faults }
        ensures steady { (bytes : List ℕ) → Some self.old.current ≡ Some bytes →
            OnOk result (self.new.plan.faults ≡ self.old.plan.faults) }
        ensures called { IsCalled (Some self.old.plan.calls) (Some self.new.plan.calls) }

        ensures planned { Contains self.old.plan.planned (incremented self.old.plan.calls) →
            IsErr result }
        ensures calls { self.new.plan.calls ≡ incremented self.old.plan.calls }
        ensures counted { OnErr result (self.new.plan.faults ≡ incremented self.old.plan.faults) }
        ensures uncounted { OnOk result (self.new.plan.faults ≡ self.old.plan.faults) }
        ensures plan { self.new.plan.planned ≡ self.old.plan.planned }
        ensures synced { OnOk result
            (self.new ≡ record (synced self.old.current) { plan = self.new.plan }) }
        ensures unchanged { OnErr result (self.new ≡ record self.old { plan = self.new.plan }) }
    {
        self.plan.call()?;
        match settle(&mut self.stable, &self.current, &self.dirty) {
            Ok(()) => {
                self.dirty.clear();
                Ok(())
            }
            Err(AllocError) => Err(self.plan.fault()),
        }
    }
}
