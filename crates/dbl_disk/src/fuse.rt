ghost use Rattle.std.specs.Prelude.{◌≡◌, ◌↔◌, ℕ, ◌+◌, ◌-◌, ◌<◌, ◌≤◌, List, length, take};
ghost use Rattle.std.specs.Prelude.{drop, min, Some, None, IfOk, OnOk, OnErr, IsErr};
ghost use Rattle.dbl_base.specs.Streams.{FailsOnlyIfCounted, incremented};
ghost use Rattle.dbl_disk.specs.Disks.{Follows, IsCalled, IsOnly, Torn};
ghost use Rattle.dbl_disk.specs.Disks.{written, half_limit, disk_limit};
ghost use Rattle.dbl_disk.specs.Fuse.{Burns, fuse_calls, fuse_faults};

use crate::Disk;
use dbl_base::Failed;
use std::marker::Model;

/// A disk that forwards a given number of calls to another disk, and then fails every call.
#[derive(Drop)]
pub struct FuseDisk<D> {
    inner: D,
    left: u64,
    refused: u64,
}

impl<D> Model for FuseDisk<D> {
    ghost use Rattle.dbl_disk.specs.Fuse.{Fused};

    ghost Value = { Fused D };

    ghost view = { λ f. record { inner = f.inner; left = f.left; refused = f.refused } };
}

impl<D> FuseDisk<D> {
    /// Makes a disk that forwards the first `pass` calls to the inner disk.
    pub fn make(inner: D, pass: u64) -> FuseDisk<D>
        ensures { result ≡ record { inner = inner; left = pass; refused = 0 } }
    {
        FuseDisk {
            inner,
            left: pass,
            refused: 0,
        }
    }

    /// Unwraps the inner disk in its current state.
    pub fn into_inner(self) -> D
        ensures { result ≡ self.inner }
    {
        let FuseDisk {
            inner,
            left: _,
            refused: _,
        } = self;
        inner
    }
}

// Uses up one of the remaining calls, if any is left.
fn take_call(left: &mut u64, refused: &mut u64) -> Result<(), Failed>
    ensures passed { OnOk result (0 < left.old) }
    ensures blown { OnErr result (left.old ≡ 0) }
    ensures left { left.new ≡ left.old - 1 }
    ensures counted { OnOk result (refused.new ≡ refused.old) }
    ensures refused { OnErr result (refused.new ≡ incremented refused.old) }
{
    if *left == 0 {
        *refused = refused.saturating_add(1);
        return Err(Failed);
    }
    *left -= 1;
    Ok(())
}

impl<D: Disk> Disk for FuseDisk<D> {
    ghost use Rattle.dbl_disk.specs.Fuse.{fuse_calls, fuse_faults};

    ghost seen = { λ f. D.seen f.inner };

    ghost may_leave = { λ f crashed. D.may_leave f.inner crashed };

    ghost faults = { λ f. fuse_faults D.Disk f };

    ghost calls = { λ f. fuse_calls D.Disk f };

    ghost seen_may_be_left = { λ f bytes told. D.seen_may_be_left f.inner bytes told };

    fn len(&mut self) -> Result<u64, Failed>
        ensures below { IfOk result (λ n. n < disk_limit) }
        ensures told { (bytes : List ℕ) → D.seen self.old.inner ≡ Some bytes →
            IfOk result (λ n. n ≡ length bytes) }
        ensures seen { D.seen self.new.inner ≡ D.seen self.old.inner }
        ensures crash { (crashed : List ℕ) → D.may_leave self.new.inner crashed ↔
            D.may_leave self.old.inner crashed }
        ensures cause { FailsOnlyIfCounted (IsErr result)
            (fuse_faults D.Disk self.old) (fuse_faults D.Disk self.new) }
        ensures steady { (bytes : List ℕ) → D.seen self.old.inner ≡ Some bytes →
            OnOk result (fuse_faults D.Disk self.new ≡ fuse_faults D.Disk self.old) }
        ensures called { IsCalled (fuse_calls D.Disk self.old) (fuse_calls D.Disk self.new) }
        ensures fuse { Burns D.Disk self.old self.new result }
    {
        take_call(&mut self.left, &mut self.refused)?;
        self.inner.len()
    }

    fn read_at(&mut self, at: u64, buffer: &mut [u8]) -> Result<usize, Failed>
        ensures bound { IfOk result (λ n. n ≤ length buffer.old) }
        ensures told { (bytes : List ℕ) → D.seen self.old.inner ≡ Some bytes →
            IfOk result (λ n. n ≡ min (length buffer.old) (length bytes - at)) }
        ensures moved { (bytes : List ℕ) → D.seen self.old.inner ≡ Some bytes →
            IfOk result (λ n. take n buffer.new ≡ take n (drop at bytes)) }
        ensures seen { D.seen self.new.inner ≡ D.seen self.old.inner }
        ensures crash { (crashed : List ℕ) → D.may_leave self.new.inner crashed ↔
            D.may_leave self.old.inner crashed }
        ensures cause { FailsOnlyIfCounted (IsErr result)
            (fuse_faults D.Disk self.old) (fuse_faults D.Disk self.new) }
        ensures steady { (bytes : List ℕ) → D.seen self.old.inner ≡ Some bytes →
            OnOk result (fuse_faults D.Disk self.new ≡ fuse_faults D.Disk self.old) }
        ensures called { IsCalled (fuse_calls D.Disk self.old) (fuse_calls D.Disk self.new) }
        ensures fuse { Burns D.Disk self.old self.new result }
    {
        take_call(&mut self.left, &mut self.refused)?;
        self.inner.read_at(at, buffer)
    }

    fn write_at(&mut self, at: u64, bytes: &[u8]) -> Result<(), Failed>
        requires { (old : List ℕ) → D.seen self.old.inner ≡ Some old →
            disk_limit ≤ at + length bytes.now → half_limit ≤ length old }
        ensures room { OnOk result (at + length bytes.now < disk_limit) }
        ensures written { (old : List ℕ) → D.seen self.old.inner ≡ Some old →
            OnOk result (D.seen self.new.inner ≡ Some (written old at bytes.now)) }
        ensures torn { (old : List ℕ) → D.seen self.old.inner ≡ Some old →
            OnErr result ((new : List ℕ) × (D.seen self.new.inner ≡ Some new) ×
            Torn at (length bytes.now) old new) }
        ensures crash { Follows (Torn at (length bytes.now)) (D.may_leave self.old.inner)
            (D.may_leave self.new.inner) }
        ensures beyond { disk_limit ≤ at + length bytes.now →
            D.seen self.new.inner ≡ D.seen self.old.inner }
        ensures silent { D.seen self.old.inner ≡ None → D.seen self.new.inner ≡ None }
        ensures untried { disk_limit ≤ at + length bytes.now → (crashed : List ℕ) →
            D.may_leave self.new.inner crashed ↔ D.may_leave self.old.inner crashed }
        ensures cause { FailsOnlyIfCounted (IsErr result)
            (fuse_faults D.Disk self.old) (fuse_faults D.Disk self.new) }
        ensures steady { (bytes : List ℕ) → D.seen self.old.inner ≡ Some bytes →
            OnOk result (fuse_faults D.Disk self.new ≡ fuse_faults D.Disk self.old) }
        ensures called { IsCalled (fuse_calls D.Disk self.old) (fuse_calls D.Disk self.new) }
        ensures fuse { Burns D.Disk self.old self.new result }
    {
        take_call(&mut self.left, &mut self.refused)?;
        self.inner.write_at(at, bytes)
    }

    fn sync(&mut self) -> Result<(), Failed>
        ensures stable { (bytes : List ℕ) → D.seen self.old.inner ≡ Some bytes →
            OnOk result (IsOnly bytes (D.may_leave self.new.inner)) }
        ensures seen { D.seen self.new.inner ≡ D.seen self.old.inner }
        ensures crash { (crashed : List ℕ) → D.may_leave self.new.inner crashed →
            D.may_leave self.old.inner crashed }
        ensures cause { FailsOnlyIfCounted (IsErr result)
            (fuse_faults D.Disk self.old) (fuse_faults D.Disk self.new) }
        ensures steady { (bytes : List ℕ) → D.seen self.old.inner ≡ Some bytes →
            OnOk result (fuse_faults D.Disk self.new ≡ fuse_faults D.Disk self.old) }
        ensures called { IsCalled (fuse_calls D.Disk self.old) (fuse_calls D.Disk self.new) }
        ensures fuse { Burns D.Disk self.old self.new result }
    {
        take_call(&mut self.left, &mut self.refused)?;
        self.inner.sync()
    }
}
