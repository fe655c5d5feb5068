ghost use Rattle.std.specs.Prelude.{◌≡◌, ◌≤◌, ◌↔◌, IsErr, OnOk, OnErr, Contains};
ghost use Rattle.dbl_base.specs.Streams.{incremented};
ghost use Rattle.dbl_base.specs.Memory.{new_plan};

use crate::Failed;
use std::marker::Model;

/// The calls of an in-memory object that are to fail, numbered from 1, and the object's fault
/// count.
#[derive(Drop)]
pub struct FaultPlan {
    planned: Vec<u64>,
    calls: u64,
    faults: u64,
}

impl Model for FaultPlan {
    ghost use Rattle.dbl_base.specs.Memory.{Plan};

    ghost Value = { Plan };

    ghost view = { λ p. record { planned = p.planned.items; calls = p.calls; faults = p.faults } };
}

impl FaultPlan {
    /// Makes a plan whose listed calls are to fail.
    pub fn make(planned: Vec<u64>) -> FaultPlan
        ensures { result ≡ new_plan planned.items }
    {
        FaultPlan {
            planned,
            calls: 0,
            faults: 0,
        }
    }

    /// Counts a call, and a fault if that call is planned to fail.
    pub fn call(&mut self) -> Result<(), Failed>
        ensures planned { IsErr result ↔ Contains self.old.planned (incremented self.old.calls) }
        ensures ok { OnOk result
            (self.new ≡ record self.old { calls = incremented self.old.calls }) }
        ensures err { OnErr result (self.new
            ≡ record self.old
            { calls = incremented self.old.calls; faults = incremented self.old.faults }) }
        ensures later { self.old.faults ≤ self.new.faults }
    {
        self.calls = self.calls.saturating_add(1);
        if self.planned.contains(&self.calls) {
            self.faults = self.faults.saturating_add(1);
            return Err(Failed);
        }
        Ok(())
    }

    /// Counts an unplanned fault.
    pub fn fault(&mut self) -> Failed
        ensures counted { self.new ≡ record self.old { faults = incremented self.old.faults } }
        ensures later { self.old.faults ≤ self.new.faults }
    {
        self.faults = self.faults.saturating_add(1);
        Failed
    }
}
