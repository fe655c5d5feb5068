//! Theorems, as contracts of empty functions.

ghost use Rattle.dbl_gen_laws.specs.Runs.{GeneratedWorkloadsCanRun};

/// Each generated workload can be run.
pub fn generated_workloads_can_run()
    ensures { GeneratedWorkloadsCanRun }
{}
