//! Theorems about bad workloads. The functions do nothing: their contracts are the theorems.

ghost use Rattle.dbl_demo_workload.specs.Laws.{RefusalsAreOne, WorkloadsAreNotRefused};
ghost use Rattle.dbl_demo_workload.specs.Laws.{WorkloadsOrRefusals};

/// Bytes are a workload that can be run, or have one cause why they aren't, and never both.
pub fn workloads_or_refusals()
    ensures one { RefusalsAreOne }
    ensures not_both { WorkloadsAreNotRefused }
    ensures one_of { WorkloadsOrRefusals }
{}
