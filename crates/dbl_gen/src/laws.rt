//! Theorems about the generated workloads; the functions have empty bodies.

ghost use Rattle.dbl_gen.specs.Laws.{WorkloadsAreRead, WorkloadsAreShort};

/// `dbl_script::parse` accepts each workload unless memory runs out: it has no bad line, and
/// exactly the two tables.
pub fn workloads_are_read()
    ensures { WorkloadsAreRead }
{}

/// A workload has at most 126 bytes a row, 231 a group, and 160 more.
pub fn workloads_are_short()
    ensures { WorkloadsAreShort }
{}
