ghost use Rattle.std.specs.Prelude.{◌≡◌, ◌≢◌, ◌≤◌, IfOk};
ghost use Rattle.dbl_lines.specs.declared.status.Status.TheVariants.{StdinFailed, StdoutFailed};
ghost use Rattle.dbl_base.specs.Streams.{FaultCounted};
ghost use Rattle.dbl_gen.specs.Workload.{workload};
ghost use Rattle.dblog_capture.specs.Generated.{IsGeneratedStatus, RunsGenerated, plain_capture};

use crate::sessions::run_session;
use dbl_base::{Output, Seq, Text};
use dbl_cli_commands::CaptureOptions;
use dbl_disk::Disk;
use dbl_gen::script;
use dbl_lines::{RunError, Status, say};
use dblog_capture_text::{WorkloadText, say_init};
use dblog_connect::Asked;
use dblog_init::{Disks, Outcome, init};
use std::alloc::{AllocError, Global};

/// The workload of which a run makes its stores, and what it captures then.
#[derive(Drop)]
struct Plan {
    workload: WorkloadText,
    options: CaptureOptions,
}

/// Makes the stores of a number's workload, as `init` does, and then captures all of its tables, as
/// `capture` does without arguments.
pub fn run_generated<O: Output, W: Disk, T: Disk, F: Disk>(
    alloc: Global,
    number: u64,
    rows: u32,
    groups: u32,
    now_ms: &i64,
    output: &mut O,
    disks: Disks<W, T, F>,
) -> Outcome<W, T, F, Status>
    requires rows { rows ≤ 400_000 }
    requires groups { groups ≤ 90_000 }
    ensures generated { RunsGenerated W.Disk T.Disk F.Disk (workload number rows groups) now_ms.now
        disks result.disks result.end (O.written output.old) (O.written output.new) }
    ensures known { IsGeneratedStatus result.end }
    ensures output_failed { result.end ≡ StdoutFailed →
        FaultCounted (O.faults output.old) (O.faults output.new) }
    ensures not_input { result.end ≢ StdinFailed }
{
    match prepare(alloc, number, rows, groups) {
        Ok(plan) => make_and_capture(alloc, plan, now_ms, output, disks),
        Err(_) => Outcome {
            disks,
            end: say(alloc, RunError::Memory, output),
        },
    }
}

fn prepare(alloc: Global, number: u64, rows: u32, groups: u32) -> Result<Plan, AllocError>
    requires rows { rows ≤ 400_000 }
    requires groups { groups ≤ 90_000 }
    ensures workload { IfOk result (λ plan. plan.workload ≡ workload number rows groups) }
    ensures options { IfOk result (λ plan. plan.options ≡ plain_capture) }
{
    let text = script(alloc, number, rows, groups)?;
    Ok(Plan {
        workload: WorkloadText::make(text),
        options: plain_capture(alloc)?,
    })
}

fn plain_capture(alloc: Global) -> Result<CaptureOptions, AllocError>
    ensures { IfOk result (λ options. options ≡ plain_capture) }
{
    Ok(CaptureOptions {
        prefix: Text::of(alloc, "demo")?,
        db: Text::of(alloc, "demo")?,
        placeholder: Text::of(alloc, "__debezium_unavailable_value")?,
        chunk: 1_000,
        every: 100,
        messages: 999_999_999,
        max_value: None,
        tables: Seq::make(Vec::new(alloc)),
    })
}

fn make_and_capture<O: Output, W: Disk, T: Disk, F: Disk>(
    alloc: Global,
    plan: Plan,
    now_ms: &i64,
    output: &mut O,
    disks: Disks<W, T, F>,
) -> Outcome<W, T, F, Status>
    requires { plan.options ≡ plain_capture }
    ensures generated { RunsGenerated W.Disk T.Disk F.Disk plan.workload now_ms.now
        disks result.disks result.end (O.written output.old) (O.written output.new) }
    ensures known { IsGeneratedStatus result.end }
    ensures output_failed { result.end ≡ StdoutFailed →
        FaultCounted (O.faults output.old) (O.faults output.new) }
{
    let Plan {
        mut workload,
        options,
    } = plan;
    let begun = init(alloc, &mut workload, disks);
    let Outcome { disks, end } = begun;
    match end {
        Ok(()) => {
            let asked = Asked::First { options };
            run_session(alloc, asked, now_ms, output, disks)
        }
        Err(error) => Outcome {
            disks,
            end: say_init(alloc, error, output),
        },
    }
}
