//! A source that runs a workload: its state between calls, and what the calls add to it.
#![tactic(auto)]

mod laws;

pub use laws::{
    calls_undo_nothing, crashes_leave_what_follows, entries_are_written_as_promised,
    groups_answer_as_promised, reads_answer_as_promised, selects_answer_as_promised,
    sources_stand_well,
};
