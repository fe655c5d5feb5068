//! A session's invariant and what it may leave: definitions and theorems over lists, without a
//! source, sink or store.
#![tactic(auto)]

mod exit_laws;
mod step_laws;

pub use exit_laws::{
    few_marks_are_written, first_offsets_follow, parts_may_be_left, read_histories_are_closed,
    read_sessions_are_complete, sinks_may_end, sources_may_end, stores_may_end,
    unread_sessions_follow, windows_are_read,
};
pub use step_laws::{
    commits_keep_going, confirms_keep_going, messages_keep_going, others_keep_going,
    sessions_begin, stores_keep_going, windows_keep_going,
};
