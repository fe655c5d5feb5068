//! What each step of a session keeps, why it stops, and what it may leave: definitions and theorems
//! over any source, sink and store. A stop is an end by an error. A source's trace is its last
//! answer and the messages that it has returned since reading began; its state is the history, the
//! confirmed LSN and the reading that it represents.
#![tactic(auto)]

mod answer_laws;
mod awaited_laws;
mod carried_laws;
mod gained_mark_laws;
mod halt_laws;
mod honest_laws;
mod laws;
mod mark_laws;
mod owned_laws;
mod put_laws;
mod report_laws;

pub use answer_laws::{
    failures_excuse, newest_bytes_ask, quiet_answers_ask_nothing, rows_ask, unread_answers_ask,
};
pub use awaited_laws::stood_offsets_are_within;
pub use carried_laws::{
    commits_leave_it_read, ends_are_stood, ends_are_told, halts_at_messages_are_stood,
    halts_at_messages_are_told, halts_between_are_stood, halts_between_are_told,
    halts_unread_are_stood, halts_unread_are_told, messages_let_it_rest, sessions_begin_at_rest,
    stores_let_it_rest, windows_let_it_rest,
};
pub use gained_mark_laws::{
    ends_leave_exact_marks, others_add_no_marks, others_leave_few_marks, windows_leave_few_marks,
};
pub use halt_laws::{
    bytes_halt, marks_are_missed, messages_halt, newest_messages_halt, offsets_halt,
    sessions_halt_unread, sources_stood_at_halts, sources_stood_at_offsets, steps_move_one_cursor,
    steps_open_windows, taken_messages_ask_nothing, windows_halt,
};
pub use honest_laws::{
    captured_tables_can_be_captured, honest_transactions_fail, spelled_bytes_never_halt,
};
pub use laws::{
    commits_leave_it_ready, messages_leave_it_ready, parts_leave_it_ready, stores_leave_it_ready,
    windows_leave_it_ready,
};
pub use mark_laws::{few_marks_are_left, marks_are_exact, read_windows_wait, steps_close_windows};
pub use owned_laws::{
    clashes_are_own, first_long_offsets_are_own, first_offsets_are_long, long_offsets_are_own,
    long_records_are_own, open_clashes_are_own, open_long_records_are_own,
};
pub use put_laws::{
    commits_gain, gains_begin, gains_stay, messages_gain_nothing, opens_are_counted,
    opens_leave_gains, rests_leave_gains, steps_are_counted, steps_leave_gains,
};
pub use report_laws::{
    commits_are_sent, ends_stand_at_last, halts_at_messages, halts_between, messages_are_taken,
    puts_are_counted, sessions_begin_unread, sources_settle, sources_stand_after, sources_stood_so,
    stated_commits_are_in_range, stood_are_followed, stops_are_followed,
};
