//! The contract of a source of changes, as facts about its history and its answers.
#![tactic(auto)]

mod laws;
mod selected;
mod started;

pub use laws::{
    all_read_is_all_stated, answers_at_a_place_are_one, failed_marks_may_stand,
    grown_histories_grow, grown_histories_keep_rows, histories_part_at_an_lsn,
    marks_are_written_once, no_rows_before_the_first_commit, others_write_no_mark,
    own_columns_are_read_right, read_messages_are_blocks, readers_go_on,
    rows_of_no_place_are_unanswered, rows_up_to_are_rows, standing_rows_are_answered,
    stated_commits_are_in_force, unaltered_tables_are_all_read, unaltered_tables_are_read_plainly,
    valid_histories_keep_tables,
};
pub use selected::Selected;
pub use started::Started;
