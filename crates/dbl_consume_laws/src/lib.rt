//! The state of a consumer of the change events compared with the rows of their source: theorems
//! over the definitions.
#![tactic(auto)]

mod ageing_laws;
mod agreement_laws;
mod moment_laws;
mod record_laws;
mod row_laws;
mod session_laws;

pub use ageing_laws::{
    age_goes_back, age_stays_as_histories_grow, aged_cells_agree, aged_records_agree,
    changes_move_age, commits_move_age, no_records_are_aged, parts_of_commits_keep_age,
    parts_of_snapshots_keep_age, records_of_a_change_keep_age, silent_commits_move_age,
};
pub use agreement_laws::{
    consumers_hold_images, consumers_hold_no_other_rows, images_stand, lines_are_read,
    snapshot_lines_are_read,
};
pub use moment_laws::{
    events_stand_for_changes, fit_histories_have_fit_commits, later_places_stand_later,
    marks_stand_for_commits, records_reach_their_top, told_bounds_are_told,
};
pub use record_laws::{
    cells_go_alone, changes_change_cells, commits_lack_placeholders, consumers_hold_cells,
    events_change_cells, events_have_letters, fit_changes_are_wide, fitting_changes_are_wide,
    histories_lack_placeholders, pairs_name_events, progress_changes_no_cell,
    progress_changes_nothing, progress_is_read_once, progress_records_tell, read_rows_are_held,
    read_rows_change_cells, read_rows_have_their_letter, read_rows_leave_others,
    records_tell_one_event, snapshots_lack_placeholders, table_topics_tell_none,
};
pub use row_laws::{
    events_keep_names, known_cells_were_so, lacked_rows_were_absent, no_records_are_named,
    records_of_histories_agree, records_of_histories_are_named, snapshots_keep_names,
    unknown_rows_were_there,
};
pub use session_laws::{
    parts_of_commits_keep_ages, parts_of_snapshots_keep_ages, records_of_a_change_keep_ages,
};
