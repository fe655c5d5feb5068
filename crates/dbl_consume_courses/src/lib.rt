//! The courses of captured tables that may be altered: theorems over the definitions.
#![tactic(auto)]

mod age_laws;
mod between_laws;
mod course_laws;
mod fit_laws;
mod growth_laws;
mod row_laws;
mod same_laws;
mod since_laws;
mod store_laws;
mod table_laws;
mod there_laws;
mod version_laws;
mod window_laws;

pub use age_laws::{
    aged_courses_are_own, altered_tables_age, late_logs_age_as_plain, late_logs_have_the_same_rows,
    new_courses_are_aged, nothing_is_known_at_first, plain_tables_age,
};
pub use between_laws::{
    ages_between_stay_as_histories_grow, commits_move_ages_between, empty_logs_are_aged,
    parts_of_commits_keep_ages_between,
};
pub use course_laws::{
    aged_tables_stand, altered_tables_stand, courses_begin_anew, courses_go_on, courses_have_infos,
    courses_show_rows, points_of_courses_are_points, version_stores_stand,
};
pub use fit_laws::{
    courses_are_fit, fit_histories_have_fit_versions, plain_histories_have_fit_versions,
};
pub use growth_laws::{
    commits_move_own_age, own_age_goes_back, own_age_stays_as_histories_grow,
    parts_of_commits_keep_own_age, parts_of_snapshots_keep_own_age,
};
pub use row_laws::{
    altered_tables_agree, altered_tables_have_rows, no_records_have_rows_of_keys,
    parts_of_commits_keep_rows_of_keys, parts_of_snapshots_keep_rows_of_keys,
};
pub use same_laws::{
    commits_move_same_cells, new_courses_have_same_cells, parts_of_commits_keep_same_cells,
    parts_of_snapshots_keep_same_cells, same_cells_stay_as_histories_grow,
};
pub use since_laws::{
    early_records_end_all, late_logs_are_whole, late_records_are_appended, later_starts_keep_less,
    since_is_one, since_is_since,
};
pub use store_laws::{
    agreement_goes_on, cursors_stay_as_histories_grow, cursors_stay_at_later_positions,
    cursors_stay_with_more_records, reports_are_cursors,
};
pub use table_laws::{
    alterations_move_table_age, commits_move_table_age, parts_of_commits_keep_table_age,
    parts_of_repeats_keep_table_age, parts_of_snapshots_keep_table_age, repeats_move_table_age,
    table_age_goes_back, table_age_stays_as_courses_grow, table_age_stays_as_histories_grow,
    versions_reach_their_top,
};
pub use there_laws::{
    commits_move_rows_there, no_records_have_rows, parts_of_commits_keep_rows_there,
    parts_of_snapshots_keep_rows_there, rows_there_go_back, rows_there_stay_as_histories_grow,
};
pub use version_laws::{
    cursors_are_of_courses, plain_versions_have_plain_rows, unaltered_tables_have_version_one,
    windows_are_of_courses,
};
pub use window_laws::{other_windows_keep_table_age, parts_of_snapshots_keep_ages_between};
