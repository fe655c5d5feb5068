//! Histories: their points, the rows at each point, and valid changes.
#![tactic(auto)]

mod alteration_laws;
mod bound_laws;
mod cursor;
mod fitting_keys;
mod keys;
mod laws;
mod window_laws;

pub use alteration_laws::{
    entries_are_in_force, infos_have_keys, shapes_are_descriptions, shapes_are_in_force,
    versions_are_in_range, versions_follow,
};
pub use bound_laws::{
    bounds_part_keys, keys_above_go_on, keys_up_to_go_back, marks_are_short, marks_tell_numbers,
};
pub use cursor::Cursor;
pub use fitting_keys::key_fits;
pub use keys::{given_or_nulls, is_same, key_at};
pub use laws::{
    fit_changes_fit_infos, fit_rows_are_rows, infos_are_in_range, key_texts_name_keys,
    moments_are_changes, plain_versions_are_typed, positions_are_moments, rows_have_one_image,
    typed_commits_are_in_range, unaltered_entries_stay,
};
pub use window_laws::{
    first_rows_are_one, fit_changes_fit_one_by_one, left_rows_are_rows, lost_rows_were_touched,
    names_are_one, touched_keys_are_parted, whole_changes_are_cases,
};
