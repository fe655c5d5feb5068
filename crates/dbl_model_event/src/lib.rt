//! Change events: the records of commits and of snapshots, as definitions.
#![tactic(auto)]

mod closed;
mod event_laws;
mod open_laws;
mod snapshot_laws;
mod time;

pub use closed::{Closed, KeyedRows};
pub use event_laws::{commits_are_numbered, small_inserts_are, times_are_rounded_down};
pub use open_laws::{first_clashes_stay, records_go_on, records_show_no_end};
pub use snapshot_laws::{keys_of_rows_rise, snapshots_have_one_row_a_key};
pub use time::milliseconds;
