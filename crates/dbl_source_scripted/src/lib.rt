//! A source that plays other clients' commits from a script.
#![tactic(auto)]

mod asked;
mod catalogue;
mod laws;
mod moves;
mod playing;
mod scripted;

pub use dbl_source::{Source, SourceError};
pub use laws::{
    commits_keep_fair, fair_scripts_are_honest, fair_sources_stand, first_commits_are_fair,
    marks_keep_fair, new_sources_are_fair, selects_have_returned, selects_keep_fair,
};
pub use moves::{COMMIT_LIMIT, Move, has_room};
pub use scripted::ScriptedSource;
