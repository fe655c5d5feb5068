//! Command-line arguments.
#![tactic(auto)]

mod error;
mod items;
mod laws;
mod names;
mod parser;
mod reading;
mod spelling;
mod values;
mod verbs;

pub use dbl_cli_commands::{CaptureOptions, Command, MaskWord, ReplayOptions, ResumeOptions};
pub use error::CliError;
pub use laws::{words_spell_one_command, words_spell_or_not};
pub use spelling::command;
