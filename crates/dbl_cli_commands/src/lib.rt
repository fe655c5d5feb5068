//! The commands of a command line, and the limits of their options.
#![tactic(auto)]

mod commands;

pub use commands::{CaptureOptions, Command, MaskWord, ReplayOptions, ResumeOptions};
