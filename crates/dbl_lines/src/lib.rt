//! A line writer, which buffers lines and writes them in pieces that end at a newline; and the
//! lines of a long input.
#![tactic(auto)]

mod error;
pub mod laws;
mod line;
mod long_text;
mod reading;
mod run_error;
mod saying;
mod status;
mod writer;

pub use error::PrintError;
pub use line::Line;
pub use long_text::LongText;
pub use reading::read_long_text;
pub use run_error::RunError;
pub use saying::{OUT_OF_MEMORY, say, write_text};
pub use status::Status;
pub use writer::LineWriter;
