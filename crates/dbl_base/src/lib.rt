//! Texts and their lines, lists and byte streams: the base of every other crate.
#![tactic(auto)]

mod copies;
mod failed;
mod fault_plan;
mod input;
mod lines;
mod lsn;
mod memory;
mod output;
mod seq;
mod standard;
mod text;

pub use copies::{DeepCopy, copy_items};
pub use failed::Failed;
pub use fault_plan::FaultPlan;
pub use input::{INPUT_LIMIT, Input, InputError, read_all};
pub use lines::{is_blank_or_comment, next_line};
pub use lsn::Lsn;
pub use memory::{MemInput, MemOutput};
pub use output::Output;
pub use seq::{Bytes, Seq};
pub use standard::{StdInput, StdOutput};
pub use text::Text;
