//! Changes of a table's rows under locks: planned when they are judged, and then applied.
#![tactic(auto)]

mod first;
mod laws;
mod planned;
mod planning;
mod sessions;
mod taking;

pub use first::{FirstRow, insert_first};
pub use laws::holders_are_first;
pub use planned::{Planned, Write};
pub use planning::{pass, plan_delete, plan_insert, plan_update};
pub use sessions::Session;
pub use taking::take;
