//! The commands `capture` and `resume`: a session of the connector over the three disks of the
//! program.
#![tactic(auto)]

mod asked;
mod connecting;

pub use asked::Asked;
pub use connecting::connect;
pub use dblog_connect_ends::{ConnectError, Summary};
