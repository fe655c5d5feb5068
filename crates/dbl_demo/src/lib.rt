//! A source of changes that needs no server: it runs a workload, and keeps its log on a disk that
//! may stop at any call.
#![tactic(auto)]

mod answering;
mod calls;
mod confirming;
mod making;
mod marking;
mod opening;
mod reading;
mod releasing;
mod selecting;
mod source;

pub use dbl_demo_workload::DemoError;
pub use source::DemoSource;
