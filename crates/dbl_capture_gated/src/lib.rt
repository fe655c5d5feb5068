//! A session of a connector whose receiver may refuse records.
#![tactic(auto)]

mod gated;

pub use gated::gated_session;
