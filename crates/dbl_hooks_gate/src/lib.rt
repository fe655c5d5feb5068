//! A sink with a receiver that may refuse records: a gate before another sink.
#![tactic(auto)]

mod gate;
mod laws;
mod rule;

pub use gate::{Gate, Handler};
pub use laws::allowed_values_are_short;
pub use rule::Rule;
