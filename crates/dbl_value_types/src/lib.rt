//! Column types, values and their errors, and the definitions of values' texts and JSON.
#![tactic(auto)]

mod column_type;
mod error;
mod value;

pub use column_type::{PgType, of, oid};
pub use error::ValueError;
pub use value::Val;
