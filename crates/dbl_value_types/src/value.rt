ghost use Rattle.std.specs.Prelude.{◌≡◌, IfOk};

use dbl_base::{Bytes, DeepCopy, Seq, Text};
use std::alloc::{AllocError, Global};

/// The value of a cell. Values are ordered by kind, in this order, then by value; texts and byte
/// strings by their bytes.
#[derive(Debug, Drop, PartialEq, Eq, PartialOrd, Ord)]
pub enum Val {
    Null,
    Bool(bool),
    Int(i64),
    Text(Text),
    Bytes(Bytes),
    /// Days since 1970-01-01.
    Date(i32),
    /// Microseconds since midnight; 24:00:00 is 86,400,000,000.
    Time(i64),
    /// Microseconds since 1970-01-01 00:00:00, without time zone.
    Stamp(i64),
    /// Microseconds since 1970-01-01 00:00:00 UTC.
    StampTz(i64),
}

impl Val {
    /// Copies the value.
    pub fn copy(&self, alloc: Global) -> Result<Val, AllocError>
        ensures { IfOk result (λ v. v ≡ self.now) }
    {
        Ok(match self {
            Val::Null => Val::Null,
            Val::Bool(truth) => Val::Bool(*truth),
            Val::Int(number) => Val::Int(*number),
            Val::Text(text) => Val::Text(text.copy(alloc)?),
            Val::Bytes(bytes) => {
                Val::Bytes(Seq::make(Vec::from_slice(alloc, bytes.items().as_slice())?))
            }
            Val::Date(day) => Val::Date(*day),
            Val::Time(micros) => Val::Time(*micros),
            Val::Stamp(moment) => Val::Stamp(*moment),
            Val::StampTz(instant) => Val::StampTz(*instant),
        })
    }
}

impl DeepCopy for Val {
    fn deep_copy(&self, alloc: Global) -> Result<Val, AllocError> {
        self.copy(alloc)
    }
}
