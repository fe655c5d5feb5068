use std::fmt;

/// A log sequence number: a position in the source's log, as PostgreSQL's `pg_lsn`. It prints as a
/// decimal number.
#[derive(Clone, Copy, Debug)]
pub struct Lsn(pub u64);

impl fmt::Display for Lsn {
    ghost use Rattle.std.specs.Prelude.{Some, decimal};

    ghost output = { λ lsn. Some (decimal lsn.0) };

    fn fmt<W: fmt::Write>(&self, f: &mut fmt::Formatter<W>) -> fmt::Result {
        let number = self.0;
        write!(f, "{number}")
    }
}
