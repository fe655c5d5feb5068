use dbl_base::Text;
use json::Tape;

/// A record that was parsed from a line, which it borrows.
#[derive(Drop)]
pub struct ParsedRecord<'a> {
    pub(crate) topic: Text,
    pub(crate) tape: Tape<'a>,
}
