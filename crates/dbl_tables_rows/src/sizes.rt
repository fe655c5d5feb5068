//! Limits of the size of a commit.

ghost use Rattle.std.specs.Prelude.{◌≡◌, []};
ghost use Rattle.dbl_tables_rows.specs.Sending.{entry_size};
ghost use Rattle.dbl_tables_rows.specs.Given.{SizeGrows};

use dbl_pgmsg::Message;

/// How many bytes the entry of a commit takes before its first message, and before each message.
const ENTRY_HEAD: u64 = 13;

const MESSAGE_HEAD: u64 = 4;

/// The largest size of the entry of a commit, in bytes.
const ENTRY_LIMIT: u64 = 1 << 28;

/// The size of the entry of a commit without changes. Takes no memory.
pub fn empty_size() -> u64
    ensures { result ≡ entry_size [] }
{
    ENTRY_HEAD
}

/// The size of the entry with one more message; none if it would be too long. Takes no memory.
pub fn grown_size(size: u64, message: &Message) -> Option<u64>
    ensures { SizeGrows size message.now result }
{
    let Some(length) = message.length() else {
        return None;
    };
    let grown = size.saturating_add(MESSAGE_HEAD + length as u64);
    if grown > ENTRY_LIMIT {
        None
    } else {
        Some(grown)
    }
}
