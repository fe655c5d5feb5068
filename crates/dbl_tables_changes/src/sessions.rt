//! An open session: its changes, and the keys that it may have locked.

ghost use Rattle.std.specs.Prelude.{◌≡◌, []};
ghost use Rattle.dbl_tables_rows.specs.Sending.{entry_size};

use dbl_pgmsg::Message;
use dbl_tables_rows::{HeldKey, empty_size};
use std::alloc::Global;

/// The changes of an open session. `size` is that of the entry of its commit.
#[derive(Drop)]
pub struct Session {
    pub messages: Vec<Message>,
    pub size: u64,
    pub keys: Vec<HeldKey>,
}

impl Session {
    /// A session that has changed nothing. Takes no memory.
    pub fn make(alloc: Global) -> Session
        ensures messages { result.messages.items ≡ [] }
        ensures size { result.size ≡ entry_size [] }
        ensures keys { result.keys.items ≡ [] }
    {
        Session {
            messages: Vec::new(alloc),
            size: empty_size(),
            keys: Vec::new(alloc),
        }
    }
}
