//! The first stage of a log: each byte string is read as a message.

ghost use Rattle.dblog_replay.specs.Following.{ReadsBytes};

use crate::log_fault::LogFault;
use dbl_base::Bytes;
use dbl_pgmsg::{Message, MsgError, decode};
use std::alloc::Global;

/// The message that the byte string of this number encodes, or the error that ends the log. Frees
/// the bytes.
pub(crate) fn read_message(alloc: Global, number: u64, bytes: Bytes) -> Result<Message, LogFault>
    ensures { ReadsBytes number bytes result }
{
    match decode(alloc, bytes.items().as_slice()) {
        Ok(message) => Ok(message),
        Err(MsgError::Memory) => Err(LogFault::Memory),
        Err(error) => Err(LogFault::Message { number, error }),
    }
}
