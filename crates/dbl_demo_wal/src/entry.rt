use dbl_base::{Lsn, Seq, Text};
use dbl_pgmsg::Message;

/// An entry of the source's log after the first one, which is the workload.
#[derive(Debug, Drop)]
pub enum Entry {
    /// A session's commit: its changes, in order, and how many of the workload's steps were done
    /// with it; 0 for the commit of the initial rows.
    Commits { steps: u64, messages: Seq<Message> },
    /// A write of the watermark, with a value of at most 64 bytes, when so many steps were done.
    Marks { steps: u64, value: Text },
    /// The log up to this LSN isn't needed any more.
    Confirms { upto: Lsn },
}
