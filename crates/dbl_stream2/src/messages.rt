use dbl_base::Lsn;
use dbl_pgmsg::Message;

/// A message of protocol version 2, as in PostgreSQL's "Logical Replication Message Formats".
#[derive(Drop)]
pub enum StreamMessage {
    /// Stream Start: a block of the transaction opens; `first` is 1 in its first block.
    Start {
        xid: u32,
        first: u8,
    },
    /// Stream Stop: the block ends.
    Stop,
    /// Stream Commit: the streamed transaction commits.
    Commit {
        xid: u32,
        flags: u8,
        lsn: Lsn,
        end_lsn: Lsn,
        time: i64,
    },
    /// Stream Abort: the subtransaction is rolled back, or the whole transaction if the two are
    /// the same.
    Abort {
        xid: u32,
        subxid: u32,
    },
    /// A message without an xid: each one outside blocks, and an Origin in a block.
    Plain(Message),
    /// A message in a block, with the xid of its transaction or subtransaction.
    Carried {
        xid: u32,
        message: Message,
    },
}
