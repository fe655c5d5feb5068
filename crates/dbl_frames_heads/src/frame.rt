use dbl_base::Bytes;

/// A frame of the stream. Positions are LSNs; times are microseconds since 2000-01-01 UTC.
#[derive(Drop)]
pub enum Frame {
    /// XLogData: `start` is the position of the payload, a message of the output plugin, and `end`
    /// that of the server's log.
    Data {
        start: u64,
        end: u64,
        time: i64,
        payload: Bytes,
    },
    /// A keepalive; a `reply` of 1 requests a status update at once.
    Keepalive {
        end: u64,
        time: i64,
        reply: u8,
    },
}
