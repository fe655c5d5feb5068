//! The messages that begin and end a transaction, and the tables that a change names.

ghost use Rattle.std.specs.Prelude.{◌≡◌, ◌+◌, ◌<◌, ◌^◌, IfSome, slice_get};
ghost use Rattle.dbl_source_log.specs.Numbers.{lsn_of, time_of, commits_upto, number_limit};
ghost use Rattle.dbl_source_log.specs.Sent.{oids_of, begin_message, commit_message};

use dbl_base::Lsn;
use dbl_pgmsg::Message;

/// The LSN of commit n, from 1. Takes no memory.
pub fn lsn_of(n: u64) -> Lsn
    requires { n < number_limit }
    ensures { result ≡ lsn_of n }
{
    Lsn(256 * n)
}

/// The number of commits up to an LSN, for a log of any length. Takes no memory.
pub fn commits_upto(after: Lsn) -> usize
    ensures value { result ≡ commits_upto after }
    ensures small { result < 2 ^ 56 }
{
    (after.0 / 256) as usize
}

// Commits are a second apart.
fn time_of(n: u64) -> i64
    requires { n < number_limit }
    ensures { result ≡ time_of n }
{
    (n * 1_000_000) as i64
}

/// The Begin message of commit n. Takes no memory.
pub fn begin_message(n: u64) -> Message
    requires { n < number_limit }
    ensures { result ≡ begin_message n }
{
    Message::Begin {
        lsn: lsn_of(n),
        time: time_of(n),
        xid: (n % (1 << 32)) as u32,
    }
}

/// The Commit message of commit n. Takes no memory.
pub fn commit_message(n: u64) -> Message
    requires { n < number_limit }
    ensures { result ≡ commit_message n }
{
    Message::Commit {
        flags: 0,
        lsn: lsn_of(n),
        end_lsn: Lsn(256 * n + 40),
        time: time_of(n),
    }
}

/// The OID of a table that a change names, by its index. Takes no memory.
pub fn oid_at(message: &Message, place: usize) -> Option<u32>
    ensures oid { result ≡ slice_get (oids_of message.now) place }
    ensures small { IfSome result (λ oid. place + 1 < 2 ^ 64) }
{
    match message {
        Message::Insert { oid, .. } | Message::Update { oid, .. } | Message::Delete { oid, .. } => {
            if place == 0 { Some(*oid) } else { None }
        }
        Message::Truncate { options: _, oids } => oids.items().get(place).copied(),
        _ => None,
    }
}
