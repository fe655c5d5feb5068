ghost use Rattle.std.specs.Prelude.{◌≡◌, nat_lt, unwrap_or};
ghost use Rattle.std.specs.Ordering.{nat_cmp};
ghost use Rattle.std.specs.BTreeMap.{get};

use std::collections::BTreeMap;

/// A message of a block that has no xid, an Origin, with its xid: the block's.
pub fn origin_item<M>(block: u32, message: M) -> (u32, M)
    ensures { result ≡ (block, message) }
{
    (block, message)
}

/// Whether the message with this xid and this index was rolled back: for each subtransaction that
/// was, `aborts` has how many messages there were at its last abort.
pub fn is_lost(aborts: &BTreeMap<u32, usize>, xid: u32, index: usize) -> bool
    ensures { result ≡ nat_lt index (unwrap_or (get nat_cmp aborts.now xid) 0) }
{
    match aborts.get(&xid) {
        Some(count) => index < *count,
        None => false,
    }
}
