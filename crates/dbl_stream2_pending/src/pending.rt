//! What is pending of the streamed transactions.

ghost use Rattle.std.specs.Prelude.{◌≡◌, ◌==◌, ◌&&◌, ◌++◌, ℕ, [], ◌∷◌, length, Some};
ghost use Rattle.std.specs.Prelude.{OnOk, if◌then◌else◌, option_map, unwrap_or, nat_lt};
ghost use Rattle.std.specs.Ordering.{nat_cmp};
ghost use Rattle.std.specs.BTreeMap.{get};
ghost use Rattle.dbl_stream2_pending.specs.Buffers.{buffer_in, aborts_in, buffer_or_empty};
ghost use Rattle.dbl_stream2_pending.specs.Buffers.{item_left, remaining_in};

use dbl_stream2_items::{is_lost, origin_item};
use std::alloc::{AllocError, Global};
use std::collections::BTreeMap;

/// The messages of a transaction's blocks, each with its xid, and per subtransaction that was
/// rolled back how many messages there were at its last abort, of which its own are lost.
#[derive(Drop)]
pub struct Pending<M> {
    buffer: Vec<(u32, M)>,
    aborts: BTreeMap<u32, usize>,
}

/// Streamed transactions by their xid.
pub type Transactions<M> = BTreeMap<u32, Pending<M>>;

impl<M: Drop> Pending<M> {
    fn make(alloc: Global) -> Pending<M>
        ensures buffer { buffer_in (Some result) ≡ Some [] }
        ensures aborts { (y : ℕ) → aborts_in y (Some result) ≡ 0 }
    {
        Pending {
            buffer: Vec::new(alloc),
            aborts: BTreeMap::new(alloc),
        }
    }

    fn push(&mut self, xid: u32, message: M) -> Result<(), AllocError>
        ensures buffer { OnOk result (buffer_in (Some self.new) ≡
            Some (self.old.buffer.items ++ (xid, message) ∷ [])) }
        ensures aborts { (y : ℕ) → aborts_in y (Some self.new) ≡ aborts_in y (Some self.old) }
    {
        self.buffer.push((xid, message))?;
        Ok(())
    }

    fn abort(&mut self, subxid: u32) -> Result<(), AllocError>
        ensures buffer { buffer_in (Some self.new) ≡ buffer_in (Some self.old) }
        ensures aborts { OnOk result ((y : ℕ) → aborts_in y (Some self.new) ≡ (if subxid == y then
            length self.old.buffer.items else aborts_in y (Some self.old))) }
    {
        let count = self.buffer.len();
        self.aborts.insert(subxid, count)?;
        Ok(())
    }

    /// Appends the messages that aren't lost, in order.
    pub fn append_remaining(self, messages: &mut Vec<M>) -> Result<(), AllocError>
        ensures { OnOk result (messages.new.items ≡ messages.old.items ++ remaining_in self) }
    {
        let Pending { buffer, aborts } = self;
        for numbered in buffer.into_iter().enumerate() {
            match append_unless_lost(&aborts, numbered, messages) {
                Ok(()) => {}
                Err(error) => return Err(error),
            }
        }
        Ok(())
    }
}

// Appends the message of an item, which has its index before it, unless it was rolled back.
fn append_unless_lost<M: Drop>(
    aborts: &BTreeMap<u32, usize>,
    numbered: (usize, (u32, M)),
    messages: &mut Vec<M>,
) -> Result<(), AllocError>
    ensures { OnOk result (messages.new.items ≡ messages.old.items ++
        item_left (nat_lt numbered.0 (unwrap_or (get nat_cmp aborts.now numbered.1.0) 0))
        numbered.1) }
{
    let (index, (xid, message)) = numbered;
    if is_lost(aborts, xid, index) {
        return Ok(());
    }
    messages.push(message)?;
    Ok(())
}

/// Makes room for a transaction, if it isn't there.
pub fn make_room<M: Drop>(
    alloc: Global,
    pending: &mut Transactions<M>,
    xid: u32,
) -> Result<(), AllocError>
    ensures buffer { OnOk result ((x : ℕ) → buffer_in (get nat_cmp pending.new x) ≡
        (if xid == x then Some (buffer_or_empty (buffer_in (get nat_cmp pending.old x))) else
        buffer_in (get nat_cmp pending.old x))) }
    ensures aborts { OnOk result ((x y : ℕ) →
        aborts_in y (get nat_cmp pending.new x) ≡ aborts_in y (get nat_cmp pending.old x)) }
{
    if pending.contains_key(&xid) {
        return Ok(());
    }
    pending.insert(xid, Pending::make(alloc))?;
    Ok(())
}

/// Buffers a message of an open block, with its own xid.
pub fn buffer_message<M: Drop>(
    pending: &mut Transactions<M>,
    block: u32,
    xid: u32,
    message: M,
) -> Result<(), AllocError>
    ensures buffer { OnOk result ((x : ℕ) → buffer_in (get nat_cmp pending.new x) ≡
        (if block == x then option_map (λ items. items ++ (xid, message) ∷ [])
        (buffer_in (get nat_cmp pending.old x)) else buffer_in (get nat_cmp pending.old x))) }
    ensures aborts { OnOk result ((x y : ℕ) →
        aborts_in y (get nat_cmp pending.new x) ≡ aborts_in y (get nat_cmp pending.old x)) }
{
    match pending.get_mut(&block) {
        Some(transaction) => transaction.push(xid, message),
        None => Ok(()),
    }
}

/// Buffers a message of an open block that has no xid, an Origin: it has the block's.
pub fn buffer_origin<M: Drop>(
    pending: &mut Transactions<M>,
    block: u32,
    message: M,
) -> Result<(), AllocError>
    ensures buffer { OnOk result ((x : ℕ) → buffer_in (get nat_cmp pending.new x) ≡
        (if block == x then option_map (λ items. items ++ (block, message) ∷ [])
        (buffer_in (get nat_cmp pending.old x)) else buffer_in (get nat_cmp pending.old x))) }
    ensures aborts { OnOk result ((x y : ℕ) →
        aborts_in y (get nat_cmp pending.new x) ≡ aborts_in y (get nat_cmp pending.old x)) }
{
    let (xid, message) = origin_item(block, message);
    buffer_message(pending, block, xid, message)
}

/// Rolls a subtransaction back, without a pass over the messages.
pub fn abort_subtransaction<M: Drop>(
    pending: &mut Transactions<M>,
    xid: u32,
    subxid: u32,
) -> Result<(), AllocError>
    ensures buffer { OnOk result ((x : ℕ) →
        buffer_in (get nat_cmp pending.new x) ≡ buffer_in (get nat_cmp pending.old x)) }
    ensures aborts { OnOk result ((x y : ℕ) → aborts_in y (get nat_cmp pending.new x) ≡
        (if (xid == x) && (subxid == y) then
        length (buffer_or_empty (buffer_in (get nat_cmp pending.old x))) else
        aborts_in y (get nat_cmp pending.old x))) }
{
    match pending.get_mut(&xid) {
        Some(transaction) => transaction.abort(subxid),
        None => Ok(()),
    }
}
