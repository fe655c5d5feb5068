//! Streamed transactions turned into whole ones.

ghost use Rattle.std.specs.Prelude.{◌≡◌, ◌||◌, ◌⊎◌, ◌++◌, ◌∷◌, ℕ, List, []};
ghost use Rattle.std.specs.Prelude.{Some, None, OnOk, IfOk, IfErr};
ghost use Rattle.std.specs.Vec.{vec_items};
ghost use Rattle.dbl_pgmsg.specs.declared.messages.Message.TheVariants as plain;
ghost use Rattle.dbl_stream2_pending.specs.Buffers.{remaining_in};
ghost use Rattle.dbl_stream2.specs.declared.messages.StreamMessage.{StreamMessage};
ghost use Rattle.dbl_stream2.specs.declared.messages.StreamMessage.TheVariants as kinds;
ghost use Rattle.dbl_stream2.specs.declared.error.StreamError.TheVariants.{Memory};
ghost use Rattle.dbl_stream2.specs.Flat.{is_inside, is_begun, is_begun_after, bound_tag};
ghost use Rattle.dbl_stream2.specs.State.{HasReceived, Processes, HasTaken, IsStreamRefusal};

use crate::decoding::decode_message;
use crate::{StreamError, StreamMessage};
use dbl_base::Lsn;
use dbl_pgmsg::Message;
use dbl_stream2_pending::{
    Pending, Transactions, abort_subtransaction, buffer_message, buffer_origin, make_room,
};
use std::alloc::{AllocError, Global};
use std::collections::BTreeMap;

/// Turns a stream of protocol version 2 into the messages of protocol version 1: it buffers the
/// blocks of streamed transactions, and returns each transaction at its Stream Commit.
#[derive(Drop)]
pub struct Unstream {
    block: Option<u32>,
    begun: bool,
    pending: Transactions<Message>,
}

impl Unstream {
    /// Has received no message. Takes no memory; later calls use the allocator.
    pub fn make(alloc: Global) -> Unstream
        ensures { HasReceived [] result }
    {
        Unstream {
            block: None,
            begun: false,
            pending: BTreeMap::new(alloc),
        }
    }

    /// Whether a block is open.
    pub fn inside(&self) -> bool
        ensures { (past : List StreamMessage) → HasReceived past self.now →
            result ≡ is_inside past }
    {
        self.block.is_some()
    }

    // Whether a block or a transaction that isn't streamed is open.
    fn is_open(&self) -> bool
        ensures { (past : List StreamMessage) → HasReceived past self.now →
            result ≡ is_inside past || is_begun past }
    {
        self.block.is_some() || self.begun
    }

    fn start_block(&mut self, alloc: Global, xid: u32) -> Result<Vec<Message>, StreamError>
        ensures { (first : ℕ) →
            Processes vec_items (kinds.Start xid first) self.old result self.new }
    {
        if self.is_open() {
            return Err(StreamError::NestedStream);
        }
        make_room(alloc, &mut self.pending, xid)?;
        self.block = Some(xid);
        Ok(Vec::new(alloc))
    }

    fn stop_block(&mut self, alloc: Global) -> Result<Vec<Message>, StreamError>
        ensures { Processes vec_items kinds.Stop self.old result self.new }
    {
        if !self.inside() {
            return Err(StreamError::NotStreaming);
        }
        self.block = None;
        Ok(Vec::new(alloc))
    }

    fn commit_stream(
        &mut self,
        alloc: Global,
        xid: u32,
        flags: u8,
        lsn: Lsn,
        end_lsn: Lsn,
        time: i64,
    ) -> Result<Vec<Message>, StreamError>
        ensures { Processes vec_items (kinds.Commit xid flags lsn end_lsn time) self.old result
            self.new }
    {
        if self.is_open() {
            return Err(StreamError::NotStreaming);
        }
        match self.pending.remove(&xid) {
            Some(transaction) => {
                let mut messages = Vec::new(alloc);
                append_transaction(&mut messages, transaction, xid, flags, lsn, end_lsn, time)?;
                Ok(messages)
            }
            None => Err(StreamError::UnknownStream { xid }),
        }
    }

    fn abort_stream(
        &mut self,
        alloc: Global,
        xid: u32,
        subxid: u32,
    ) -> Result<Vec<Message>, StreamError>
        ensures { Processes vec_items (kinds.Abort xid subxid) self.old result self.new }
    {
        if self.is_open() {
            return Err(StreamError::NotStreaming);
        }
        if xid == subxid {
            self.pending.remove(&xid);
            return Ok(Vec::new(alloc));
        }
        abort_subtransaction(&mut self.pending, xid, subxid)?;
        Ok(Vec::new(alloc))
    }

    // A message without an xid in a block: an Origin is buffered, a Begin or a Commit refused.
    fn buffer_plain(
        &mut self,
        alloc: Global,
        block: u32,
        message: Message,
    ) -> Result<Vec<Message>, StreamError>
        ensures { self.old.block ≡ Some block →
            Processes vec_items (kinds.Plain message) self.old result self.new }
    {
        match bound_tag(&message) {
            Some(tag) => {
                drop(message);
                Err(StreamError::PlainInside { tag })
            }
            None => {
                buffer_origin(&mut self.pending, block, message)?;
                Ok(Vec::new(alloc))
            }
        }
    }

    fn pass_plain(&mut self, alloc: Global, message: Message) -> Result<Vec<Message>, StreamError>
        ensures { self.old.block ≡ None →
            Processes vec_items (kinds.Plain message) self.old result self.new }
    {
        self.begun = is_begun_after(&message, self.begun);
        let mut messages = Vec::new(alloc);
        messages.push(message)?;
        Ok(messages)
    }

    fn take_plain(&mut self, alloc: Global, message: Message) -> Result<Vec<Message>, StreamError>
        ensures { Processes vec_items (kinds.Plain message) self.old result self.new }
    {
        match self.block {
            Some(block) => self.buffer_plain(alloc, block, message),
            None => self.pass_plain(alloc, message),
        }
    }

    fn buffer_carried(
        &mut self,
        alloc: Global,
        xid: u32,
        message: Message,
    ) -> Result<Vec<Message>, StreamError>
        ensures { Processes vec_items (kinds.Carried xid message) self.old result self.new }
    {
        match self.block {
            Some(block) => {
                buffer_message(&mut self.pending, block, xid, message)?;
                Ok(Vec::new(alloc))
            }
            None => {
                drop(message);
                Ok(Vec::new(alloc))
            }
        }
    }

    fn process(
        &mut self,
        alloc: Global,
        message: StreamMessage,
    ) -> Result<Vec<Message>, StreamError>
        ensures { Processes vec_items message self.old result self.new }
    {
        match message {
            StreamMessage::Start { xid, first: _ } => self.start_block(alloc, xid),
            StreamMessage::Stop => self.stop_block(alloc),
            StreamMessage::Commit {
                xid,
                flags,
                lsn,
                end_lsn,
                time,
            } => self.commit_stream(alloc, xid, flags, lsn, end_lsn, time),
            StreamMessage::Abort { xid, subxid } => self.abort_stream(alloc, xid, subxid),
            StreamMessage::Plain(message) => self.take_plain(alloc, message),
            StreamMessage::Carried { xid, message } => self.buffer_carried(alloc, xid, message),
        }
    }

    /// Takes the bytes of the next message, and returns what it adds to the flattened stream:
    /// itself outside blocks, and a streamed transaction as a whole at its Stream Commit. After an
    /// error nothing is promised of later calls.
    pub fn take(&mut self, alloc: Global, bytes: &[u8]) -> Result<Vec<Message>, StreamError>
        ensures taken { (past : List StreamMessage) → HasReceived past self.old →
            IfOk result (λ out. HasTaken past bytes.now out.items self.new) }
        ensures refused { (past : List StreamMessage) → HasReceived past self.old →
            IfErr result (λ e. (e ≡ Memory) ⊎ IsStreamRefusal past bytes.now e) }
        ensures exactly { (past : List StreamMessage) (e : StreamError) →
            HasReceived past self.old → IsStreamRefusal past bytes.now e →
            (result ≡ Err e) ⊎ (result ≡ Err Memory) }
    {
        let inside = self.inside();
        let message = decode_message(alloc, inside, bytes)?;
        self.process(alloc, message)
    }
}

// Appends a streamed transaction that commits: what isn't lost, between its Begin and its Commit.
fn append_transaction(
    messages: &mut Vec<Message>,
    transaction: Pending<Message>,
    xid: u32,
    flags: u8,
    lsn: Lsn,
    end_lsn: Lsn,
    time: i64,
) -> Result<(), AllocError>
    ensures { OnOk result (messages.new.items ≡ messages.old.items ++
        (plain.Begin lsn time xid ∷ [] ++ remaining_in transaction ++
        plain.Commit flags lsn end_lsn time ∷ [])) }
{
    messages.push(Message::Begin { lsn, time, xid })?;
    transaction.append_remaining(messages)?;
    messages.push(Message::Commit {
        flags,
        lsn,
        end_lsn,
        time,
    })?;
    Ok(())
}

fn is_begun_after(message: &Message, begun: bool) -> bool
    ensures { result ≡ is_begun_after message.now begun }
{
    match message {
        Message::Begin { .. } => true,
        Message::Commit { .. } => false,
        _ => begun,
    }
}

fn bound_tag(message: &Message) -> Option<u8>
    ensures { result ≡ bound_tag message.now }
{
    match message {
        Message::Begin { .. } => Some(b'B'),
        Message::Commit { .. } => Some(b'C'),
        _ => None,
    }
}
