//! The state of a session.

ghost use Rattle.std.specs.Prelude.{◌≡◌, ◌≤◌, IfOk, IfErr};
ghost use Rattle.dbl_offset.specs.Offsets.{IsOffset};
ghost use Rattle.dbl_capture_work.specs.Works.{BeginsWithOffset, HasReadyWork, next_offset_of};
ghost use Rattle.dbl_capture_model.specs.Steps.{following_of};

use crate::Halt;
use crate::groups::Gathered;
use dbl_base::{Seq, copy_items};
use dbl_follow::Follower;
use dbl_model_history::Cursor;
use dbl_model_table::TableInfo;
use dbl_offset::Offset;
use dbl_txn::Assembler;
use std::alloc::{AllocError, Global};

/// The state of a session between two of its calls.
#[derive(Drop)]
pub struct SessionState {
    pub alloc: Global,
    /// What is captured, and the last commit that was followed. Its cursors are those with which
    /// the session began.
    pub offset: Offset,
    pub assembler: Assembler,
    pub follower: Follower,
    /// Records of the open transaction that its follower released, and that aren't appended yet.
    pub batch: Option<Gathered>,
    pub now_ms: i64,
    pub chunk: u32,
    pub every: u32,
    /// Commits that were followed since the offset was stored.
    pub since: u32,
    /// Windows that were read.
    pub number: u64,
}

fn copy_cursors(alloc: Global, cursors: &Vec<Cursor>) -> Result<Seq<Cursor>, AllocError>
    ensures { IfOk result (λ copies. copies ≡ cursors.now.items) }
{
    Ok(Seq::make(copy_items(alloc, cursors.as_slice())?))
}

fn infos_of(alloc: Global, offset: &Offset) -> Result<Vec<TableInfo>, AllocError>
    ensures { IfOk result (λ infos. infos.items ≡ offset.now.infos) }
{
    copy_items(alloc, offset.infos.items().as_slice())
}

fn follower_of(alloc: Global, offset: &Offset) -> Result<Follower, Halt>
    requires { IsOffset offset.now }
    ensures made { IfOk result (λ follower. follower ≡ following_of offset.now) }
    ensures memory { IfErr result (λ h. h ≡ Halt.Memory) }
{
    let identity = offset.identity.copy(alloc)?;
    let cursors = copy_cursors(alloc, offset.cursors.items())?;
    let follower = Follower::make(
        alloc,
        identity,
        infos_of(alloc, offset)?,
        cursors.into_items(),
    )?;
    Ok(follower)
}

impl SessionState {
    /// Returns the offset to store next: of the last commit that was followed, with the follower's
    /// cursors.
    pub fn next_offset(&self) -> Result<Offset, AllocError>
        requires { HasReadyWork self.now }
        ensures next { IfOk result (λ offset. offset ≡ next_offset_of self.now) }
        ensures asked { IfOk result IsOffset }
    {
        let cursors = copy_cursors(self.alloc, self.follower.cursors())?;
        self.offset.with_cursors(self.alloc, cursors)
    }

    /// Makes a session that begins with this offset and has read nothing.
    pub fn make(
        alloc: Global,
        offset: Offset,
        now_ms: i64,
        chunk: u32,
        every: u32,
    ) -> Result<SessionState, Halt>
        requires offset { IsOffset offset }
        requires some_rows { 1 ≤ chunk }
        requires few_rows { chunk ≤ 100000 }
        requires some { 1 ≤ every }
        ensures made { IfOk result (λ work. BeginsWithOffset offset now_ms chunk every work) }
        ensures memory { IfErr result (λ h. h ≡ Halt.Memory) }
    {
        let assembler = Assembler::make(alloc, infos_of(alloc, &offset)?, offset.lsn);
        let follower = follower_of(alloc, &offset)?;
        Ok(SessionState {
            alloc,
            offset,
            assembler,
            follower,
            batch: None,
            now_ms,
            chunk,
            every,
            since: 0,
            number: 0,
        })
    }
}
