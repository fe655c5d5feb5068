use dbl_capture_work::Halt;
use dbl_demo::DemoError;
use dbl_journal::JournalError;
use dbl_offset::OffsetError;
use dbl_topic::TopicError;
use dblog_init::Store;
use std::alloc::AllocError;
use thiserror::Error;

/// Why a command over the three disks stopped with an error.
#[derive(Debug, Drop, Error)]
pub enum ConnectError {
    /// A disk failed.
    #[error("{store} failed")]
    Failed { store: Store },
    /// The disk has no journal, or no offset store. `at` is the position of the first wrong or
    /// missing byte of the magic; of a journal's missing commit byte, or that of the entry that is
    /// torn or too long; of an offset store's missing selector, or of the selected slot's content.
    #[error("not a store: {store} at {at}")]
    NotAStore { store: Store, at: u64 },
    /// The number, counted from 0, of the first entry that isn't one of the store, or of the
    /// selected slot, which encodes no offset.
    #[error("bad entry {index} in {store}")]
    BadEntry { store: Store, index: u64 },
    /// An offset is stored already.
    #[error("already started")]
    AlreadyStarted,
    /// No offset is stored.
    #[error("not started")]
    NotStarted,
    /// The session halted. The halt is never `Source`, `Sink`, `Offsets` or `Memory`.
    #[error("{halt}")]
    Halted { halt: Halt },
    /// The session's receiver refused the record at this position, with this index in its commit.
    #[error("record refused at {position} {ordinal}")]
    Refused { position: u64, ordinal: u64 },
    #[error("out of memory")]
    Memory,
}

impl From<AllocError> for ConnectError {
    ghost use Rattle.std.specs.Prelude.{◌≡◌};
    ghost use Rattle.dblog_connect_ends.specs.declared.error.ConnectError.TheVariants.{Memory};

    ghost from_gives = { λ _ e. e ≡ Memory };

    fn from(_error: AllocError) -> ConnectError {
        ConnectError::Memory
    }
}

impl From<DemoError> for ConnectError {
    ghost use Rattle.std.specs.Prelude.{◌≡◌};
    ghost use Rattle.dblog_connect_ends.specs.Errors.{demo_error};

    ghost from_gives = { λ e f. f ≡ demo_error e };

    // Opening a source has no other error.
    fn from(error: DemoError) -> ConnectError {
        let store = Store::Wal;
        match error {
            DemoError::Journal(JournalError::Failed) => ConnectError::Failed { store },
            DemoError::Journal(JournalError::NotAJournal { at }) => ConnectError::NotAStore {
                store,
                at,
            },
            DemoError::BadEntry { index } => ConnectError::BadEntry { store, index },
            DemoError::Journal(_)
            | DemoError::Script(_)
            | DemoError::Model(_)
            | DemoError::Memory => ConnectError::Memory,
        }
    }
}

impl From<TopicError> for ConnectError {
    ghost use Rattle.std.specs.Prelude.{◌≡◌};
    ghost use Rattle.dblog_connect_ends.specs.Errors.{topic_error};

    ghost from_gives = { λ e f. f ≡ topic_error e };

    // Opening a topic log has no other error.
    fn from(error: TopicError) -> ConnectError {
        let store = Store::Topics;
        match error {
            TopicError::Journal(JournalError::Failed) => ConnectError::Failed { store },
            TopicError::Journal(JournalError::NotAJournal { at }) => ConnectError::NotAStore {
                store,
                at,
            },
            TopicError::BadEntry { index } => ConnectError::BadEntry { store, index },
            TopicError::Journal(_) | TopicError::Memory => ConnectError::Memory,
        }
    }
}

impl From<OffsetError> for ConnectError {
    ghost use Rattle.std.specs.Prelude.{◌≡◌};
    ghost use Rattle.dblog_connect_ends.specs.Errors.{offset_error};

    ghost from_gives = { λ e f. f ≡ offset_error e };

    // Opening an offset store has no other error.
    fn from(error: OffsetError) -> ConnectError {
        let store = Store::Offsets;
        match error {
            OffsetError::Failed => ConnectError::Failed { store },
            OffsetError::NotAStore { at } => ConnectError::NotAStore { store, at },
            OffsetError::BadOffset { index } => ConnectError::BadEntry { store, index },
            OffsetError::TooLong { .. } | OffsetError::Memory => ConnectError::Memory,
        }
    }
}

impl From<Halt> for ConnectError {
    ghost use Rattle.std.specs.Prelude.{◌≡◌};
    ghost use Rattle.dblog_connect_ends.specs.Errors.{halt_error};

    ghost from_gives = { λ h f. f ≡ halt_error h };

    fn from(halt: Halt) -> ConnectError {
        match halt {
            Halt::Source => ConnectError::Failed { store: Store::Wal },
            Halt::Sink => ConnectError::Failed {
                store: Store::Topics,
            },
            Halt::Offsets => ConnectError::Failed {
                store: Store::Offsets,
            },
            Halt::Memory => ConnectError::Memory,
            halt => ConnectError::Halted { halt },
        }
    }
}
